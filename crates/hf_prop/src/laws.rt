//! Laws of the definitions. Each is the contract of a function that does nothing.

ghost use Rattle.std.specs.Prelude.{◌≡◌, ◌↔◌, ◌≤◌, ◌<◌, ◌^◌, ℕ, Bool, List, length, Some, Ok};
ghost use Rattle.std.specs.List.{AllByRecursion};
ghost use Rattle.hf_base.specs.Number.{IsBytes};
ghost use Rattle.hf_box.specs.Boxes.{BoxAt};
ghost use Rattle.hf_prop.specs.declared.assoc.Assoc.{Assoc};
ghost use Rattle.hf_prop.specs.declared.iprp.Iprp.{Iprp};
ghost use Rattle.hf_prop.specs.Ipma.{IsIpma, ipma_body, IsWritable};
ghost use Rattle.hf_prop.specs.Iprp.{IsIprp, StandsWithin, IsIprpWithin, iprp_within, iprp_at, iprp_body, IsWritten};
ghost use Rattle.hf_prop.specs.Views.{turn_in, axis_in, window_in, turn_by, mirror_at, window_at};
ghost use Rattle.hf_prop.specs.Worked.{ReadsBothWidths, ReadsNeither, ReadsFlagTwo, ReadsFullTable};
ghost use Rattle.hf_prop.specs.Worked.{RefusesFraming, RefusesSecondIpco, RefusesIpco, RefusesNoFlags, RefusesVersion, RefusesNoCount, RefusesNoId, RefusesNoAssociations, RefusesRows, RefusesShortAssociation, RefusesSecondEntry};
ghost use Rattle.hf_prop.specs.Worked.{WritesNeither, WritesWide, WritesLong, LongTables};
ghost use Rattle.hf_prop.specs.Worked.{SaysSize, SaysNoSize, SaysTurn, SaysAxis, SaysWindow, SaysNoWindow, MakesCorner, MakesOtherCorner};

/// Reading from left to right finds exactly the properties and entries of an `iprp`, within the
/// limits, and with any limit of rows.
pub fn iprp_is_its_program()
    ensures within { (most : ℕ) (b : BoxAt) (v : Iprp) → IsBytes b.body → StandsWithin most b v ↔ (iprp_within most b ≡ Ok v) }
    ensures program { (b : BoxAt) (v : Iprp) → IsBytes b.body → IsIprpWithin b v ↔ (iprp_at b ≡ Ok v) }
{}

/// An `iprp` has at most one list of properties, and one of entries.
pub fn properties_are_unique()
    ensures { (b : BoxAt) (some other : Iprp) → IsIprp b some → IsIprp b other → some ≡ other }
{}

/// Entries of `ipma` that are written, with ids and associations of either width, stand there.
pub fn written_entries_come_back()
    ensures { (wide two_bytes : Bool) (assocs : List Assoc) → AllByRecursion (IsWritable wide two_bytes) assocs → length assocs < 256 ^ 4 → IsIpma (ipma_body wide two_bytes assocs) assocs }
{}

/// Properties and entries that are written stand there, and are read.
pub fn written_properties_come_back()
    ensures stand { (b : BoxAt) (wide : Bool) (v : Iprp) → b.body ≡ iprp_body wide v → IsWritten wide v → IsIprpWithin b v }
    ensures read { (b : BoxAt) (wide : Bool) (v : Iprp) → b.body ≡ iprp_body wide v → IsWritten wide v → iprp_at b ≡ Ok v }
{}

/// A view of what a maker made gives its numbers.
pub fn made_properties_are_seen()
    ensures turn { (quarters : ℕ) → quarters < 4 → turn_in (turn_by quarters) ≡ Some quarters }
    ensures axis { (axis : ℕ) → axis < 2 → axis_in (mirror_at axis) ≡ Some axis }
    ensures window { (x y w h width height : ℕ) → 1 ≤ w → w < 256 ^ 4 → 1 ≤ h → h < 256 ^ 4 → window_in (window_at x y w h width height) ≡ Some (w, h) }
{}

/// Worked boxes are read.
pub fn worked_boxes_are_read()
    ensures both_widths { ReadsBothWidths }
    ensures neither { ReadsNeither }
    ensures flag_two { ReadsFlagTwo }
    ensures full_table { ReadsFullTable }
{}

/// Worked boxes are refused, with the first of their faults.
pub fn worked_boxes_are_refused()
    ensures framing { RefusesFraming }
    ensures second_ipco { RefusesSecondIpco }
    ensures ipco { RefusesIpco }
    ensures no_flags { RefusesNoFlags }
    ensures version { RefusesVersion }
    ensures no_count { RefusesNoCount }
    ensures no_id { RefusesNoId }
    ensures no_associations { RefusesNoAssociations }
    ensures rows { RefusesRows }
    ensures short_association { RefusesShortAssociation }
    ensures second_entry { RefusesSecondEntry }
{}

/// Worked boxes are written.
pub fn worked_boxes_are_written()
    ensures neither { WritesNeither }
    ensures wide { WritesWide }
    ensures long { WritesLong }
    ensures long_tables { LongTables }
{}

/// What worked properties say.
pub fn worked_properties_are_seen()
    ensures size { SaysSize }
    ensures no_size { SaysNoSize }
    ensures turn { SaysTurn }
    ensures axis { SaysAxis }
    ensures window { SaysWindow }
    ensures no_window { SaysNoWindow }
    ensures corner { MakesCorner }
    ensures other_corner { MakesOtherCorner }
{}
