//! Laws of the definitions. Each is the contract of a function that does nothing.

ghost use Rattle.std.specs.Prelude.{◌≡◌, ◌↔◌, ◌≤◌, ℕ, Bool, List, Ok, IsTrue};
ghost use Rattle.std.specs.List.{AllByRecursion};
ghost use Rattle.hf_base.specs.Number.{IsBytes};
ghost use Rattle.hf_base.specs.Entries.{are_distinct};
ghost use Rattle.hf_base.specs.declared.limits.TheConstants.{ROWS};
ghost use Rattle.hf_base.specs.declared.loc.RefBox.{RefBox};
ghost use Rattle.hf_box.specs.Boxes.{BoxAt};
ghost use Rattle.hf_links.specs.Grpl.{Group, IsGrpl, IsGrplWithin, grpl_at, grpl_body, group_ids, group_rows, IsWritable as IsWritableGroup};
ghost use Rattle.hf_links.specs.Iref.{IsIref, IsIrefWithin, iref_at, iref_body, link_rows, IsWritable};

/// Reading from left to right finds exactly the references of an `iref`, within the limits.
pub fn iref_is_its_program()
    ensures { (b : BoxAt) (links : List RefBox) → IsBytes b.body → IsIrefWithin b links ↔ (iref_at b ≡ Ok links) }
{}

/// Reading from left to right finds exactly the groups of a `grpl`, within the limits.
pub fn grpl_is_its_program()
    ensures { (b : BoxAt) (groups : List Group) → IsBytes b.body → IsGrplWithin b groups ↔ (grpl_at b ≡ Ok groups) }
{}

/// An `iref` has at most one list of references.
pub fn references_are_unique()
    ensures { (b : BoxAt) (some others : List RefBox) → IsIref b some → IsIref b others → some ≡ others }
{}

/// A `grpl` has at most one list of groups.
pub fn groups_are_unique()
    ensures { (b : BoxAt) (some others : List Group) → IsGrpl b some → IsGrpl b others → some ≡ others }
{}

/// References that are written, with ids of two bytes or of four, stand there, and are read.
pub fn written_references_come_back()
    ensures stand { (b : BoxAt) (wide : Bool) (links : List RefBox) → b.body ≡ iref_body wide links → AllByRecursion (IsWritable wide) links → link_rows links ≤ ROWS → IsIrefWithin b links }
    ensures read { (b : BoxAt) (wide : Bool) (links : List RefBox) → b.body ≡ iref_body wide links → AllByRecursion (IsWritable wide) links → link_rows links ≤ ROWS → iref_at b ≡ Ok links }
{}

/// Groups that are written, with distinct ids, stand there, and are read.
pub fn written_groups_come_back()
    ensures stand { (b : BoxAt) (groups : List Group) → b.body ≡ grpl_body groups → AllByRecursion IsWritableGroup groups → IsTrue (are_distinct (group_ids groups)) → group_rows groups ≤ ROWS → IsGrplWithin b groups }
    ensures read { (b : BoxAt) (groups : List Group) → b.body ≡ grpl_body groups → AllByRecursion IsWritableGroup groups → IsTrue (are_distinct (group_ids groups)) → group_rows groups ≤ ROWS → grpl_at b ≡ Ok groups }
{}
