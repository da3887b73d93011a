//! Laws of the definitions. Each is the contract of a function that does nothing.

ghost use Rattle.std.specs.Prelude.{◌≡◌, ◌↔◌, ◌⊎◌, ◌≤◌, ◌<◌, ◌*◌, ◌^◌, ℕ, Bool, List, length, map, Ok, IsTrue};
ghost use Rattle.std.specs.List.{AllByRecursion};
ghost use Rattle.hf_base.specs.Entries.{are_distinct};
ghost use Rattle.hf_base.specs.Number.{IsBytes};
ghost use Rattle.hf_base.specs.declared.limits.TheConstants.{ROWS};
ghost use Rattle.hf_base.specs.declared.loc.Loc.{Loc};
ghost use Rattle.hf_box.specs.Written.{id_width};
ghost use Rattle.hf_loc.specs.Iloc.{IsIloc, loc_rows, iloc_at, iloc_within, Entry, loc_of, IsWritten, iloc_body};
ghost use Rattle.hf_loc.specs.Worked.{ReadsWorkedFile, ReadsExtents, ReadsVersionZero, ReadsVersionTwo, ReadsNoBytes, ReadsFullTable};
ghost use Rattle.hf_loc.specs.Worked.{RefusesNoFlags, RefusesVersion, RefusesNoCount, RefusesOffsetWidth, RefusesLengthWidth, RefusesBaseWidth, RefusesIndexWidth};
ghost use Rattle.hf_loc.specs.Worked.{RefusesShortEntry, RefusesRows, RefusesEntryRow, RefusesShortExtents, RefusesSecondEntry, WritesWorkedFile, WritesWideAndLong};

/// Reading from left to right finds exactly the entries of an `iloc` body, up to any limit of rows.
pub fn iloc_is_its_program()
    ensures within { (most at : ℕ) (body : List ℕ) (locs : List Loc) → IsBytes body → (IsIloc body locs × (loc_rows locs ≤ most)) ↔ (iloc_within most at body ≡ Ok locs) }
    ensures program { (at : ℕ) (body : List ℕ) (locs : List Loc) → IsBytes body → (IsIloc body locs × (loc_rows locs ≤ ROWS)) ↔ (iloc_at at body ≡ Ok locs) }
{}

/// An `iloc` body has at most one list of entries.
pub fn entries_are_unique()
    ensures { (body : List ℕ) (some other : List Loc) → IsIloc body some → IsIloc body other → some ≡ other }
{}

/// The body with these entries, as it is written with numbers of four or eight bytes, has them and
/// no other, and they are read back.
pub fn written_entries_come_back()
    ensures relation { (wide : Bool) (w : ℕ) (entries : List Entry) → (w ≡ 4) ⊎ (w ≡ 8) → length entries < 256 ^ id_width wide → AllByRecursion (IsWritten wide w) entries →
        IsTrue (are_distinct (map (λ (e : Entry). e.id) entries)) → IsIloc (iloc_body wide w entries) (map loc_of entries) }
    ensures program { (at : ℕ) (wide : Bool) (w : ℕ) (entries : List Entry) → (w ≡ 4) ⊎ (w ≡ 8) → length entries < 256 ^ id_width wide → AllByRecursion (IsWritten wide w) entries →
        IsTrue (are_distinct (map (λ (e : Entry). e.id) entries)) → 2 * length entries ≤ ROWS → iloc_at at (iloc_body wide w entries) ≡ Ok (map loc_of entries) }
{}

/// Worked bodies are read.
pub fn worked_bodies_are_read()
    ensures worked_file { ReadsWorkedFile }
    ensures extents { ReadsExtents }
    ensures version_0 { ReadsVersionZero }
    ensures version_2 { ReadsVersionTwo }
    ensures no_bytes { ReadsNoBytes }
    ensures full_table { ReadsFullTable }
{}

/// Worked bodies are refused, with the first of their faults.
pub fn worked_bodies_are_refused()
    ensures no_flags { RefusesNoFlags }
    ensures version { RefusesVersion }
    ensures no_count { RefusesNoCount }
    ensures offset_width { RefusesOffsetWidth }
    ensures length_width { RefusesLengthWidth }
    ensures base_width { RefusesBaseWidth }
    ensures index_width { RefusesIndexWidth }
    ensures short_entry { RefusesShortEntry }
    ensures rows { RefusesRows }
    ensures entry_row { RefusesEntryRow }
    ensures short_extents { RefusesShortExtents }
    ensures second_entry { RefusesSecondEntry }
{}

/// Worked entries are written.
pub fn worked_entries_are_written()
    ensures worked_file { WritesWorkedFile }
    ensures wide_and_long { WritesWideAndLong }
{}
