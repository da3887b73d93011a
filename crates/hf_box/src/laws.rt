//! Laws of the definitions. Each is the contract of a function that does nothing.

ghost use Rattle.std.specs.Prelude.{◌≡◌, ◌↔◌, ◌+◌, ◌^◌, ◌<◌, ◌≤◌, ◌++◌, ◌∷◌, ℕ, Bool, List, length, Ok, Err};
ghost use Rattle.hf_base.specs.Number.{IsBytes};
ghost use Rattle.hf_base.specs.declared.fault.ReadRefusal.{ReadRefusal};
ghost use Rattle.hf_base.specs.declared.limits.TheConstants.{BOXES};
ghost use Rattle.hf_base.specs.declared.four.FourCc.{FourCc};
ghost use Rattle.hf_box.specs.declared.view.BoxRow.{BoxRow};
ghost use Rattle.hf_box.specs.Boxes.{BoxAt, IsBoxes, FrameFault, compact, long};
ghost use Rattle.hf_box.specs.Framing.{frames};
ghost use Rattle.hf_box.specs.Head.{box, box_len, written_at};
ghost use Rattle.hf_box.specs.Walk.{IsWalk, IsWalkFault, walk_at};
ghost use Rattle.hf_box.specs.Worked.{worked_file, worked_rows};

/// Bytes have at most one list of boxes.
pub fn boxes_are_unique()
    ensures { (bytes : List ℕ) (origin : ℕ) (top : Bool) (some others : List BoxAt) →
        IsBoxes bytes origin top some → IsBoxes bytes origin top others → some ≡ others }
{}

/// Bytes have a list of boxes within the limit exactly where no place has a fault.
pub fn boxes_stand_without_fault()
    ensures { (bytes : List ℕ) (origin : ℕ) (top : Bool) → IsBytes bytes →
        ((boxes : List BoxAt) × IsBoxes bytes origin top boxes × (length boxes ≤ BOXES))
        ↔ ((fault : ReadRefusal) → FrameFault bytes origin top fault → ⊥) }
{}

/// Bytes have at most one first fault.
pub fn framing_fault_is_unique()
    ensures { (bytes : List ℕ) (origin : ℕ) (top : Bool) (some other : ReadRefusal) →
        FrameFault bytes origin top some → FrameFault bytes origin top other → some ≡ other }
{}

/// Framing from left to right finds exactly the boxes within the limit, and exactly the first
/// fault.
pub fn framing_is_its_program()
    ensures boxes { (bytes : List ℕ) (origin : ℕ) (top : Bool) (boxes : List BoxAt) → IsBytes bytes →
        (IsBoxes bytes origin top boxes × (length boxes ≤ BOXES)) ↔ (frames top origin bytes ≡ Ok boxes) }
    ensures fault { (bytes : List ℕ) (origin : ℕ) (top : Bool) (fault : ReadRefusal) → IsBytes bytes →
        FrameFault bytes origin top fault ↔ (frames top origin bytes ≡ Err fault) }
{}

/// Walking from left to right finds exactly the rows of a file, and exactly its first fault.
pub fn walk_is_its_program()
    ensures rows { (file : List ℕ) (rows : List BoxRow) → IsBytes file →
        IsWalk file rows ↔ (walk_at file ≡ Ok rows) }
    ensures fault { (file : List ℕ) (fault : ReadRefusal) → IsBytes file →
        IsWalkFault file fault ↔ (walk_at file ≡ Err fault) }
{}

/// A box is written with its size in four bytes where it fits there, and otherwise in eight
/// bytes; its length is `box_len`.
pub fn box_is_the_shortest_spelling()
    ensures compact { (kind : FourCc) (body : List ℕ) → 8 + length body < 256 ^ 4 → box kind body ≡ compact kind body }
    ensures long { (kind : FourCc) (body : List ℕ) → 256 ^ 4 ≤ 8 + length body → box kind body ≡ long kind body }
    ensures length { (kind : FourCc) (body : List ℕ) → length kind.0 ≡ 4 → length (box kind body) ≡ box_len (length body) }
{}

/// A box as it is written, with the bytes of other boxes behind it, is that box and the others.
pub fn written_box_is_a_box()
    ensures { (origin : ℕ) (top : Bool) (kind : FourCc) (body rest : List ℕ) (others : List BoxAt) → length kind.0 ≡ 4 → 16 + length body < 256 ^ 8 →
        IsBoxes rest (origin + length (box kind body)) top others → IsBoxes (box kind body ++ rest) origin top (written_at origin kind body ∷ others) }
{}

/// The worked file, of 193 bytes, has its eight rows.
pub fn worked_file_rows()
    ensures length { length worked_file ≡ 193 }
    ensures rows { IsWalk worked_file worked_rows }
    ensures program { walk_at worked_file ≡ Ok worked_rows }
{}
