//! Laws of the definitions. Each is the contract of a function that does nothing.

ghost use Rattle.std.specs.Prelude.{◌≡◌, ◌≢◌, ◌↔◌, ◌*◌, ℕ, Bool, true, List, Option, Some, IsTrue};
ghost use Rattle.hf_base.specs.Number.{IsBytes};
ghost use Rattle.hf_base.specs.declared.four.FourCc.{FourCc};
ghost use Rattle.hf_base.specs.declared.kinds.TheConstants.{GRID, IOVL, IDEN};
ghost use Rattle.hf_derived.specs.Cycle.{IsLeastCycle};
ghost use Rattle.hf_derived.specs.Derived.{fits};
ghost use Rattle.hf_derived.specs.Grid.{IsGrid, IsGridOf, grid_at, grid_body};
ghost use Rattle.hf_derived.specs.Overlay.{IsOverlay, IsOverlayOf, overlay_at, overlay_body};
ghost use Rattle.hf_derived.specs.declared.grid.Grid.{Grid};
ghost use Rattle.hf_derived.specs.declared.overlay.Overlay.{Overlay};

/// Reading from left to right finds exactly the payload of a grid.
pub fn grid_is_its_program()
    ensures { (bytes : List ℕ) (grid : Grid) → IsBytes bytes → IsGrid bytes grid ↔ (grid_at bytes ≡ Some grid) }
{}

/// Reading from left to right finds exactly the payload of an overlay.
pub fn overlay_is_its_program()
    ensures { (bytes : List ℕ) (inputs : ℕ) (overlay : Overlay) → IsBytes bytes → IsOverlay bytes inputs overlay ↔ (overlay_at inputs bytes ≡ Some overlay) }
{}

/// Bytes begin with the payload of at most one grid, and of at most one overlay.
pub fn payloads_are_unique()
    ensures grid { (bytes : List ℕ) (some other : Grid) → IsGrid bytes some → IsGrid bytes other → some ≡ other }
    ensures overlay { (bytes : List ℕ) (inputs : ℕ) (some other : Overlay) → IsOverlay bytes inputs some → IsOverlay bytes inputs other → some ≡ other }
{}

/// A payload as it is written is one of its values, with sides of two bytes and of four.
pub fn written_payloads_come_back()
    ensures grid { (long : Bool) (grid : Grid) → IsGridOf long grid → IsGrid (grid_body long grid) grid }
    ensures overlay { (inputs : ℕ) (overlay : Overlay) (fill offsets : List ℕ) → IsOverlayOf inputs overlay fill offsets → IsOverlay (overlay_body overlay fill offsets) inputs overlay }
{}

/// Bytes fit so many inputs exactly where the payload of their type stands there, and counts as many.
pub fn fitting_bytes_are_payloads()
    ensures grid { (bytes : List ℕ) (count : ℕ) → IsBytes bytes →
        IsTrue (fits GRID bytes count) ↔ ((grid : Grid) × IsGrid bytes grid × (grid.rows * grid.columns ≡ count)) }
    ensures overlay { (bytes : List ℕ) (count : ℕ) → IsBytes bytes →
        IsTrue (fits IOVL bytes count) ↔ ((overlay : Overlay) × IsOverlay bytes count overlay) }
    ensures identity { (bytes : List ℕ) (count : ℕ) → IsTrue (fits IDEN bytes count) ↔ (count ≡ 1) }
    ensures others { (kind : FourCc) (bytes : List ℕ) (count : ℕ) → kind ≢ GRID → kind ≢ IOVL → kind ≢ IDEN → IsTrue (fits kind bytes count) }
{}

/// Pairs have one least cycle, or none.
pub fn least_cycle_is_unique()
    ensures { (pairs : List (ℕ × ℕ)) (some other : Option ℕ) → IsLeastCycle pairs some → IsLeastCycle pairs other → some ≡ other }
{}
