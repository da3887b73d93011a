//! Laws of the bytes of items, and of the faults of their places. Each is the contract of a function
//! that does nothing.

ghost use Rattle.std.specs.Prelude.{◌≡◌, ◌↔◌, ◌≤◌, ℕ, false, List, Option, Ok, Some, None, length};
ghost use Rattle.hf_base.specs.BytesOf.{bytes_at, bytes_of};
ghost use Rattle.hf_base.specs.Chains.{LiesIn, IsEndlessChain, by_turns};
ghost use Rattle.hf_base.specs.Counts.{ends, size_of, inner_size};
ghost use Rattle.hf_base.specs.Located.{Located};
ghost use Rattle.hf_base.specs.LocationFaults.{locations_fault};
ghost use Rattle.hf_base.specs.Members.{IsIn};
ghost use Rattle.hf_base.specs.Placed.{ArePlaced};

/// Places have no fault exactly where each item has bytes and the limits are kept.
pub fn faults_and_bytes()
    ensures { (F : List ℕ) (idat : Option (List ℕ)) (items : List Located) → (locations_fault F idat items ≡ Ok tt) ↔ ArePlaced F idat items }
{}

/// Without a fault each item has its bytes, and exactly one list of them.
pub fn each_item_has_one_list_of_bytes()
    ensures { (F : List ℕ) (idat : Option (List ℕ)) (items : List Located) (r : Located) → locations_fault F idat items ≡ Ok tt → IsIn r items →
        (bytes : List ℕ) × (bytes_of F idat items r ≡ Some bytes) × ((other : List ℕ) → bytes_of F idat items r ≡ Some other → other ≡ bytes) }
{}

/// An item has as many bytes as its extents state.
pub fn bytes_and_sizes()
    ensures { (F : List ℕ) (idat : Option (List ℕ)) (items : List Located) (r : Located) (bytes : List ℕ) →
        bytes_of F idat items r ≡ Some bytes → length bytes ≡ size_of (length F) (inner_size idat) items r }
{}

/// With more levels than it needs an item has the same bytes.
pub fn more_levels_give_the_same_bytes()
    ensures { (F : List ℕ) (idat : Option (List ℕ)) (items : List Located) (r : Located) (bytes : List ℕ) (levels more : ℕ) →
        bytes_at levels F idat items r ≡ Some bytes → levels ≤ more → bytes_at more F idat items r ≡ Some bytes }
{}

/// An item that lies in another one, and so on without end, has no bytes with however many levels, and
/// its places have a fault.
pub fn items_located_in_each_other_have_no_bytes()
    ensures none { (F : List ℕ) (idat : Option (List ℕ)) (items : List Located) (walk : ℕ → Located) → IsEndlessChain items walk →
        (levels : ℕ) → bytes_at levels F idat items (walk 0) ≡ None }
    ensures endless { (items : List Located) (walk : ℕ → Located) → IsEndlessChain items walk → ends items (walk 0) ≡ false }
    ensures refused { (F : List ℕ) (idat : Option (List ℕ)) (items : List Located) (walk : ℕ → Located) → IsEndlessChain items walk → IsIn (walk 0) items →
        ¬ (locations_fault F idat items ≡ Ok tt) }
{}

/// Two items that lie in each other, or one that lies in itself, are such a chain.
pub fn items_that_lie_in_each_other_are_endless()
    ensures { (items : List Located) (r s : Located) → LiesIn items r s → LiesIn items s r → IsEndlessChain items (by_turns r s) }
{}
