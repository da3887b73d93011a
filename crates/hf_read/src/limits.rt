//! Stores at their limits, and one past each. Each is the contract of a function that does nothing.

ghost use Rattle.std.specs.Prelude.{◌≡◌, ◌<◌, ◌≤◌, ◌^◌, ◌-◌, ℕ, [], ◌∷◌, replicate, Ok, Err};
ghost use Rattle.hf_base.specs.declared.fault.ReadRefusal.{ReadRefusal};
ghost use Rattle.hf_base.specs.declared.fault.ReadRefusal.TheVariants.{DeriveCycle, TooManyItems, TooManyLinks, MetaTooLong};
ghost use Rattle.hf_base.specs.declared.limits.TheConstants.{META};
ghost use Rattle.hf_store.specs.Store.{ItemStore};
ghost use Rattle.hf_store.specs.Valid.{meta_len};
ghost use Rattle.hf_worked.specs.WorkedStores.{plain};
ghost use Rattle.hf_store.specs.LimitFaults.{too_many_items_fault, too_many_links_fault, meta_too_long_fault, limits_fault};
ghost use Rattle.hf_read.specs.Reading.{checked};
ghost use Rattle.hf_read.specs.WorkedStores.{linked, store_of};

/// Items.
pub fn items_are_limited()
    ensures most { too_many_items_fault (replicate 65536 (plain 1 "hvc1" [])) ≡ Ok tt }
    ensures one_more { too_many_items_fault (replicate 65537 (plain 1 "hvc1" [])) ≡ Err (TooManyItems 65537) }
{}

/// Ids of a list of references.
pub fn references_are_limited()
    ensures most { too_many_links_fault (linked 1 "cdsc" 65535 ∷ []) ≡ Ok tt }
    ensures one_more { too_many_links_fault (linked 1 "cdsc" 65536 ∷ []) ≡ Err (TooManyLinks 1) }
    ensures first { too_many_links_fault (linked 1 "cdsc" 1 ∷ linked 2 "cdsc" 65536 ∷ linked 3 "cdsc" 65536 ∷ []) ≡ Err (TooManyLinks 2) }
{}

/// The length of `meta`; one that takes no eight bytes is told as the greatest that does.
pub fn meta_is_limited()
    ensures most { (s : ItemStore) → meta_len s ≤ META → meta_too_long_fault s ≡ Ok tt }
    ensures more { (s : ItemStore) → META < meta_len s → meta_len s < 2 ^ 64 → meta_too_long_fault s ≡ Err (MetaTooLong (meta_len s)) }
    ensures greatest { (s : ItemStore) → 2 ^ 64 ≤ meta_len s → meta_too_long_fault s ≡ Err (MetaTooLong (2 ^ 64 - 1)) }
{}

/// Derived items come before the limits, and these in their order.
pub fn limits_come_in_order()
    ensures derived { checked (store_of (linked 1 "dimg" 65536 ∷ []) []) ≡ Err (DeriveCycle 1) }
    ensures items { (s : ItemStore) (fault : ReadRefusal) → too_many_items_fault s.items ≡ Err fault → limits_fault s ≡ Err fault }
    ensures links { (s : ItemStore) (fault : ReadRefusal) → too_many_items_fault s.items ≡ Ok tt → too_many_links_fault s.items ≡ Err fault → limits_fault s ≡ Err fault }
    ensures meta { (s : ItemStore) → too_many_items_fault s.items ≡ Ok tt → too_many_links_fault s.items ≡ Ok tt → limits_fault s ≡ meta_too_long_fault s }
{}
