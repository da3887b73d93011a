//! Properties that change, in small stores. Each is the contract of a function that does nothing.

ghost use Rattle.std.specs.Prelude.{◌≡◌, [], ◌∷◌};
ghost use Rattle.hf_box.specs.Literals.{four};
ghost use Rattle.hf_prop.specs.declared.held.Held.{Held};
ghost use Rattle.hf_store.specs.Changes.{lacking_optional, without_optionals};
ghost use Rattle.hf_store.specs.Room.{bytes_more, kinds_more, props_with};
ghost use Rattle.hf_store.specs.Store.{Item, ItemStore};
ghost use Rattle.hf_table.specs.Worked.{axis, half, needed, other, quarter};

/// The first properties of an item stay, as many as there are, and the others come behind them.
pub fn first_properties_stay()
    ensures one { (s : ItemStore) (i j : Item) (a b c d : Held) → props_with 1 (c ∷ d ∷ []) 0 (record s { items = record i { props = a ∷ b ∷ [] } ∷ j ∷ [] }) ≡ a ∷ c ∷ d ∷ [] }
    ensures none { (s : ItemStore) (i j : Item) (a b c : Held) → props_with 0 (c ∷ []) 1 (record s { items = i ∷ record j { props = a ∷ b ∷ [] } ∷ [] }) ≡ c ∷ [] }
    ensures all { (s : ItemStore) (i j : Item) (a b c : Held) → props_with 3 (c ∷ []) 1 (record s { items = i ∷ record j { props = a ∷ b ∷ [] } ∷ [] }) ≡ a ∷ b ∷ c ∷ [] }
    ensures only { (s : ItemStore) (i : Item) (a b : Held) → props_with 1 [] 0 (record s { items = record i { props = a ∷ b ∷ [] } ∷ [] }) ≡ a ∷ [] }
{}

/// A property that is there adds nothing, and one that comes twice adds itself once.
pub fn new_properties_are_added()
    ensures there { kinds_more (half ∷ quarter ∷ []) (quarter ∷ half ∷ []) ≡ 0 }
    ensures twice { kinds_more (half ∷ half ∷ []) (quarter ∷ half ∷ quarter ∷ axis ∷ []) ≡ 2 }
    ensures first { kinds_more [] (half ∷ []) ≡ 1 }
    ensures bytes { bytes_more (half ∷ half ∷ []) (quarter ∷ half ∷ quarter ∷ axis ∷ []) ≡ 18 }
    ensures no_bytes { bytes_more (half ∷ quarter ∷ []) (quarter ∷ half ∷ []) ≡ 0 }
{}

/// Those properties go that have the type and are not essential, and of one item alone.
pub fn optional_properties_go()
    ensures go { (i : Item) → lacking_optional (four "irot") (record i { props = needed half ∷ other axis ∷ other quarter ∷ [] }) ≡ record i { props = needed half ∷ other axis ∷ [] } }
    ensures stay { (i : Item) → lacking_optional (four "imir") (record i { props = needed axis ∷ other half ∷ [] }) ≡ record i { props = needed axis ∷ other half ∷ [] } }
    ensures second { (s : ItemStore) (i j k : Item) → without_optionals 1 (four "irot") (record s { items = i ∷ j ∷ k ∷ [] }) ≡ record s { items = i ∷ lacking_optional (four "irot") j ∷ k ∷ [] } }
{}
