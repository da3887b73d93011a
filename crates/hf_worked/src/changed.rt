//! Worked changes: what each makes of a store. Each is the contract of a function that does nothing.

ghost use Rattle.std.specs.Prelude.{◌≡◌, false, [], ◌∷◌};
ghost use Rattle.hf_box.specs.Literals.{four, hex_of};
ghost use Rattle.hf_store.specs.Changes.{added, id_at, kept_only, removed, with_hidden, with_primary, with_props, without_names, without_props};
ghost use Rattle.hf_worked.specs.WorkedChanges.{described_pair, first_described, pair_and_one, pair_of_second, pair_shown, pair_turned, pair_unnamed, pair_upright, second_gone, second_in_all};
ghost use Rattle.hf_worked.specs.WorkedStores.{essential, plain};
ghost use Rattle.hf_store.specs.Valid.{Valid};

/// An item goes, and its id from all references and groups: lists and groups that have nothing
/// left go too, and a group that lost an entity where bytes stand after its entities. All else
/// stays as it was, in its order.
pub fn item_goes_from_references_and_groups()
    ensures second { removed 2 second_in_all ≡ second_gone }
    ensures none { removed 9 second_gone ≡ second_gone }
    ensures first_place { id_at 0 second_gone.items ≡ 1 }
    ensures next_place { id_at 1 second_gone.items ≡ 3 }
{}

/// Two pictures in a group and their metadata, and each store that a change makes of them, are valid.
pub fn changed_pairs_are_valid()
    ensures pair { Valid described_pair }
    ensures primary { Valid pair_of_second }
    ensures shown { Valid pair_shown }
    ensures unnamed { Valid pair_unnamed }
    ensures turned { Valid pair_turned }
    ensures upright { Valid pair_upright }
    ensures added { Valid pair_and_one }
    ensures left { Valid first_described }
{}

/// A change touches what it names, and no other item.
pub fn one_part_changes()
    ensures primary { with_primary 2 described_pair ≡ pair_of_second }
    ensures shown { with_hidden 1 false described_pair ≡ pair_shown }
    ensures unnamed { without_names described_pair ≡ pair_unnamed }
    ensures turned { with_props 1 (essential "irot" (hex_of "01") ∷ []) described_pair ≡ pair_turned }
    ensures upright { without_props 0 (four "irot") described_pair ≡ pair_upright }
    ensures absent { without_props 1 (four "irot") described_pair ≡ described_pair }
    ensures added { added (plain 4 "hvc1" (hex_of "ee")) described_pair ≡ pair_and_one }
    ensures left { kept_only (1 ∷ 3 ∷ []) described_pair ≡ first_described }
    ensures removed { removed 2 described_pair ≡ first_described }
    ensures all { kept_only (1 ∷ 2 ∷ 3 ∷ []) described_pair ≡ described_pair }
{}
