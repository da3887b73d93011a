//! Worked lists of properties. Each is the contract of a function that does nothing.

ghost use Rattle.std.specs.Prelude.{◌≡◌, ◌<◌, ℕ, List, [], ◌∷◌, false, true};
ghost use Rattle.hf_box.specs.Literals.{four};
ghost use Rattle.hf_table.specs.Held.{props_in, of_kind, optional_of, without_kind, without_optional, all_props, is_among, listed, others, props_of_others};
ghost use Rattle.hf_table.specs.Numbered.{place_of, IsTableOf};
ghost use Rattle.hf_table.specs.Table.{same_prop, table, number_of, places_of, prop_size, size_sum};
ghost use Rattle.hf_table.specs.Uses.{holders_in, Gains, Trades, Tallies, IsCount};
ghost use Rattle.hf_table.specs.Worked.{prop, quarter, half, axis, needed, other, lists, items};
ghost use Rattle.hf_table.specs.declared.table.Table.{Table as StatedTable};

/// Properties are told apart by their types and by their bytes.
pub fn properties_are_told_apart()
    ensures same { same_prop quarter quarter ≡ true }
    ensures other_type { same_prop quarter axis ≡ false }
    ensures other_byte { same_prop quarter half ≡ false }
    ensures longer { same_prop quarter (prop "irot" (1 ∷ 0 ∷ [])) ≡ false }
    ensures shorter { same_prop quarter (prop "irot" []) ≡ false }
{}

/// Each distinct property stands once in a table, in the order of first use.
pub fn distinct_properties_stand_once()
    ensures none { table [] ≡ [] }
    ensures once { table (quarter ∷ quarter ∷ []) ≡ quarter ∷ [] }
    ensures first_use { table (half ∷ quarter ∷ axis ∷ quarter ∷ half ∷ []) ≡ half ∷ quarter ∷ axis ∷ [] }
    ensures other_order { table (axis ∷ quarter ∷ half ∷ []) ≡ axis ∷ quarter ∷ half ∷ [] }
    ensures one_body { table (quarter ∷ axis ∷ []) ≡ quarter ∷ axis ∷ [] }
{}

/// Numbers count from 1. A property that a table lacks would get the number of the last one.
pub fn numbers_count_from_1()
    ensures first { number_of half (half ∷ quarter ∷ axis ∷ []) ≡ 1 }
    ensures second { number_of quarter (half ∷ quarter ∷ axis ∷ []) ≡ 2 }
    ensures third { number_of axis (half ∷ quarter ∷ axis ∷ []) ≡ 3 }
    ensures lacked { number_of axis (half ∷ quarter ∷ []) ≡ 2 }
    ensures none { number_of axis [] ≡ 0 }
{}

/// A property counts at each of its places.
pub fn places_are_counted()
    ensures twice { places_of half (half ∷ axis ∷ half ∷ []) ≡ 2 }
    ensures once { places_of axis (half ∷ axis ∷ half ∷ []) ≡ 1 }
    ensures lacked { places_of quarter (half ∷ axis ∷ half ∷ []) ≡ 0 }
{}

/// A box takes eight bytes more than its body, and a list the bytes of each of its places.
pub fn boxes_are_measured()
    ensures empty { prop_size (prop "irot" []) ≡ 8 }
    ensures one_byte { prop_size quarter ≡ 9 }
    ensures none { size_sum [] ≡ 0 }
    ensures three { size_sum (quarter ∷ prop "ispe" (0 ∷ 0 ∷ 0 ∷ 0 ∷ []) ∷ quarter ∷ []) ≡ 30 }
{}

/// The properties that lists of items have: all, those of one type, those of items that are not
/// listed.
pub fn properties_are_listed()
    ensures held { props_in (needed half ∷ other axis ∷ []) ≡ half ∷ axis ∷ [] }
    ensures of_type { of_kind (four "irot") (needed half ∷ other axis ∷ other quarter ∷ []) ≡ half ∷ quarter ∷ [] }
    ensures of_other_types { without_kind (four "irot") (needed half ∷ other axis ∷ other quarter ∷ needed axis ∷ []) ≡ other axis ∷ needed axis ∷ [] }
    ensures optional { optional_of (four "irot") (needed half ∷ other axis ∷ other quarter ∷ []) ≡ quarter ∷ [] }
    ensures not_optional { without_optional (four "irot") (needed half ∷ other axis ∷ other quarter ∷ needed axis ∷ []) ≡ needed half ∷ other axis ∷ needed axis ∷ [] }
    ensures all { all_props lists ≡ half ∷ axis ∷ axis ∷ quarter ∷ half ∷ [] }
    ensures among { is_among (2 ∷ 5 ∷ []) 5 ≡ true }
    ensures not_among { is_among (2 ∷ 5 ∷ []) 3 ≡ false }
    ensures listed { listed (λ n. n) (2 ∷ 5 ∷ []) (1 ∷ 2 ∷ 3 ∷ 5 ∷ 2 ∷ []) ≡ 2 ∷ 5 ∷ 2 ∷ [] }
    ensures others { others (λ n. n) (2 ∷ 5 ∷ []) (1 ∷ 2 ∷ 3 ∷ 5 ∷ 2 ∷ []) ≡ 1 ∷ 3 ∷ [] }
    ensures of_others { props_of_others (λ (i : ℕ × List _). i.0) (λ i. i.1) (3 ∷ 7 ∷ []) items ≡ half ∷ axis ∷ [] }
{}

/// Holders are counted by type and body, and what is not held has none.
pub fn holders_are_told()
    ensures first { holders_in ((half, 2) ∷ (axis, 1) ∷ []) half ≡ 2 }
    ensures second { holders_in ((half, 2) ∷ (axis, 1) ∷ []) axis ≡ 1 }
    ensures none { holders_in ((half, 2) ∷ (axis, 1) ∷ []) quarter ≡ 0 }
{}

/// The place of a property among all, and what a table of three lists says.
pub fn a_table_is_made()
    ensures first { place_of lists 0 0 ≡ 0 }
    ensures last { place_of lists 2 2 ≡ 4 }
    ensures table { (t : StatedTable) → t.firsts.items ≡ (0, 0) ∷ (0, 1) ∷ (2, 1) ∷ [] → t.numbers.items ≡ 1 ∷ 2 ∷ 2 ∷ 3 ∷ 1 ∷ [] → t.starts.items ≡ 0 ∷ 2 ∷ 2 ∷ [] → IsTableOf lists t }
{}
