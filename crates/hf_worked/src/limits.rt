//! Stores at the limits of counts and widths are valid, and with one more they are not. Each is the contract of a
//! function that does nothing. What is past a width is refused in [`crate::broken`].

ghost use Rattle.hf_worked.specs.LimitStores.{greatest_group, greatest_id, greatest_minor, least_bytes, mif1_alone, mif1_major, mif1_second, mif1_third, BrandsAreKept, ItemsAreKept, KindsAreKept, PropsAreKept};
ghost use Rattle.hf_store.specs.Valid.{Valid};

/// `mif1` is the major brand, or any of the compatible ones.
pub fn mif1_is_any_of_the_brands()
    ensures second { Valid mif1_second }
    ensures third { Valid mif1_third }
    ensures major { Valid mif1_major }
    ensures alone { Valid mif1_alone }
{}

/// The greatest numbers that fit the widths of their fields, and any byte but zero in a string.
pub fn widths_are_kept()
    ensures minor { Valid greatest_minor }
    ensures id { Valid greatest_id }
    ensures group { Valid greatest_group }
    ensures bytes { Valid least_bytes }
{}

/// As many items, properties of an item, distinct properties and bytes of brands as a store may have.
pub fn counts_are_kept()
    ensures items { ItemsAreKept }
    ensures props { PropsAreKept }
    ensures kinds { KindsAreKept }
    ensures brands { BrandsAreKept }
{}
