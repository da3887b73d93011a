//! Stores with a number that its field cannot say have no file. Each is the contract of a function that does nothing.

ghost use Rattle.hf_worked.specs.BadStores.{group_of_wide_flags, group_of_wide_id, group_of_wide_version, id_of_five_bytes, minor_of_five_bytes, properties_256};
ghost use Rattle.hf_plan.specs.Unwritten.{wide_entity, wide_primary, wide_reference, EntitiesAreCounted, HasNoFile, ItemsAreCounted, LengthsFit, PropertiesAreNumbered, ReferencesAreCounted};

/// Numbers that take a byte more than their field has.
pub fn fields_are_kept()
    ensures minor { HasNoFile minor_of_five_bytes }
    ensures id { HasNoFile id_of_five_bytes }
    ensures primary { HasNoFile wide_primary }
    ensures reference { HasNoFile wide_reference }
    ensures version { HasNoFile group_of_wide_version }
    ensures flags { HasNoFile group_of_wide_flags }
    ensures group_id { HasNoFile group_of_wide_id }
    ensures entity { HasNoFile wide_entity }
{}

/// Counts and lengths that take a byte more than their field has, and the number of a property that takes a bit more.
pub fn counts_are_kept()
    ensures props { HasNoFile properties_256 }
    ensures items { ItemsAreCounted }
    ensures references { ReferencesAreCounted }
    ensures entities { EntitiesAreCounted }
    ensures numbers { PropertiesAreNumbered }
    ensures lengths { LengthsFit }
{}
