//! Stores that are not valid, each for one reason. Each is the contract of a function that does nothing.

ghost use Rattle.hf_worked.specs.LargeStores.{BodyIsKept, LinksAreKept, MetaIsKept};
ghost use Rattle.hf_store.specs.Valid.{Valid};
ghost use Rattle.hf_worked.specs.BadStores.{brands_of_five_bytes, content_without_mime, cycle, dangling_reference, empty_reference, encoding_without_mime, grid_cut_short, grid_of_long_sides_cut_short, grid_of_two_with_one, group_of_none, group_of_others, group_of_wide_flags, group_of_wide_id, group_of_wide_version, group_type_of_five_bytes, groups_of_one_id, id_of_five_bytes, identity_of_none, ids_of_one, iloc_reference, made_of_itself, major_of_five_bytes, mif1_across_brands, minor_of_five_bytes, overlay_cut_short, primary_of_none, properties_256, property_type_of_five_bytes, reference_type_of_five_bytes, references_fall, references_twice, type_of_five_bytes, type_of_three_bytes, uri_without_uri, without_mif1, zero_id, zero_in_content, zero_in_encoding, zero_in_name, zero_in_uri};

/// Stores without the brand `mif1` or with broken brands.
pub fn bad_brands_are_refused()
    ensures not_without_mif1 { Valid without_mif1 → ⊥ }
    ensures not_mif1_across_brands { Valid mif1_across_brands → ⊥ }
    ensures not_brands_of_five_bytes { Valid brands_of_five_bytes → ⊥ }
    ensures not_major_of_five_bytes { Valid major_of_five_bytes → ⊥ }
    ensures not_minor_of_five_bytes { Valid minor_of_five_bytes → ⊥ }
{}

/// Stores whose ids do not rise from 1 or take more than four bytes, or whose primary is no item.
pub fn bad_ids_are_refused()
    ensures not_zero_id { Valid zero_id → ⊥ }
    ensures not_ids_of_one { Valid ids_of_one → ⊥ }
    ensures not_primary_of_none { Valid primary_of_none → ⊥ }
    ensures not_id_of_five_bytes { Valid id_of_five_bytes → ⊥ }
{}

/// Stores with a broken item.
pub fn bad_items_are_refused()
    ensures not_zero_in_name { Valid zero_in_name → ⊥ }
    ensures not_content_without_mime { Valid content_without_mime → ⊥ }
    ensures not_uri_without_uri { Valid uri_without_uri → ⊥ }
    ensures not_properties_256 { Valid properties_256 → ⊥ }
    ensures not_type_of_five_bytes { Valid type_of_five_bytes → ⊥ }
    ensures not_type_of_three_bytes { Valid type_of_three_bytes → ⊥ }
    ensures not_zero_in_content { Valid zero_in_content → ⊥ }
    ensures not_zero_in_encoding { Valid zero_in_encoding → ⊥ }
    ensures not_zero_in_uri { Valid zero_in_uri → ⊥ }
    ensures not_encoding_without_mime { Valid encoding_without_mime → ⊥ }
    ensures not_property_type_of_five_bytes { Valid property_type_of_five_bytes → ⊥ }
{}

/// Stores with broken references.
pub fn bad_references_are_refused()
    ensures not_references_fall { Valid references_fall → ⊥ }
    ensures not_references_twice { Valid references_twice → ⊥ }
    ensures not_iloc_reference { Valid iloc_reference → ⊥ }
    ensures not_dangling_reference { Valid dangling_reference → ⊥ }
    ensures not_empty_reference { Valid empty_reference → ⊥ }
    ensures not_reference_type_of_five_bytes { Valid reference_type_of_five_bytes → ⊥ }
{}

/// Stores with a derived item that does not fit its inputs, or that is made of itself.
pub fn bad_derived_are_refused()
    ensures not_identity_of_none { Valid identity_of_none → ⊥ }
    ensures not_grid_of_two_with_one { Valid grid_of_two_with_one → ⊥ }
    ensures not_grid_cut_short { Valid grid_cut_short → ⊥ }
    ensures not_grid_of_long_sides_cut_short { Valid grid_of_long_sides_cut_short → ⊥ }
    ensures not_overlay_cut_short { Valid overlay_cut_short → ⊥ }
    ensures not_cycle { Valid cycle → ⊥ }
    ensures not_made_of_itself { Valid made_of_itself → ⊥ }
{}

/// Stores with broken groups.
pub fn bad_groups_are_refused()
    ensures not_groups_of_one_id { Valid groups_of_one_id → ⊥ }
    ensures not_group_of_none { Valid group_of_none → ⊥ }
    ensures not_group_of_others { Valid group_of_others → ⊥ }
    ensures not_group_of_wide_flags { Valid group_of_wide_flags → ⊥ }
    ensures not_group_type_of_five_bytes { Valid group_type_of_five_bytes → ⊥ }
    ensures not_group_of_wide_version { Valid group_of_wide_version → ⊥ }
    ensures not_group_of_wide_id { Valid group_of_wide_id → ⊥ }
{}

/// Stores at a limit are valid, and those past it are not.
pub fn limits_are_kept()
    ensures meta { MetaIsKept }
    ensures body { BodyIsKept }
    ensures links { LinksAreKept }
{}
