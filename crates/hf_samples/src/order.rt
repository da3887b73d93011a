//! Small files with one or two faults, and the one that is told of each; a clause for each fault that is told.
//! The answers come from an independent model of the format. Each theorem is the contract of a function that does nothing.

ghost use Rattle.hf_samples.specs.OrderOfItems.{not_picture_first, pitm_version_first, count_first, zero_id_first, protected_first, item_twice_first};
ghost use Rattle.hf_samples.specs.OrderOfItems.{no_primary_first};
ghost use Rattle.hf_samples.specs.OrderOfTables.{bad_width_first, iloc_cut_first, location_twice_first, iref_version_first, iref_cut_first};
ghost use Rattle.hf_samples.specs.OrderOfTables.{dangling_need_first};
ghost use Rattle.hf_samples.specs.OrderOfProperties.{ipco_twice_first, ipco_cut_first, ipma_version_first, ipma_cut_first, association_twice_first};
ghost use Rattle.hf_samples.specs.OrderOfProperties.{bad_property_first, group_large_first, group_cut_first, group_twice_first};
ghost use Rattle.hf_samples.specs.OrderOfPlaces.{external_first, bad_method_first, zero_length_first, no_idat_first, bad_index_first, loc_cycle_first};
ghost use Rattle.hf_samples.specs.OrderOfPlaces.{out_of_file_first, out_of_idat_first, out_of_item_first, bad_derived_first, derive_cycle_first};
ghost use Rattle.hf_samples.specs.OrderOfIds.{least_ids};
ghost use Rattle.hf_samples.specs.Samples.{AreRefused};

/// The handler, the primary item and the items.
pub fn items_come_in_order()
    ensures not_picture { AreRefused not_picture_first }
    ensures pitm_version { AreRefused pitm_version_first }
    ensures count { AreRefused count_first }
    ensures zero_id { AreRefused zero_id_first }
    ensures protected { AreRefused protected_first }
    ensures item_twice { AreRefused item_twice_first }
    ensures no_primary { AreRefused no_primary_first }
{}

/// The entries of `iloc` and the references.
pub fn tables_come_in_order()
    ensures bad_width { AreRefused bad_width_first }
    ensures iloc_cut { AreRefused iloc_cut_first }
    ensures location_twice { AreRefused location_twice_first }
    ensures iref_version { AreRefused iref_version_first }
    ensures iref_cut { AreRefused iref_cut_first }
    ensures dangling_need { AreRefused dangling_need_first }
{}

/// The properties, their associations and the groups.
pub fn properties_come_in_order()
    ensures ipco_twice { AreRefused ipco_twice_first }
    ensures ipco_cut { AreRefused ipco_cut_first }
    ensures ipma_version { AreRefused ipma_version_first }
    ensures ipma_cut { AreRefused ipma_cut_first }
    ensures association_twice { AreRefused association_twice_first }
    ensures bad_property { AreRefused bad_property_first }
    ensures group_large { AreRefused group_large_first }
    ensures group_cut { AreRefused group_cut_first }
    ensures group_twice { AreRefused group_twice_first }
{}

/// Places of bytes, and derived items.
pub fn places_come_in_order()
    ensures external { AreRefused external_first }
    ensures bad_method { AreRefused bad_method_first }
    ensures zero_length { AreRefused zero_length_first }
    ensures no_idat { AreRefused no_idat_first }
    ensures bad_index { AreRefused bad_index_first }
    ensures loc_cycle { AreRefused loc_cycle_first }
    ensures out_of_file { AreRefused out_of_file_first }
    ensures out_of_idat { AreRefused out_of_idat_first }
    ensures out_of_item { AreRefused out_of_item_first }
    ensures bad_derived { AreRefused bad_derived_first }
    ensures derive_cycle { AreRefused derive_cycle_first }
{}

/// Two items with the same fault: the least id is told.
pub fn least_ids_are_told()
    ensures least { AreRefused least_ids }
{}
