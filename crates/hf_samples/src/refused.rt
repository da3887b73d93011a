//! Small files that are refused, and the fault that is told of each; a clause for each kind of fault.
//! The answers come from an independent model of the format. Each theorem is the contract of a function that does nothing.

ghost use Rattle.hf_samples.specs.RefusedBoxes.{short_files, bad_size_files, open_size_files, no_ftyp_files, not_mif1_files, movie_files, no_meta_files};
ghost use Rattle.hf_samples.specs.RefusedBoxes.{double_files, protection_box_files, xml_files, missing_files};
ghost use Rattle.hf_samples.specs.RefusedRecords.{bad_record_files, bad_version_files, too_large_files, bad_width_files};
ghost use Rattle.hf_samples.specs.RefusedItems.{not_picture_files, zero_id_files, protected_files, double_item_files, no_primary_files, double_location_files};
ghost use Rattle.hf_samples.specs.RefusedItems.{dangling_need_files, double_assoc_files, bad_property_files, double_group_files};
ghost use Rattle.hf_samples.specs.RefusedPlaces.{external_files, bad_method_files, zero_length_files, no_idat_files, bad_index_files, loc_cycle_files};
ghost use Rattle.hf_samples.specs.RefusedPlaces.{out_of_file_files, out_of_idat_files, out_of_item_files, bad_derived_files, derive_cycle_files};
ghost use Rattle.hf_samples.specs.Samples.{AreRefused};

/// Boxes of the file, and of its `meta`.
pub fn boxes_are_refused()
    ensures short { AreRefused short_files }
    ensures bad_size { AreRefused bad_size_files }
    ensures open_size { AreRefused open_size_files }
    ensures no_ftyp { AreRefused no_ftyp_files }
    ensures not_mif1 { AreRefused not_mif1_files }
    ensures movie { AreRefused movie_files }
    ensures no_meta { AreRefused no_meta_files }
    ensures double { AreRefused double_files }
    ensures protection_box { AreRefused protection_box_files }
    ensures xml { AreRefused xml_files }
    ensures missing { AreRefused missing_files }
{}

/// Fields, versions, counts and widths in boxes.
pub fn records_are_refused()
    ensures bad_record { AreRefused bad_record_files }
    ensures bad_version { AreRefused bad_version_files }
    ensures too_large { AreRefused too_large_files }
    ensures bad_width { AreRefused bad_width_files }
{}

/// The handler, and ids that are told twice or name nothing.
pub fn items_are_refused()
    ensures not_picture { AreRefused not_picture_files }
    ensures zero_id { AreRefused zero_id_files }
    ensures protected { AreRefused protected_files }
    ensures double_item { AreRefused double_item_files }
    ensures no_primary { AreRefused no_primary_files }
    ensures double_location { AreRefused double_location_files }
    ensures dangling_need { AreRefused dangling_need_files }
    ensures double_assoc { AreRefused double_assoc_files }
    ensures bad_property { AreRefused bad_property_files }
    ensures double_group { AreRefused double_group_files }
{}

/// Places of bytes, and derived items.
pub fn places_are_refused()
    ensures external { AreRefused external_files }
    ensures bad_method { AreRefused bad_method_files }
    ensures zero_length { AreRefused zero_length_files }
    ensures no_idat { AreRefused no_idat_files }
    ensures bad_index { AreRefused bad_index_files }
    ensures loc_cycle { AreRefused loc_cycle_files }
    ensures out_of_file { AreRefused out_of_file_files }
    ensures out_of_idat { AreRefused out_of_idat_files }
    ensures out_of_item { AreRefused out_of_item_files }
    ensures bad_derived { AreRefused bad_derived_files }
    ensures derive_cycle { AreRefused derive_cycle_files }
{}
