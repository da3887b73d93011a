//! Worked files, and what reading them gives. Each is the contract of a function that does nothing.

ghost use Rattle.std.specs.Prelude.{◌≡◌, replicate, None, Some, Ok};
ghost use Rattle.hf_base.specs.declared.fault.ReadRefusal.TheVariants.{BadDerived, BadProperty, BadRecord, BadSize, BadWidth, DanglingNeed};
ghost use Rattle.hf_base.specs.declared.fault.ReadRefusal.TheVariants.{DeriveCycle, External, LocCycle, Missing, Movie, NoFtyp, NoMeta, OutOfFile};
ghost use Rattle.hf_base.specs.declared.fault.ReadRefusal.TheVariants.{Short};
ghost use Rattle.hf_box.specs.Literals.{four};
ghost use Rattle.hf_worked.specs.WorkedStores.{every_feature, every_feature_wide, greatest_narrow_id, identity_item, least_wide_id, one_empty_item};
ghost use Rattle.hf_worked.specs.WorkedStores.{one_picture, overlays, photograph, photograph_bare, photograph_redacted, picture_with_exif};
ghost use Rattle.hf_worked.specs.WorkedStores.{picture_with_thumbnail, picture_with_xmp, properties_127, properties_128, properties_300};
ghost use Rattle.hf_worked.specs.WorkedStores.{sized_picture, turned_picture, two_alternatives, two_pictures, two_widths};
ghost use Rattle.hf_worked.specs.WorkedFiles.{file_of_one_empty_item, file_of_greatest_narrow_id, file_of_least_wide_id, file_of_two_widths};
ghost use Rattle.hf_worked.specs.WorkedFiles.{file_of_turned_picture, file_of_sized_picture, file_of_identity_item, file_of_overlays};
ghost use Rattle.hf_worked.specs.WorkedFiles.{file_of_two_alternatives, file_of_picture_with_exif, file_of_picture_with_xmp};
ghost use Rattle.hf_worked.specs.WorkedFiles.{file_of_picture_with_thumbnail, file_of_every_feature, file_of_every_feature_wide};
ghost use Rattle.hf_worked.specs.WorkedTables.{file_of_properties_127, file_of_properties_128, file_of_properties_300};
ghost use Rattle.hf_worked.specs.WorkedPhotograph.{file_of_photograph, file_of_photograph_redacted, file_of_photograph_bare};
ghost use Rattle.hf_read.specs.Cuts.{cut_faults};
ghost use Rattle.hf_read.specs.Reading.{fault_of, reading};
ghost use Rattle.hf_read.specs.WorkedFiles.{file_picture, file_pictures, file_sized, file_free_behind, file_empty_idat, file_long_sizes};
ghost use Rattle.hf_read.specs.WorkedFiles.{file_empty_item, file_hidden_text, file_wide, file_mixed, file_greatest, file_held_by_none, file_turned};
ghost use Rattle.hf_read.specs.WorkedFiles.{file_turned_back, file_properties_127, file_properties_128, file_properties_255, file_parted};
ghost use Rattle.hf_read.specs.WorkedFiles.{file_identity, file_needing, file_to_no_item, file_exif, file_xmp, file_thumbnail, file_alternatives};
ghost use Rattle.hf_read.specs.WorkedFiles.{file_tail, file_one_left, file_tail_of_less, file_photograph, file_other_exif, file_nothing};
ghost use Rattle.hf_read.specs.WorkedFiles.{file_no_meta, file_movie, file_too_long, file_handler_of_147, file_handler_of_146, file_cut_entry};
ghost use Rattle.hf_read.specs.WorkedFiles.{file_three_bytes, file_no_property, file_dangling, file_cycle, file_grid_of_47, file_circle};
ghost use Rattle.hf_read.specs.WorkedFiles.{file_circle_with_tail, file_past_the_end, file_elsewhere, file_far_past_the_end};
ghost use Rattle.hf_read.specs.WorkedStores.{store_empty_item, store_hidden_text, store_greatest, store_turned_back, store_parted, store_needing};
ghost use Rattle.hf_read.specs.WorkedStores.{store_tail, store_one_left, store_of_all};
ghost use Rattle.hf_read.specs.WorkedTables.{file_of_all};
ghost use Rattle.hf_read.specs.Denotes.{DenotesWithin};

/// Pictures, with boxes in any place.
pub fn pictures_are_read()
    ensures picture { reading file_picture ≡ Ok one_picture }
    ensures pictures { reading file_pictures ≡ Ok two_pictures }
    ensures sized { reading file_sized ≡ Ok sized_picture }
    ensures free_behind { reading file_free_behind ≡ Ok one_picture }
    ensures empty_idat { reading file_empty_idat ≡ Ok one_picture }
    ensures long_sizes { reading file_long_sizes ≡ Ok one_picture }
    ensures empty_item { reading file_empty_item ≡ Ok store_empty_item }
    ensures hidden_text { reading file_hidden_text ≡ Ok store_hidden_text }
{}

/// Ids of two bytes and of four.
pub fn wide_ids_are_read()
    ensures wide { reading file_wide ≡ Ok two_widths }
    ensures mixed { reading file_mixed ≡ Ok two_widths }
    ensures greatest { reading file_greatest ≡ Ok store_greatest }
{}

/// Properties, up to the most that an item may have.
pub fn properties_are_read()
    ensures held_by_none { reading file_held_by_none ≡ Ok one_picture }
    ensures turned { reading file_turned ≡ Ok turned_picture }
    ensures turned_back { reading file_turned_back ≡ Ok store_turned_back }
    ensures properties_127 { reading file_properties_127 ≡ Ok properties_127 }
    ensures properties_128 { reading file_properties_128 ≡ Ok properties_128 }
    ensures properties_255 { fault_of file_properties_255 ≡ None }
{}

/// Parts of items, and items in items.
pub fn places_are_read()
    ensures parted { reading file_parted ≡ Ok store_parted }
{}

/// References.
pub fn references_are_read()
    ensures identity { reading file_identity ≡ Ok identity_item }
    ensures needing { reading file_needing ≡ Ok store_needing }
    ensures to_no_item { reading file_to_no_item ≡ Ok two_pictures }
    ensures exif { reading file_exif ≡ Ok picture_with_exif }
    ensures xmp { reading file_xmp ≡ Ok picture_with_xmp }
    ensures thumbnail { reading file_thumbnail ≡ Ok picture_with_thumbnail }
{}

/// Groups.
pub fn groups_are_read()
    ensures alternatives { reading file_alternatives ≡ Ok two_alternatives }
    ensures tail { reading file_tail ≡ Ok store_tail }
    ensures one_left { reading file_one_left ≡ Ok store_one_left }
    ensures tail_of_less { reading file_tail_of_less ≡ Ok two_pictures }
{}

/// A photograph of a phone.
pub fn photographs_are_read()
    ensures photograph { reading file_photograph ≡ Ok photograph }
    ensures other_exif { fault_of file_other_exif ≡ None }
{}

/// Boxes of the file and of its meta.
pub fn first_boxes_are_refused()
    ensures nothing { fault_of file_nothing ≡ Some NoFtyp }
    ensures no_meta { fault_of file_no_meta ≡ Some NoMeta }
    ensures movie { fault_of file_movie ≡ Some (Movie 24) }
    ensures too_long { fault_of file_too_long ≡ Some (BadSize 24) }
    ensures handler_of_147 { fault_of file_handler_of_147 ≡ Some (BadSize 36) }
    ensures handler_of_146 { fault_of file_handler_of_146 ≡ Some (Missing (four "pitm")) }
{}

/// Entries on items, and what they name.
pub fn entries_are_refused()
    ensures cut_entry { fault_of file_cut_entry ≡ Some (BadRecord (four "infe") 97) }
    ensures three_bytes { fault_of file_three_bytes ≡ Some (BadWidth 150) }
    ensures no_property { fault_of file_no_property ≡ Some (BadProperty 1) }
    ensures dangling { fault_of file_dangling ≡ Some (DanglingNeed 2) }
    ensures cycle { fault_of file_cycle ≡ Some (DeriveCycle 1) }
    ensures grid_of_47 { fault_of file_grid_of_47 ≡ Some (BadDerived 49) }
{}

/// Places of bytes.
pub fn places_are_refused()
    ensures circle { fault_of file_circle ≡ Some (LocCycle 4) }
    ensures circle_with_tail { fault_of file_circle_with_tail ≡ Some (LocCycle 3) }
    ensures past_the_end { fault_of file_past_the_end ≡ Some (OutOfFile 1) }
    ensures elsewhere { fault_of file_elsewhere ≡ Some (External 1) }
    ensures far_past_the_end { fault_of file_far_past_the_end ≡ Some (OutOfFile 1) }
{}

/// The file of one picture, cut to each length.
pub fn cut_files_are_refused()
    ensures cut_0_to_0 { cut_faults 0 1 ≡ replicate 1 (Some NoFtyp) }
    ensures cut_1_to_7 { cut_faults 1 7 ≡ replicate 7 (Some (Short 0)) }
    ensures cut_8_to_23 { cut_faults 8 16 ≡ replicate 16 (Some (BadSize 0)) }
    ensures cut_24_to_24 { cut_faults 24 1 ≡ replicate 1 (Some NoMeta) }
    ensures cut_25_to_31 { cut_faults 25 7 ≡ replicate 7 (Some (Short 24)) }
    ensures cut_32_to_181 { cut_faults 32 150 ≡ replicate 150 (Some (BadSize 24)) }
    ensures cut_182_to_182 { cut_faults 182 1 ≡ replicate 1 (Some (OutOfFile 1)) }
    ensures cut_183_to_189 { cut_faults 183 7 ≡ replicate 7 (Some (Short 182)) }
    ensures cut_190_to_192 { cut_faults 190 3 ≡ replicate 3 (Some (BadSize 182)) }
{}

/// Canonical files give their stores back.
pub fn canonical_files_are_read()
    ensures one_empty_item { reading file_of_one_empty_item ≡ Ok one_empty_item }
    ensures greatest_narrow_id { reading file_of_greatest_narrow_id ≡ Ok greatest_narrow_id }
    ensures least_wide_id { reading file_of_least_wide_id ≡ Ok least_wide_id }
    ensures two_widths { reading file_of_two_widths ≡ Ok two_widths }
    ensures turned_picture { reading file_of_turned_picture ≡ Ok turned_picture }
    ensures sized_picture { reading file_of_sized_picture ≡ Ok sized_picture }
    ensures identity_item { reading file_of_identity_item ≡ Ok identity_item }
    ensures overlays { reading file_of_overlays ≡ Ok overlays }
    ensures two_alternatives { reading file_of_two_alternatives ≡ Ok two_alternatives }
    ensures picture_with_exif { reading file_of_picture_with_exif ≡ Ok picture_with_exif }
    ensures picture_with_xmp { reading file_of_picture_with_xmp ≡ Ok picture_with_xmp }
    ensures picture_with_thumbnail { reading file_of_picture_with_thumbnail ≡ Ok picture_with_thumbnail }
    ensures every_feature { reading file_of_every_feature ≡ Ok every_feature }
    ensures every_feature_wide { reading file_of_every_feature_wide ≡ Ok every_feature_wide }
    ensures properties_127 { reading file_of_properties_127 ≡ Ok properties_127 }
    ensures properties_128 { reading file_of_properties_128 ≡ Ok properties_128 }
    ensures properties_300 { reading file_of_properties_300 ≡ Ok properties_300 }
    ensures photograph { reading file_of_photograph ≡ Ok photograph }
    ensures photograph_redacted { reading file_of_photograph_redacted ≡ Ok photograph_redacted }
    ensures photograph_bare { reading file_of_photograph_bare ≡ Ok photograph_bare }
{}

/// A file with every kind of table.
pub fn tables_stand()
    ensures read { reading file_of_all ≡ Ok store_of_all }
    ensures denotes { DenotesWithin file_of_all store_of_all }
{}
