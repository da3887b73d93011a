//! Worked stores and their canonical files, byte by byte. Each is the contract of a function that does nothing.

ghost use Rattle.hf_worked.specs.WorkedStores.{one_picture, one_empty_item, greatest_narrow_id, least_wide_id, two_widths, turned_picture, sized_picture, properties_127, properties_128, properties_300, identity_item, overlays, two_alternatives, picture_with_exif, picture_with_xmp, picture_with_thumbnail, every_feature, every_feature_wide, photograph, photograph_redacted, photograph_bare};
ghost use Rattle.hf_plan.specs.Canon.{Canon};
ghost use Rattle.hf_plan.specs.Lay.{Lay};
ghost use Rattle.hf_plan.specs.LongOffsets.{long_file_of_every_feature, long_file_of_every_feature_wide, long_file_of_one_picture};
ghost use Rattle.hf_plan.specs.Large.{LongestNarrow, NoneFits, ShortestWide};
ghost use Rattle.hf_worked.specs.WorkedFiles.{file_of_one_picture, file_of_one_empty_item, file_of_greatest_narrow_id, file_of_least_wide_id, file_of_two_widths, file_of_turned_picture, file_of_sized_picture, file_of_identity_item, file_of_overlays, file_of_two_alternatives, file_of_picture_with_exif, file_of_picture_with_xmp, file_of_picture_with_thumbnail, file_of_every_feature, file_of_every_feature_wide};
ghost use Rattle.hf_worked.specs.WorkedPhotograph.{file_of_photograph, file_of_photograph_redacted, file_of_photograph_bare};
ghost use Rattle.hf_worked.specs.WorkedTables.{file_of_properties_127, file_of_properties_128, file_of_properties_300};

/// Ids, and items without bytes. Files of 193, 174, 193, 203 and 245 bytes.
pub fn ids_are_written()
    ensures picture { Canon one_picture file_of_one_picture }
    ensures no_bytes { Canon one_empty_item file_of_one_empty_item }
    ensures narrow { Canon greatest_narrow_id file_of_greatest_narrow_id }
    ensures wide { Canon least_wide_id file_of_least_wide_id }
    ensures both { Canon two_widths file_of_two_widths }
{}

/// Properties, up to numbers of seven bits and of fifteen. Files of 206, 217, 1,466, 1,604 and 3,924 bytes.
pub fn properties_are_written()
    ensures turned { Canon turned_picture file_of_turned_picture }
    ensures sized { Canon sized_picture file_of_sized_picture }
    ensures seven_bits { Canon properties_127 file_of_properties_127 }
    ensures one_more { Canon properties_128 file_of_properties_128 }
    ensures many { Canon properties_300 file_of_properties_300 }
{}

/// References, derived items and groups. Files of 240, 843, 267, 262, 278 and 259 bytes.
pub fn references_are_written()
    ensures identity { Canon identity_item file_of_identity_item }
    ensures small { Canon overlays file_of_overlays }
    ensures group { Canon two_alternatives file_of_two_alternatives }
    ensures exif { Canon picture_with_exif file_of_picture_with_exif }
    ensures xmp { Canon picture_with_xmp file_of_picture_with_xmp }
    ensures thumbnail { Canon picture_with_thumbnail file_of_picture_with_thumbnail }
{}

/// Every feature at once. Files of 1,121 and 1,266 bytes.
pub fn every_feature_is_written()
    ensures narrow { Canon every_feature file_of_every_feature }
    ensures wide { Canon every_feature_wide file_of_every_feature_wide }
{}

/// A photograph with 48 tiles, and what is left of it after both kinds of redaction. Files of 8,852, 8,672 and 8,384 bytes.
pub fn photograph_is_written()
    ensures whole { Canon photograph file_of_photograph }
    ensures redacted { Canon photograph_redacted file_of_photograph_redacted }
    ensures bare { Canon photograph_bare file_of_photograph_bare }
{}

/// Files about as long as four bytes can say, whatever the payload holds.
pub fn widths_change_at_4_gib()
    ensures narrow { LongestNarrow }
    ensures wide { ShortestWide }
    ensures without_bytes { NoneFits }
{}

/// Layouts with offsets of eight bytes: 201, 1,193 and 1,346 bytes.
pub fn long_offsets_are_written()
    ensures picture { Lay one_picture 8 long_file_of_one_picture }
    ensures narrow { Lay every_feature 8 long_file_of_every_feature }
    ensures wide { Lay every_feature_wide 8 long_file_of_every_feature_wide }
{}
