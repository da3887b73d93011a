//! Worked stores: that they are valid, and how they are laid in a file with offsets of four bytes.
//! Each is the contract of a function that does nothing.

ghost use Rattle.std.specs.Prelude.{◌≡◌, length};
ghost use Rattle.hf_store.specs.Changes.{removed};
ghost use Rattle.hf_store.specs.Layout.{laid, own};
ghost use Rattle.hf_store.specs.Valid.{Valid};
ghost use Rattle.hf_worked.specs.WorkedFiles.{file_of_one_picture, file_of_one_empty_item, file_of_greatest_narrow_id, file_of_least_wide_id, file_of_two_widths, file_of_turned_picture, file_of_sized_picture, file_of_identity_item, file_of_overlays, file_of_two_alternatives, file_of_picture_with_exif, file_of_picture_with_xmp, file_of_picture_with_thumbnail, file_of_every_feature, file_of_every_feature_wide};
ghost use Rattle.hf_worked.specs.WorkedPhotograph.{file_of_photograph, file_of_photograph_redacted, file_of_photograph_bare};
ghost use Rattle.hf_worked.specs.WorkedTables.{file_of_properties_127, file_of_properties_128, file_of_properties_300};
ghost use Rattle.hf_worked.specs.WorkedStores.{one_picture, two_pictures, one_empty_item, greatest_narrow_id, least_wide_id, two_widths, turned_picture, sized_picture, properties_127, properties_128, properties_300, identity_item, overlays, two_alternatives, picture_with_exif, picture_with_xmp, picture_with_thumbnail, every_feature, every_feature_wide, photograph, photograph_redacted, photograph_bare};

/// Ids, and items without bytes.
pub fn ids_are_valid()
    ensures picture { Valid one_picture }
    ensures no_bytes { Valid one_empty_item }
    ensures narrow { Valid greatest_narrow_id }
    ensures wide { Valid least_wide_id }
    ensures both { Valid two_widths }
{}

/// Properties, up to numbers of seven bits and of fifteen.
pub fn properties_are_valid()
    ensures turned { Valid turned_picture }
    ensures sized { Valid sized_picture }
    ensures seven_bits { Valid properties_127 }
    ensures one_more { Valid properties_128 }
    ensures many { Valid properties_300 }
{}

/// References, derived items and groups.
pub fn references_are_valid()
    ensures identity { Valid identity_item }
    ensures small { Valid overlays }
    ensures group { Valid two_alternatives }
    ensures exif { Valid picture_with_exif }
    ensures xmp { Valid picture_with_xmp }
    ensures thumbnail { Valid picture_with_thumbnail }
{}

/// Every feature at once.
pub fn every_feature_is_valid()
    ensures narrow { Valid every_feature }
    ensures wide { Valid every_feature_wide }
{}

/// A photograph with 48 tiles, and what is left of it after both kinds of redaction.
pub fn photograph_is_valid()
    ensures whole { Valid photograph }
    ensures redacted { Valid photograph_redacted }
    ensures bare { Valid photograph_bare }
{}

/// Ids, and items without bytes. Files of 193, 174, 193, 203 and 245 bytes.
pub fn ids_are_laid()
    ensures picture { laid own 4 193 one_picture ≡ file_of_one_picture }
    ensures no_bytes { laid own 4 174 one_empty_item ≡ file_of_one_empty_item }
    ensures narrow { laid own 4 193 greatest_narrow_id ≡ file_of_greatest_narrow_id }
    ensures wide { laid own 4 203 least_wide_id ≡ file_of_least_wide_id }
    ensures both { laid own 4 245 two_widths ≡ file_of_two_widths }
{}

/// Properties, up to numbers of seven bits and of fifteen. Files of 206, 217, 1,466, 1,604 and 3,924 bytes.
pub fn properties_are_laid()
    ensures turned { laid own 4 206 turned_picture ≡ file_of_turned_picture }
    ensures sized { laid own 4 217 sized_picture ≡ file_of_sized_picture }
    ensures seven_bits { laid own 4 1466 properties_127 ≡ file_of_properties_127 }
    ensures one_more { laid own 4 1604 properties_128 ≡ file_of_properties_128 }
    ensures many { laid own 4 3924 properties_300 ≡ file_of_properties_300 }
{}

/// References, derived items and groups. Files of 240, 843, 267, 262, 278 and 259 bytes.
pub fn references_are_laid()
    ensures identity { laid own 4 240 identity_item ≡ file_of_identity_item }
    ensures small { laid own 4 843 overlays ≡ file_of_overlays }
    ensures group { laid own 4 267 two_alternatives ≡ file_of_two_alternatives }
    ensures exif { laid own 4 262 picture_with_exif ≡ file_of_picture_with_exif }
    ensures xmp { laid own 4 278 picture_with_xmp ≡ file_of_picture_with_xmp }
    ensures thumbnail { laid own 4 259 picture_with_thumbnail ≡ file_of_picture_with_thumbnail }
{}

/// Every feature at once. Files of 1,121 and 1,266 bytes.
pub fn every_feature_is_laid()
    ensures narrow { laid own 4 1121 every_feature ≡ file_of_every_feature }
    ensures wide { laid own 4 1266 every_feature_wide ≡ file_of_every_feature_wide }
{}

/// A photograph with 48 tiles, and what is left of it after both kinds of redaction. Files of 8,852, 8,672 and 8,384 bytes.
pub fn photograph_is_laid()
    ensures whole { laid own 4 8852 photograph ≡ file_of_photograph }
    ensures redacted { laid own 4 8672 photograph_redacted ≡ file_of_photograph_redacted }
    ensures bare { laid own 4 8384 photograph_bare ≡ file_of_photograph_bare }
{}

/// Two pictures make a file of 231 bytes, and without the second one the store of one picture.
pub fn second_picture_is_removed()
    ensures long { length (laid own 4 231 two_pictures) ≡ 231 }
    ensures removed { removed 2 two_pictures ≡ one_picture }
{}
