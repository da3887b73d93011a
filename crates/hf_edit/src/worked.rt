//! Worked edits: what each makes of a store, and why it is refused. Each is the contract of a function that does nothing.

ghost use Rattle.std.specs.Prelude.{◌≡◌, ◌-◌, ◌^◌, None, Some, [], ◌∷◌, ◌++◌, codes, replicate};
ghost use Rattle.hf_box.specs.Literals.{four, hex_of};
ghost use Rattle.hf_worked.specs.BadStores.{primary_of_none};
ghost use Rattle.hf_worked.specs.WorkedChanges.{described_pair, pair_shown, second_in_all, second_gone};
ghost use Rattle.hf_worked.specs.WorkedStores.{every_feature, four_by_four, identity_item, one_picture, optional, photograph, picture_with_exif, picture_with_thumbnail, picture_with_xmp, turned_picture, two_alternatives, two_pictures};
ghost use Rattle.hf_store.specs.declared.reason.Reason.TheVariants.{BadAxis, BadTurn, DonorDerived, IdsFull, IsEssential, IsHidden, IsMinor, IsPrimary, Needed, NoItem, NoProperty, NoSize, NotImage, OutsidePicture, PropsFull};
ghost use Rattle.hf_edit.specs.Additions.{next_id_of};
ghost use Rattle.hf_edit.specs.Edits.{AddExif, AddXmp, Crop, Drop, Hide, Mirror, Primary, Remove, Rotate, Show, Thumb, step, why};
ghost use Rattle.hf_edit.specs.Pictures.{picture_size_of};
ghost use Rattle.hf_edit.specs.Worked.{clap, derived, four_by_two, greatest_beside, group_of_id, hidden_metadata, hidden_second, holding, imir, irot, ispe, metadata_thumbnail, optional_turn, pair_unsized, pair_with, pair_with_exif, pair_with_xmp, photograph_with, picture, second_as_thumbnail, second_primary, second_with_thumbnail, three_by_five, turn};
ghost use Rattle.hf_edit.specs.WorkedLimits.{AdditionsFillMeta, AdditionsFitMeta, BodyBeforeMeta, BodyFits, BodyIsFull, IdsBeforeBody, ItemsAreFull, ItemsFit, KindsAreFull, KindsBeforeItems, KindsFit, MetaFits, MetaIsFull, PropsBeforeKinds};

/// An item goes unless it is not there, is the primary, or is needed by another one; the first of
/// these reasons is given.
pub fn items_are_removed()
    ensures no_item { why one_picture (Remove 9) ≡ Some NoItem }
    ensures no_item_as_primary { why primary_of_none (Remove 2) ≡ Some NoItem }
    ensures primary { why photograph (Remove 49) ≡ Some IsPrimary }
    ensures primary_that_is_needed { why identity_item (Remove 1) ≡ Some IsPrimary }
    ensures tile { why photograph (Remove 7) ≡ Some (Needed 49) }
    ensures metadata { why photograph (Remove 51) ≡ None }
    ensures picture { step two_pictures (Remove 2) ≡ one_picture }
    ensures links { step second_in_all (Remove 2) ≡ second_gone }
{}

/// A picture becomes the primary where it is shown, and no thumbnail or auxiliary picture; the first
/// reason is given.
pub fn pictures_become_the_primary()
    ensures no_item { why photograph (Primary 53) ≡ Some NoItem }
    ensures exif { why photograph (Primary 51) ≡ Some NotImage }
    ensures mime { why photograph (Primary 52) ≡ Some NotImage }
    ensures uri { why every_feature (Primary 8) ≡ Some NotImage }
    ensures hidden_metadata { why hidden_metadata (Primary 3) ≡ Some NotImage }
    ensures tile { why photograph (Primary 7) ≡ Some IsHidden }
    ensures hidden_minor { why described_pair (Primary 2) ≡ Some IsHidden }
    ensures thumbnail { why photograph (Primary 50) ≡ Some IsMinor }
    ensures auxiliary { why pair_shown (Primary 2) ≡ Some IsMinor }
    ensures grid { why photograph (Primary 49) ≡ None }
    ensures picture { why two_pictures (Primary 2) ≡ None }
    ensures second { step two_pictures (Primary 2) ≡ second_primary }
    ensures again { step photograph (Primary 49) ≡ photograph }
{}

/// Every item but the primary is hidden, metadata and hidden items too, and every item is shown.
pub fn items_are_hidden_and_shown()
    ensures hide_no_item { why photograph (Hide 53) ≡ Some NoItem }
    ensures hide_no_item_as_primary { why primary_of_none (Hide 2) ≡ Some NoItem }
    ensures hide_primary { why photograph (Hide 49) ≡ Some IsPrimary }
    ensures hide_metadata { why described_pair (Hide 3) ≡ None }
    ensures hide_again { why described_pair (Hide 2) ≡ None }
    ensures metadata_hidden { step described_pair (Hide 3) ≡ hidden_metadata }
    ensures hidden { step pair_shown (Hide 2) ≡ described_pair }
    ensures hidden_again { step described_pair (Hide 2) ≡ described_pair }
    ensures show_no_item { why photograph (Show 53) ≡ Some NoItem }
    ensures show_primary { why photograph (Show 49) ≡ None }
    ensures show_metadata { why hidden_metadata (Show 3) ≡ None }
    ensures shown { step described_pair (Show 2) ≡ pair_shown }
    ensures shown_again { step photograph (Show 49) ≡ photograph }
    ensures hidden_then_shown { step (step pair_shown (Hide 2)) (Show 2) ≡ pair_shown }
{}

/// All properties of a type go from an item, of metadata and of the primary too, unless there is
/// none or one of them is essential; the others stay in their order.
pub fn properties_are_dropped()
    ensures no_item { why described_pair (Drop 9 (four "ispe")) ≡ Some NoItem }
    ensures none { why described_pair (Drop 2 (four "irot")) ≡ Some NoProperty }
    ensures none_of_metadata { why photograph (Drop 51 (four "ispe")) ≡ Some NoProperty }
    ensures essential { why described_pair (Drop 1 (four "irot")) ≡ Some IsEssential }
    ensures one_essential { why (holding (optional_turn ∷ turn ∷ [])) (Drop 1 (four "irot")) ≡ Some IsEssential }
    ensures other_essential { why (holding (turn ∷ four_by_four ∷ [])) (Drop 1 (four "ispe")) ≡ None }
    ensures metadata { why second_in_all (Drop 4 (four "ispe")) ≡ None }
    ensures size { step described_pair (Drop 2 (four "ispe")) ≡ pair_unsized }
    ensures all { step (holding (optional_turn ∷ four_by_four ∷ optional_turn ∷ [])) (Drop 1 (four "irot")) ≡ holding (four_by_four ∷ []) }
    ensures others { step (holding (four_by_four ∷ turn ∷ optional_turn ∷ four_by_four ∷ [])) (Drop 1 (four "ispe")) ≡ holding (turn ∷ optional_turn ∷ []) }
{}

/// The sides of a picture are those of its first size, and each window after it sets them, and each odd
/// turn swaps them, in order; there are none where one of these properties says nothing.
pub fn pictures_have_sizes()
    ensures none { picture_size_of (picture []) ≡ None }
    ensures turn_alone { picture_size_of (picture (turn ∷ [])) ≡ None }
    ensures window_alone { picture_size_of (picture (three_by_five ∷ [])) ≡ None }
    ensures size { picture_size_of (picture (four_by_two ∷ [])) ≡ Some (4, 2) }
    ensures first_size { picture_size_of (picture (four_by_two ∷ four_by_four ∷ [])) ≡ Some (4, 2) }
    ensures first_size_short { picture_size_of (picture (ispe "00000000 00000004 000002" ∷ four_by_two ∷ [])) ≡ None }
    ensures second_size_short { picture_size_of (picture (four_by_two ∷ ispe "00000000 00000004 000002" ∷ [])) ≡ Some (4, 2) }
    ensures other_property { picture_size_of (picture (four_by_two ∷ imir "01" ∷ optional "prop" [] ∷ [])) ≡ Some (4, 2) }
    ensures no_turn { picture_size_of (picture (four_by_two ∷ irot "00" ∷ [])) ≡ Some (4, 2) }
    ensures one_turn { picture_size_of (picture (four_by_two ∷ turn ∷ [])) ≡ Some (2, 4) }
    ensures two_turns { picture_size_of (picture (four_by_two ∷ optional_turn ∷ [])) ≡ Some (4, 2) }
    ensures three_turns { picture_size_of (picture (four_by_two ∷ irot "ff" ∷ [])) ≡ Some (2, 4) }
    ensures turn_before { picture_size_of (picture (turn ∷ four_by_two ∷ [])) ≡ Some (2, 4) }
    ensures turn_twice { picture_size_of (picture (four_by_two ∷ turn ∷ irot "03" ∷ [])) ≡ Some (4, 2) }
    ensures turn_long { picture_size_of (picture (four_by_two ∷ irot "0101" ∷ [])) ≡ None }
    ensures turn_long_before { picture_size_of (picture (irot "" ∷ four_by_two ∷ [])) ≡ None }
    ensures window { picture_size_of (picture (four_by_two ∷ three_by_five ∷ [])) ≡ Some (3, 5) }
    ensures window_before { picture_size_of (picture (three_by_five ∷ four_by_two ∷ [])) ≡ Some (3, 5) }
    ensures last_window { picture_size_of (picture (four_by_two ∷ three_by_five ∷ clap "0000000c 00000006 00000007 00000001 00000000 00000000 00000000 00000000" ∷ [])) ≡ Some (2, 7) }
    ensures window_then_turn { picture_size_of (picture (four_by_two ∷ three_by_five ∷ turn ∷ [])) ≡ Some (5, 3) }
    ensures turn_then_window { picture_size_of (picture (four_by_two ∷ turn ∷ three_by_five ∷ [])) ≡ Some (3, 5) }
    ensures window_short { picture_size_of (picture (four_by_two ∷ clap "00000003 00000001 00000005 00000001 00000000 00000001 00000000 000001" ∷ [])) ≡ None }
    ensures window_of_part { picture_size_of (picture (four_by_two ∷ clap "00000003 00000002 00000005 00000001 00000000 00000001 00000000 00000001" ∷ three_by_five ∷ [])) ≡ None }
    ensures no_width { picture_size_of (picture (ispe "00000000 00000000 00000002" ∷ [])) ≡ None }
    ensures no_height { picture_size_of (picture (ispe "00000000 00000004 00000000" ∷ [])) ≡ None }
    ensures no_width_then_window { picture_size_of (picture (ispe "00000000 00000000 00000002" ∷ three_by_five ∷ [])) ≡ Some (3, 5) }
    ensures widest { picture_size_of (picture (ispe "00000000 7fffffff 00000001" ∷ [])) ≡ Some (2147483647, 1) }
    ensures too_wide { picture_size_of (picture (ispe "00000000 80000000 00000001" ∷ [])) ≡ None }
    ensures highest { picture_size_of (picture (ispe "00000000 00000001 7fffffff" ∷ [])) ≡ Some (1, 2147483647) }
    ensures too_high { picture_size_of (picture (ispe "00000000 00000001 80000000" ∷ [])) ≡ None }
    ensures window_too_wide { picture_size_of (picture (four_by_two ∷ clap "80000000 00000001 00000005 00000001 00000000 00000001 00000000 00000001" ∷ [])) ≡ None }
{}

/// A turn is one more property, or is added to the last one, whatever its mark, and a whole one goes; it is refused for
/// the first reason.
pub fn pictures_are_turned()
    ensures no_item { why photograph (Rotate 53 1) ≡ Some NoItem }
    ensures no_item_turned_wrongly { why photograph (Rotate 53 4) ≡ Some NoItem }
    ensures metadata { why photograph (Rotate 51 1) ≡ Some NotImage }
    ensures metadata_turned_wrongly { why photograph (Rotate 52 4) ≡ Some NotImage }
    ensures no_quarter { why one_picture (Rotate 1 0) ≡ Some BadTurn }
    ensures four_quarters { why one_picture (Rotate 1 4) ≡ Some BadTurn }
    ensures wrong_turn_of_full { why (holding (replicate 255 four_by_four)) (Rotate 1 4) ≡ Some BadTurn }
    ensures full { why (holding (replicate 255 four_by_four)) (Rotate 1 1) ≡ Some PropsFull }
    ensures full_and_turned { why (holding (replicate 254 four_by_four ++ turn ∷ [])) (Rotate 1 1) ≡ None }
    ensures nearly_full { why (holding (replicate 254 four_by_four)) (Rotate 1 1) ≡ None }
    ensures one { why one_picture (Rotate 1 1) ≡ None }
    ensures three { why one_picture (Rotate 1 3) ≡ None }
    ensures hidden_minor { why described_pair (Rotate 2 2) ≡ None }
    ensures turned { step one_picture (Rotate 1 1) ≡ turned_picture }
    ensures turned_by_three { step one_picture (Rotate 1 3) ≡ holding (irot "03" ∷ []) }
    ensures turned_more { step turned_picture (Rotate 1 2) ≡ holding (irot "03" ∷ []) }
    ensures turned_back { step (holding (irot "03" ∷ [])) (Rotate 1 1) ≡ one_picture }
    ensures turned_past { step (holding (irot "03" ∷ [])) (Rotate 1 2) ≡ turned_picture }
    ensures no_turn_before { step (holding (irot "00" ∷ [])) (Rotate 1 1) ≡ turned_picture }
    ensures low_bits { step (holding (irot "ff" ∷ [])) (Rotate 1 2) ≡ turned_picture }
    ensures optional_before { step (holding (optional_turn ∷ [])) (Rotate 1 1) ≡ holding (irot "03" ∷ []) }
    ensures two_bytes_before { step (holding (irot "0101" ∷ [])) (Rotate 1 1) ≡ holding (irot "0101" ∷ turn ∷ []) }
    ensures other_last { step (holding (turn ∷ four_by_four ∷ [])) (Rotate 1 1) ≡ holding (turn ∷ four_by_four ∷ turn ∷ []) }
    ensures mirror_last { step (holding (imir "01" ∷ [])) (Rotate 1 1) ≡ holding (imir "01" ∷ turn ∷ []) }
    ensures others_before { step (holding (turn ∷ four_by_four ∷ turn ∷ [])) (Rotate 1 1) ≡ holding (turn ∷ four_by_four ∷ irot "02" ∷ []) }
    ensures others_stay { step (holding (turn ∷ four_by_four ∷ turn ∷ [])) (Rotate 1 3) ≡ holding (turn ∷ four_by_four ∷ []) }
    ensures second { step described_pair (Rotate 2 1) ≡ pair_with (four_by_four ∷ turn ∷ []) }
{}

/// A mirror is one more property, or takes the last one away where that is at the same axis; it is refused for the first
/// reason.
pub fn pictures_are_mirrored()
    ensures no_item { why photograph (Mirror 53 2) ≡ Some NoItem }
    ensures metadata { why photograph (Mirror 51 0) ≡ Some NotImage }
    ensures metadata_at_no_axis { why photograph (Mirror 52 2) ≡ Some NotImage }
    ensures no_axis { why one_picture (Mirror 1 2) ≡ Some BadAxis }
    ensures no_axis_of_full { why (holding (replicate 255 four_by_four)) (Mirror 1 2) ≡ Some BadAxis }
    ensures full { why (holding (replicate 255 four_by_four)) (Mirror 1 0) ≡ Some PropsFull }
    ensures full_and_other { why (holding (replicate 254 four_by_four ++ imir "00" ∷ [])) (Mirror 1 1) ≡ Some PropsFull }
    ensures full_and_mirrored { why (holding (replicate 254 four_by_four ++ imir "00" ∷ [])) (Mirror 1 0) ≡ None }
    ensures first_axis { why one_picture (Mirror 1 0) ≡ None }
    ensures second_axis { why one_picture (Mirror 1 1) ≡ None }
    ensures hidden_minor { why described_pair (Mirror 2 1) ≡ None }
    ensures mirrored { step one_picture (Mirror 1 0) ≡ holding (imir "00" ∷ []) }
    ensures mirrored_at_second { step one_picture (Mirror 1 1) ≡ holding (imir "01" ∷ []) }
    ensures mirrored_twice { step (step one_picture (Mirror 1 0)) (Mirror 1 0) ≡ one_picture }
    ensures mirrored_at_both { step (holding (imir "00" ∷ [])) (Mirror 1 1) ≡ holding (imir "00" ∷ imir "01" ∷ []) }
    ensures low_bit { step (holding (imir "fe" ∷ [])) (Mirror 1 0) ≡ one_picture }
    ensures optional_before { step (holding (optional "imir" (hex_of "01") ∷ [])) (Mirror 1 1) ≡ one_picture }
    ensures two_bytes_before { step (holding (imir "0000" ∷ [])) (Mirror 1 0) ≡ holding (imir "0000" ∷ imir "00" ∷ []) }
    ensures other_last { step (holding (imir "00" ∷ turn ∷ [])) (Mirror 1 0) ≡ holding (imir "00" ∷ turn ∷ imir "00" ∷ []) }
    ensures others_stay { step (holding (imir "01" ∷ turn ∷ imir "01" ∷ [])) (Mirror 1 1) ≡ holding (imir "01" ∷ turn ∷ []) }
    ensures second { step described_pair (Mirror 2 1) ≡ pair_with (four_by_four ∷ imir "01" ∷ []) }
{}

/// A window is one more property, in the picture as the properties before it leave it; it is refused for the first
/// reason.
pub fn pictures_are_cropped()
    ensures no_item { why photograph (Crop 53 0 0 1 1) ≡ Some NoItem }
    ensures metadata { why photograph (Crop 51 0 0 1 1) ≡ Some NotImage }
    ensures no_size { why one_picture (Crop 1 0 0 1 1) ≡ Some NoSize }
    ensures no_size_and_no_width { why turned_picture (Crop 1 0 0 0 1) ≡ Some NoSize }
    ensures no_width { why (holding (four_by_two ∷ [])) (Crop 1 0 0 0 1) ≡ Some OutsidePicture }
    ensures no_height { why (holding (four_by_two ∷ [])) (Crop 1 0 0 1 0) ≡ Some OutsidePicture }
    ensures past_width { why photograph (Crop 49 2033 0 2000 1000) ≡ Some OutsidePicture }
    ensures past_height { why photograph (Crop 49 0 2025 2000 1000) ≡ Some OutsidePicture }
    ensures past_turned_width { why (holding (four_by_two ∷ turn ∷ [])) (Crop 1 0 0 4 2) ≡ Some OutsidePicture }
    ensures outside_full { why (holding (replicate 255 four_by_four)) (Crop 1 0 0 5 1) ≡ Some OutsidePicture }
    ensures full { why (holding (replicate 255 four_by_four)) (Crop 1 0 0 4 4) ≡ Some PropsFull }
    ensures all { why (holding (four_by_two ∷ [])) (Crop 1 0 0 4 2) ≡ None }
    ensures corner { why (holding (four_by_two ∷ turn ∷ [])) (Crop 1 1 3 1 1) ≡ None }
    ensures hidden_minor { why described_pair (Crop 2 0 0 1 1) ≡ None }
    ensures grid { why photograph (Crop 49 2032 2024 2000 1000) ≡ None }
    ensures top_left { step photograph (Crop 49 0 0 2000 1000)
        ≡ photograph_with (clap "000007d0 00000001 000003e8 00000001 fffff810 00000002 fffff818 00000002") }
    ensures middle { step described_pair (Crop 2 1 1 2 3)
        ≡ pair_with (four_by_four ∷ clap "00000002 00000001 00000003 00000001 00000000 00000002 00000001 00000002" ∷ []) }
    ensures turned { step (holding (four_by_two ∷ turn ∷ [])) (Crop 1 1 0 1 3)
        ≡ holding (four_by_two ∷ turn ∷ clap "00000001 00000001 00000003 00000001 00000001 00000002 ffffffff 00000002" ∷ []) }
    ensures cropped_again { step (holding (four_by_four ∷ three_by_five ∷ [])) (Crop 1 0 0 1 5)
        ≡ holding (four_by_four ∷ three_by_five ∷ clap "00000001 00000001 00000005 00000001 fffffffe 00000002 00000000 00000002" ∷ []) }
{}

/// The next id is one more than the greatest of an item or a group, if one is left.
pub fn ids_come_next()
    ensures picture { next_id_of one_picture ≡ Some 2 }
    ensures photograph { next_id_of photograph ≡ Some 53 }
    ensures group { next_id_of two_alternatives ≡ Some 11 }
    ensures group_below { next_id_of (group_of_id 2) ≡ Some 4 }
    ensures last_group { next_id_of second_in_all ≡ Some 17 }
    ensures last_id { next_id_of (group_of_id (256 ^ 4 - 2)) ≡ Some (256 ^ 4 - 1) }
    ensures none_after_item { next_id_of greatest_beside ≡ None }
    ensures none_after_group { next_id_of (group_of_id (256 ^ 4 - 1)) ≡ None }
{}

/// Metadata comes that describes a picture, hidden or minor ones too; it is refused for the first reason.
pub fn metadata_is_added()
    ensures no_item { why photograph (AddExif 53 (codes "II")) ≡ Some NoItem }
    ensures no_item_xmp { why greatest_beside (AddXmp 2 (codes "II")) ≡ Some NoItem }
    ensures metadata { why photograph (AddExif 52 (codes "II")) ≡ Some NotImage }
    ensures metadata_xmp { why photograph (AddXmp 51 (codes "II")) ≡ Some NotImage }
    ensures metadata_without_ids { why greatest_beside (AddExif (256 ^ 4 - 1) (codes "II")) ≡ Some NotImage }
    ensures no_id { why greatest_beside (AddExif 1 (codes "II")) ≡ Some IdsFull }
    ensures no_id_xmp { why greatest_beside (AddXmp 1 (codes "II")) ≡ Some IdsFull }
    ensures no_id_past_group { why (group_of_id (256 ^ 4 - 1)) (AddExif 3 (codes "II")) ≡ Some IdsFull }
    ensures picture { why one_picture (AddExif 1 (codes "II")) ≡ None }
    ensures picture_xmp { why one_picture (AddXmp 1 (codes "II")) ≡ None }
    ensures hidden_minor { why described_pair (AddExif 2 (hex_of "4d4d")) ≡ None }
    ensures exif { step one_picture (AddExif 1 (codes "II")) ≡ picture_with_exif }
    ensures xmp { step one_picture (AddXmp 1 (codes "II")) ≡ picture_with_xmp }
    ensures second_exif { step described_pair (AddExif 2 (hex_of "4d4d")) ≡ pair_with_exif }
    ensures second_xmp { step described_pair (AddXmp 2 (codes "<x/>")) ≡ pair_with_xmp }
{}

/// The primary item of another store comes as a thumbnail of a picture, shown and without a name, unless it needs other
/// items; it is refused for the first reason.
pub fn thumbnails_are_added()
    ensures no_item { why one_picture (Thumb 9 photograph) ≡ Some NoItem }
    ensures metadata { why picture_with_exif (Thumb 2 one_picture) ≡ Some NotImage }
    ensures metadata_as_thumbnail { why one_picture (Thumb 1 metadata_thumbnail) ≡ Some NotImage }
    ensures metadata_of_minor { why picture_with_thumbnail (Thumb 2 metadata_thumbnail) ≡ Some NotImage }
    ensures minor_metadata { why metadata_thumbnail (Thumb 2 one_picture) ≡ Some NotImage }
    ensures thumbnail { why picture_with_thumbnail (Thumb 2 one_picture) ≡ Some IsMinor }
    ensures auxiliary { why pair_shown (Thumb 2 one_picture) ≡ Some IsMinor }
    ensures derived_of_minor { why picture_with_thumbnail (Thumb 2 photograph) ≡ Some IsMinor }
    ensures derived { why one_picture (Thumb 1 photograph) ≡ Some DonorDerived }
    ensures derived_without_ids { why greatest_beside (Thumb 1 photograph) ≡ Some DonorDerived }
    ensures dimg { why one_picture (Thumb 1 (derived "hvc1" ("dimg" ∷ []))) ≡ Some DonorDerived }
    ensures tbas { why one_picture (Thumb 1 (derived "hvc1" ("tbas" ∷ []))) ≡ Some DonorDerived }
    ensures prem_among_others { why one_picture (Thumb 1 (derived "hvc1" ("cdsc" ∷ "prem" ∷ []))) ≡ Some DonorDerived }
    ensures grid { why one_picture (Thumb 1 (derived "grid" [])) ≡ Some DonorDerived }
    ensures overlay { why one_picture (Thumb 1 (derived "iovl" [])) ≡ Some DonorDerived }
    ensures identity { why one_picture (Thumb 1 (derived "iden" [])) ≡ Some DonorDerived }
    ensures no_id { why greatest_beside (Thumb 1 one_picture) ≡ Some IdsFull }
    ensures minor_as_thumbnail { why one_picture (Thumb 1 hidden_second) ≡ None }
    ensures hidden { why every_feature (Thumb 1 one_picture) ≡ None }
    ensures picture { why one_picture (Thumb 1 one_picture) ≡ None }
    ensures added { step one_picture (Thumb 1 one_picture) ≡ picture_with_thumbnail }
    ensures primary_alone { step one_picture (Thumb 1 hidden_second) ≡ second_as_thumbnail }
    ensures second { step two_pictures (Thumb 2 one_picture) ≡ second_with_thumbnail }
{}

/// Where the last of the distinct properties, of the items or of their bytes still fits, no reason is told of their
/// number; where one more comes, the reason is told, before those that stand after it.
pub fn limits_are_told()
    ensures kinds { KindsFit }
    ensures too_many_kinds { KindsAreFull }
    ensures items { ItemsFit }
    ensures too_many_items { ItemsAreFull }
    ensures kinds_before_items { KindsBeforeItems }
    ensures ids_before_body { IdsBeforeBody }
    ensures body { BodyFits }
    ensures too_long_body { BodyIsFull }
    ensures props_before_kinds { PropsBeforeKinds }
    ensures body_before_meta { BodyBeforeMeta }
    ensures meta { MetaFits }
    ensures too_long_meta { MetaIsFull }
    ensures added_meta { AdditionsFitMeta }
    ensures too_long_added_meta { AdditionsFillMeta }
{}
