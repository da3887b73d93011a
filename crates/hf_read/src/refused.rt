//! Small files that are refused, each beside one that nearly is. Each is the contract of a function
//! that does nothing.

ghost use Rattle.std.specs.Prelude.{◌≡◌, ◌++◌, ◌∷◌, [], true, drop, codes, Ok, Err};
ghost use Rattle.hf_base.specs.Number.{num};
ghost use Rattle.hf_base.specs.declared.fault.ReadRefusal.TheVariants.{BadDerived, BadIndex, BadMethod, BadProperty, BadRecord, BadSize, BadVersion};
ghost use Rattle.hf_base.specs.declared.fault.ReadRefusal.TheVariants.{BadWidth, DanglingNeed, DeriveCycle, Double, DoubleAssoc, DoubleGroup};
ghost use Rattle.hf_base.specs.declared.fault.ReadRefusal.TheVariants.{DoubleItem, DoubleLocation, External, LocCycle, Missing, Movie, NoFtyp};
ghost use Rattle.hf_base.specs.declared.fault.ReadRefusal.TheVariants.{NoIdat, NoMeta, NoPrimary, NotMif1, NotPicture, OpenSize, OutOfFile};
ghost use Rattle.hf_base.specs.declared.fault.ReadRefusal.TheVariants.{OutOfIdat, OutOfItem, ProtectionBox, Protected, Short, TooLarge, TooManyBoxes};
ghost use Rattle.hf_base.specs.declared.fault.ReadRefusal.TheVariants.{Xml, ZeroId, ZeroLength};
ghost use Rattle.hf_base.specs.declared.kinds.TheConstants.{FTYP, META, HDLR, PITM, IINF, INFE, ILOC, IREF, IPRP, IPCO, IPMA, GRPL, IDAT};
ghost use Rattle.hf_box.specs.Framing.{frames_within};
ghost use Rattle.hf_box.specs.Head.{written_at};
ghost use Rattle.hf_box.specs.Literals.{four, hex_of};
ghost use Rattle.hf_read.specs.SmallFiles.{Refuses, Passes, boxed, full_boxed, ftyp, hdlr, pitm, iinf, infe, iloc, entry, part, iref, reference};
ghost use Rattle.hf_read.specs.SmallFiles.{ipma, group, meta, file_of, with_one, with_two};

/// The boxes of a file, and those of its `meta`: cut off, of a wrong size, or open.
pub fn framing_is_refused()
    ensures short { Refuses (with_one [] ++ num 0 7) (Short 114) }
    ensures short_size { Refuses (with_one [] ++ hex_of "00000001 66726565 00000000 000010") (Short 114) }
    ensures least_sizes { Passes (with_one [] ++ hex_of "00000001 66726565 00000000 00000010 00000008 66726565") }
    ensures size_of_7 { Refuses (with_one [] ++ hex_of "00000007 66726565") (BadSize 114) }
    ensures long_size_of_15 { Refuses (with_one [] ++ hex_of "00000001 66726565 00000000 0000000f") (BadSize 114) }
    ensures past_the_end { Refuses (with_one [] ++ hex_of "00000009 66726565") (BadSize 114) }
    ensures to_the_end { Passes (with_one [] ++ hex_of "00000000 66726565 00") }
    ensures open_inside { Refuses (with_one (hex_of "00000000 66726565")) (OpenSize 114) }
    ensures past_meta { Refuses (with_one (hex_of "00000009 66726565") ++ boxed "free" []) (BadSize 114) }
    ensures too_many { frames_within 1 true 0 (boxed "free" [] ++ num 0 1) ≡ Err (TooManyBoxes 8) }
    ensures not_too_many { frames_within 2 true 0 (boxed "free" [] ++ boxed "free" []) ≡ Ok (written_at 0 (four "free") [] ∷ written_at 8 (four "free") [] ∷ []) }
{}

/// The boxes of a file, in their order.
pub fn top_level_is_refused()
    ensures no_box { Refuses [] NoFtyp }
    ensures free_first { Refuses (boxed "free" [] ++ with_one []) NoFtyp }
    ensures free_second { Passes (ftyp "heic" "mif1" ++ boxed "free" [] ++ drop 20 (with_one [])) }
    ensures brands_cut { Refuses (ftyp "mif1" "mi" ++ drop 20 (with_one [])) (BadRecord FTYP 0) }
    ensures no_minor { Refuses (boxed "ftyp" (codes "mif1" ++ num 0 3) ++ drop 20 (with_one [])) (BadRecord FTYP 0) }
    ensures major_alone { Passes (ftyp "mif1" "" ++ drop 20 (with_one [])) }
    ensures not_mif1 { Refuses (ftyp "heic" "heicmif2" ++ drop 20 (with_one [])) NotMif1 }
    ensures across_brands { Refuses (ftyp "heic" "hemif1ic" ++ drop 20 (with_one [])) NotMif1 }
    ensures last_brand { Passes (ftyp "heic" "heicmif1" ++ drop 20 (with_one [])) }
    ensures moov { Refuses (with_one [] ++ boxed "moov" []) (Movie 114) }
    ensures moof { Refuses (with_one [] ++ boxed "moof" []) (Movie 114) }
    ensures moov_inside { Passes (with_one [] ++ boxed "mdat" (boxed "moov" [])) }
    ensures second_ftyp { Refuses (with_one [] ++ ftyp "heic" "mif1") (Double FTYP 114) }
    ensures second_meta { Refuses (with_one [] ++ meta []) (Double META 114) }
    ensures second_free { Passes (with_one [] ++ boxed "free" [] ++ boxed "free" []) }
    ensures no_meta { Refuses (ftyp "heic" "mif1") NoMeta }
    ensures meta_of_3 { Refuses (ftyp "heic" "mif1" ++ boxed "meta" (num 0 3)) (BadRecord META 20) }
    ensures meta_of_4 { Refuses (ftyp "heic" "mif1" ++ boxed "meta" (num 0 4)) (Missing HDLR) }
{}

/// The boxes of `meta`: second ones, those that are not accepted, and those that are missing.
pub fn children_are_refused()
    ensures second_hdlr { Refuses (with_one (hdlr "pict")) (Double HDLR 114) }
    ensures second_pitm { Refuses (with_one (pitm 1)) (Double PITM 114) }
    ensures second_iinf { Refuses (with_one (iinf 0 [])) (Double IINF 114) }
    ensures second_iloc { Refuses (with_one (iloc 0 [] ++ iloc 0 [])) (Double ILOC 130) }
    ensures second_iref { Refuses (with_one (iref [] ++ iref [])) (Double IREF 126) }
    ensures second_iprp { Refuses (with_one (boxed "iprp" [] ++ boxed "iprp" [])) (Double IPRP 122) }
    ensures second_grpl { Refuses (with_one (boxed "grpl" [] ++ boxed "grpl" [])) (Double GRPL 122) }
    ensures second_idat { Refuses (with_one (boxed "idat" [] ++ boxed "idat" [])) (Double IDAT 122) }
    ensures one_of_each { Passes (with_one (iloc 0 [] ++ iref [] ++ boxed "iprp" [] ++ boxed "grpl" [] ++ boxed "idat" [])) }
    ensures two_dinf { Passes (with_one (boxed "dinf" [] ++ boxed "dinf" [])) }
    ensures ipro { Refuses (with_one (boxed "ipro" [])) (ProtectionBox 114) }
    ensures xml { Refuses (with_one (boxed "xml " [])) (Xml 114) }
    ensures bxml { Refuses (with_one (boxed "bxml" [])) (Xml 114) }
    ensures xml_outside { Passes (with_one [] ++ boxed "xml " [] ++ boxed "bxml" [] ++ boxed "ipro" []) }
    ensures first_of_two { Refuses (with_one (hdlr "pict" ++ boxed "xml " [])) (Double HDLR 114) }
    ensures no_hdlr { Refuses (file_of (pitm 1 ++ iinf 1 (infe 1 "hvc1"))) (Missing HDLR) }
    ensures no_pitm { Refuses (file_of (hdlr "pict" ++ iinf 1 (infe 1 "hvc1"))) (Missing PITM) }
    ensures no_iinf { Refuses (file_of (hdlr "pict" ++ pitm 1)) (Missing IINF) }
{}

/// The handler, and the primary item.
pub fn handlers_are_refused()
    ensures short_hdlr { Refuses (file_of (full_boxed "hdlr" 0 (num 0 19) ++ pitm 1 ++ iinf 1 (infe 1 "hvc1"))) (BadRecord HDLR 32) }
    ensures no_name { Passes (file_of (full_boxed "hdlr" 0 (num 0 4 ++ codes "pict" ++ num 0 12) ++ pitm 1 ++ iinf 1 (infe 1 "hvc1"))) }
    ensures not_picture { Refuses (file_of (hdlr "vide" ++ pitm 1 ++ iinf 1 (infe 1 "hvc1"))) NotPicture }
    ensures short_pitm { Refuses (file_of (hdlr "pict" ++ boxed "pitm" (num 0 3) ++ iinf 1 (infe 1 "hvc1"))) (BadRecord PITM 65) }
    ensures no_id { Refuses (file_of (hdlr "pict" ++ full_boxed "pitm" 0 (num 1 1) ++ iinf 1 (infe 1 "hvc1"))) (BadRecord PITM 65) }
    ensures version_2 { Refuses (file_of (hdlr "pict" ++ full_boxed "pitm" 2 (num 1 4) ++ iinf 1 (infe 1 "hvc1"))) (BadVersion PITM 65) }
    ensures version_1 { Passes (file_of (hdlr "pict" ++ full_boxed "pitm" 1 (num 1 4) ++ iinf 1 (infe 1 "hvc1"))) }
    ensures no_primary { Refuses (file_of (hdlr "pict" ++ pitm 2 ++ iinf 1 (infe 1 "hvc1"))) (NoPrimary 2) }
    ensures last_is_primary { Passes (file_of (hdlr "pict" ++ pitm 2 ++ iinf 2 (infe 1 "hvc1" ++ infe 2 "hvc1"))) }
{}

/// Entries on items.
pub fn infos_are_refused()
    ensures short_iinf { Refuses (file_of (hdlr "pict" ++ pitm 1 ++ boxed "iinf" (num 0 3))) (BadRecord IINF 79) }
    ensures no_count { Refuses (file_of (hdlr "pict" ++ pitm 1 ++ full_boxed "iinf" 1 (num 1 2))) (BadRecord IINF 79) }
    ensures iinf_version_2 { Refuses (file_of (hdlr "pict" ++ pitm 1 ++ full_boxed "iinf" 2 (num 1 2 ++ infe 1 "hvc1"))) (BadVersion IINF 79) }
    ensures iinf_version_1 { Passes (file_of (hdlr "pict" ++ pitm 1 ++ full_boxed "iinf" 1 (num 1 4 ++ infe 1 "hvc1"))) }
    ensures one_more { Refuses (file_of (hdlr "pict" ++ pitm 1 ++ iinf 2 (infe 1 "hvc1"))) (BadRecord IINF 79) }
    ensures one_less { Refuses (file_of (hdlr "pict" ++ pitm 1 ++ iinf 1 (infe 1 "hvc1" ++ infe 2 "hvc1"))) (BadRecord IINF 79) }
    ensures other_box { Passes (file_of (hdlr "pict" ++ pitm 1 ++ iinf 1 (boxed "free" [] ++ infe 1 "hvc1"))) }
    ensures framing { Refuses (file_of (hdlr "pict" ++ pitm 1 ++ iinf 1 (infe 1 "hvc1" ++ num 0 1))) (Short 114) }
    ensures short_infe { Refuses (file_of (hdlr "pict" ++ pitm 1 ++ iinf 1 (full_boxed "infe" 2 (num 1 2 ++ num 0 2 ++ codes "hvc")))) (BadRecord INFE 93) }
    ensures no_name { Passes (file_of (hdlr "pict" ++ pitm 1 ++ iinf 1 (full_boxed "infe" 2 (num 1 2 ++ num 0 2 ++ codes "hvc1")))) }
    ensures infe_version_1 { Refuses (file_of (hdlr "pict" ++ pitm 1 ++ iinf 1 (full_boxed "infe" 1 (num 1 2 ++ num 0 2 ++ codes "hvc1")))) (BadVersion INFE 93) }
    ensures infe_version_4 { Refuses (file_of (hdlr "pict" ++ pitm 1 ++ iinf 1 (full_boxed "infe" 4 (num 1 4 ++ num 0 2 ++ codes "hvc1")))) (BadVersion INFE 93) }
    ensures infe_version_3 { Passes (file_of (hdlr "pict" ++ pitm 1 ++ iinf 1 (full_boxed "infe" 3 (num 1 4 ++ num 0 2 ++ codes "hvc1")))) }
    ensures zero_id { Refuses (file_of (hdlr "pict" ++ pitm 1 ++ iinf 2 (infe 1 "hvc1" ++ infe 0 "hvc1"))) (ZeroId 114) }
    ensures protected { Refuses (file_of (hdlr "pict" ++ pitm 1 ++ iinf 1 (full_boxed "infe" 2 (num 1 2 ++ num 1 2 ++ codes "hvc1")))) (Protected 1) }
    ensures double_item { Refuses (file_of (hdlr "pict" ++ pitm 1 ++ iinf 2 (infe 1 "hvc1" ++ infe 1 "mime"))) (DoubleItem 1) }
{}

/// Entries of `iloc`.
pub fn tables_of_places_are_refused()
    ensures short { Refuses (with_one (boxed "iloc" (num 0 3))) (BadRecord ILOC 114) }
    ensures version_3 { Refuses (with_one (full_boxed "iloc" 3 (hex_of "4400" ++ num 0 4))) (BadVersion ILOC 114) }
    ensures version_2 { Passes (with_one (full_boxed "iloc" 2 (hex_of "4400" ++ num 0 4))) }
    ensures no_count { Refuses (with_one (full_boxed "iloc" 1 (hex_of "4400" ++ num 0 1))) (BadRecord ILOC 114) }
    ensures offset_of_5 { Refuses (with_one (full_boxed "iloc" 1 (hex_of "5400" ++ num 0 2))) (BadWidth 114) }
    ensures length_of_1 { Refuses (with_one (full_boxed "iloc" 1 (hex_of "4100" ++ num 0 2))) (BadWidth 114) }
    ensures base_of_2 { Refuses (with_one (full_boxed "iloc" 1 (hex_of "4420" ++ num 0 2))) (BadWidth 114) }
    ensures index_of_6 { Refuses (with_one (full_boxed "iloc" 1 (hex_of "4406" ++ num 0 2))) (BadWidth 114) }
    ensures no_index { Passes (with_one (full_boxed "iloc" 0 (hex_of "4406" ++ num 0 2))) }
    ensures all_widths { Passes (with_one (full_boxed "iloc" 1 (hex_of "0848" ++ num 0 2))) }
    ensures short_entry { Refuses (with_one (iloc 1 (num 1 2 ++ num 0 2 ++ num 0 2 ++ num 0 1))) (BadRecord ILOC 114) }
    ensures short_part { Refuses (with_one (iloc 1 (entry 1 0 1 (num 0 7)))) (BadRecord ILOC 114) }
    ensures second_entry { Refuses (with_one (iloc 2 (entry 9 0 0 [] ++ entry 9 0 0 []))) (DoubleLocation 9) }
    ensures other_entry { Passes (with_one (iloc 2 (entry 9 0 0 [] ++ entry 8 0 0 []))) }
{}

/// References.
pub fn tables_of_references_are_refused()
    ensures short { Refuses (with_two "hvc1" (boxed "iref" (num 0 3))) (BadRecord IREF 135) }
    ensures version_2 { Refuses (with_two "hvc1" (full_boxed "iref" 2 [])) (BadVersion IREF 135) }
    ensures version_1 { Passes (with_two "hvc1" (full_boxed "iref" 1 [])) }
    ensures framing { Refuses (with_two "hvc1" (iref (num 0 1))) (Short 147) }
    ensures no_count { Refuses (with_two "hvc1" (iref (boxed "cdsc" (num 1 2 ++ num 0 1)))) (BadRecord IREF 147) }
    ensures no_id { Refuses (with_two "hvc1" (iref (boxed "cdsc" (num 1 2 ++ num 1 2 ++ num 0 1)))) (BadRecord IREF 147) }
    ensures needed_tile { Refuses (with_two "hvc1" (iref (reference "dimg" 2 9))) (DanglingNeed 2) }
    ensures needed_base { Refuses (with_two "hvc1" (iref (reference "tbas" 1 9))) (DanglingNeed 1) }
    ensures needed_prem { Refuses (with_two "hvc1" (iref (reference "prem" 2 9 ++ reference "prem" 1 9))) (DanglingNeed 1) }
    ensures not_needed { Passes (with_two "hvc1" (iref (reference "thmb" 2 9))) }
    ensures of_no_item { Passes (with_two "hvc1" (iref (reference "dimg" 9 8))) }
{}

/// Properties and associations.
pub fn tables_of_properties_are_refused()
    ensures framing { Refuses (with_two "hvc1" (boxed "iprp" (num 0 1))) (Short 143) }
    ensures second_ipco { Refuses (with_two "hvc1" (boxed "iprp" (boxed "ipco" [] ++ boxed "ipco" []))) (Double IPCO 151) }
    ensures ipco_framing { Refuses (with_two "hvc1" (boxed "iprp" (boxed "ipco" (num 0 1)))) (Short 151) }
    ensures two_ipma { Passes (with_two "hvc1" (boxed "iprp" (ipma 0 [] ++ ipma 0 []))) }
    ensures short_ipma { Refuses (with_two "hvc1" (boxed "iprp" (boxed "ipma" (num 0 3)))) (BadRecord IPMA 143) }
    ensures version_2 { Refuses (with_two "hvc1" (boxed "iprp" (full_boxed "ipma" 2 (num 0 4)))) (BadVersion IPMA 143) }
    ensures no_count { Refuses (with_two "hvc1" (boxed "iprp" (full_boxed "ipma" 0 (num 0 3)))) (BadRecord IPMA 143) }
    ensures no_entry { Refuses (with_two "hvc1" (boxed "iprp" (ipma 1 (num 1 2)))) (BadRecord IPMA 143) }
    ensures no_association { Refuses (with_two "hvc1" (boxed "iprp" (ipma 1 (num 1 2 ++ num 1 1)))) (BadRecord IPMA 143) }
    ensures second_entry { Refuses (with_two "hvc1" (boxed "iprp" (ipma 1 (num 9 2 ++ num 0 1) ++ ipma 1 (num 9 2 ++ num 0 1)))) (DoubleAssoc 9) }
    ensures past_the_last { Refuses (with_two "hvc1" (boxed "iprp" (boxed "ipco" (boxed "free" []) ++ ipma 1 (num 2 2 ++ num 1 1 ++ num 2 1)))) (BadProperty 2) }
    ensures the_last { Passes (with_two "hvc1" (boxed "iprp" (boxed "ipco" (boxed "free" []) ++ ipma 1 (num 2 2 ++ num 1 1 ++ num 1 1)))) }
    ensures number_0 { Passes (with_two "hvc1" (boxed "iprp" (ipma 1 (num 2 2 ++ num 1 1 ++ num 128 1)))) }
    ensures no_ipco { Refuses (with_two "hvc1" (boxed "iprp" (ipma 2 (num 2 2 ++ num 1 1 ++ num 1 1 ++ num 1 2 ++ num 1 1 ++ num 129 1)))) (BadProperty 1) }
    ensures of_no_item { Passes (with_two "hvc1" (boxed "iprp" (ipma 1 (num 9 2 ++ num 1 1 ++ num 1 1)))) }
{}

/// Groups.
pub fn tables_of_groups_are_refused()
    ensures framing { Refuses (with_two "hvc1" (boxed "grpl" (num 0 1))) (Short 143) }
    ensures short { Refuses (with_two "hvc1" (boxed "grpl" (full_boxed "altr" 0 (num 1 4 ++ num 0 3)))) (BadRecord GRPL 143) }
    ensures no_entity { Refuses (with_two "hvc1" (boxed "grpl" (group 1 0 [] ++ group 2 1 (num 0 3)))) (BadRecord GRPL 163) }
    ensures too_large { Refuses (with_two "hvc1" (boxed "grpl" (group 1 0 [] ++ group 2 4194303 []))) (TooLarge GRPL 163) }
    ensures not_too_large { Refuses (with_two "hvc1" (boxed "grpl" (group 1 0 [] ++ group 2 4194302 []))) (BadRecord GRPL 163) }
    ensures second_group { Refuses (with_two "hvc1" (boxed "grpl" (group 5 0 [] ++ group 6 0 [] ++ group 5 0 []))) (DoubleGroup 5) }
    ensures other_group { Passes (with_two "hvc1" (boxed "grpl" (group 0 0 [] ++ group 6 0 []))) }
{}

/// Places of bytes, each of item 2.
pub fn places_are_refused()
    ensures external { Refuses (with_two "hvc1" (iloc 1 (num 2 2 ++ num 0 2 ++ num 1 2 ++ num 0 2))) (External 2) }
    ensures external_of_none { Passes (with_two "hvc1" (iloc 1 (num 9 2 ++ num 0 2 ++ num 1 2 ++ num 0 2))) }
    ensures method_3 { Refuses (with_two "hvc1" (iloc 1 (entry 2 3 0 []))) (BadMethod 2) }
    ensures method_2 { Passes (with_two "hvc1" (iloc 1 (entry 2 2 0 []))) }
    ensures zero_length { Refuses (with_two "hvc1" (iloc 1 (entry 2 0 1 (part 0 0)))) (ZeroLength 2) }
    ensures zero_length_at_1 { Refuses (with_two "hvc1" (boxed "idat" (num 0 4) ++ iloc 1 (entry 2 1 1 (part 1 0)))) (ZeroLength 2) }
    ensures two_zero_lengths { Refuses (with_two "hvc1" (boxed "idat" (num 0 4) ++ iloc 1 (entry 2 1 2 (part 0 0 ++ part 0 0)))) (ZeroLength 2) }
    ensures whole_idat { Passes (with_two "hvc1" (boxed "idat" (num 0 4) ++ iloc 1 (entry 2 1 1 (part 0 0)))) }
    ensures no_idat { Refuses (with_two "hvc1" (iloc 1 (entry 2 1 1 (part 0 1)))) (NoIdat 2) }
    ensures no_idat_without_parts { Passes (with_two "hvc1" (iloc 1 (entry 2 1 0 []))) }
    ensures no_reference { Refuses (with_two "hvc1" (iloc 1 (entry 2 2 1 (part 0 1)))) (BadIndex 2) }
    ensures reference_to_none { Refuses (with_two "hvc1" (iref (reference "iloc" 2 9) ++ iloc 1 (entry 2 2 1 (part 0 1)))) (BadIndex 2) }
    ensures index_0 { Refuses (with_two "hvc1" (iref (reference "iloc" 2 1) ++ full_boxed "iloc" 1 (hex_of "4404" ++ num 1 2 ++ entry 2 2 1 (num 0 4 ++ part 0 0)))) (BadIndex 2) }
    ensures index_2 { Refuses (with_two "hvc1" (iref (reference "iloc" 2 1) ++ full_boxed "iloc" 1 (hex_of "4404" ++ num 1 2 ++ entry 2 2 1 (num 2 4 ++ part 0 0)))) (BadIndex 2) }
    ensures index_1 { Passes (with_two "hvc1" (iref (reference "iloc" 2 1) ++ full_boxed "iloc" 1 (hex_of "4404" ++ num 1 2 ++ entry 2 2 1 (num 1 4 ++ part 0 0)))) }
    ensures in_itself { Refuses (with_two "hvc1" (iref (reference "iloc" 2 2) ++ iloc 1 (entry 2 2 1 (part 0 1)))) (LocCycle 2) }
    ensures in_each_other { Refuses (with_two "hvc1" (iref (reference "iloc" 1 2 ++ reference "iloc" 2 1) ++ iloc 2 (entry 2 2 1 (part 0 1) ++ entry 1 2 1 (part 0 1)))) (LocCycle 1) }
    ensures past_the_file { Refuses (with_two "hvc1" (iloc 1 (entry 2 0 1 (part 0 168)))) (OutOfFile 2) }
    ensures whole_file { Passes (with_two "hvc1" (iloc 1 (entry 2 0 1 (part 0 167)))) }
    ensures past_idat { Refuses (with_two "hvc1" (boxed "idat" (num 0 4) ++ iloc 1 (entry 2 1 1 (part 1 4)))) (OutOfIdat 2) }
    ensures end_of_idat { Passes (with_two "hvc1" (boxed "idat" (num 0 4) ++ iloc 1 (entry 2 1 1 (part 1 3)))) }
    ensures past_the_item { Refuses (with_two "hvc1" (iref (reference "iloc" 2 1) ++ iloc 2 (entry 1 0 1 (part 0 4) ++ entry 2 2 1 (part 1 4)))) (OutOfItem 2) }
    ensures end_of_the_item { Passes (with_two "hvc1" (iref (reference "iloc" 2 1) ++ iloc 2 (entry 1 0 1 (part 0 4) ++ entry 2 2 1 (part 1 3)))) }
{}

/// Derived items.
pub fn derived_items_are_refused()
    ensures no_input { Refuses (with_two "iden" []) (BadDerived 2) }
    ensures two_inputs { Refuses (with_two "iden" (iref (reference "dimg" 2 1 ++ reference "dimg" 2 1))) (BadDerived 2) }
    ensures one_input { Passes (with_two "iden" (iref (reference "dimg" 2 1))) }
    ensures grid_of_two_with_one { Refuses (with_two "grid" (iref (reference "dimg" 2 1) ++ boxed "idat" (hex_of "00000001 00010001") ++ iloc 1 (entry 2 1 1 (part 0 0)))) (BadDerived 2) }
    ensures grid_of_two { Passes (with_two "grid" (iref (reference "dimg" 2 1 ++ reference "dimg" 2 1) ++ boxed "idat" (hex_of "00000001 00010001") ++ iloc 1 (entry 2 1 1 (part 0 0)))) }
    ensures grid_of_7_bytes { Refuses (with_two "grid" (iref (reference "dimg" 2 1 ++ reference "dimg" 2 1) ++ boxed "idat" (hex_of "00000001 00010001") ++ iloc 1 (entry 2 1 1 (part 0 7)))) (BadDerived 2) }
    ensures of_itself { Refuses (with_two "hvc1" (iref (reference "dimg" 2 2))) (DeriveCycle 2) }
    ensures of_one_in_a_circle { Refuses (with_two "hvc1" (iref (reference "dimg" 1 2 ++ reference "dimg" 2 2))) (DeriveCycle 1) }
    ensures of_another { Passes (with_two "hvc1" (iref (reference "dimg" 2 1))) }
    ensures thumbnails_of_each_other { Passes (with_two "hvc1" (iref (reference "thmb" 2 1 ++ reference "thmb" 1 2))) }
{}
