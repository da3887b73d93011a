//! Worked bodies of `iinf`, at place 83 in a file, and what reading them gives. Each is the contract of
//! a function that does nothing.

ghost use Rattle.std.specs.Prelude.{◌≡◌, true, false, [], ◌∷◌, Ok, Err};
ghost use Rattle.hf_base.specs.declared.fault.ReadRefusal.TheVariants.{BadRecord, BadSize, BadVersion, DoubleItem, OpenSize, Protected, Short, ZeroId};
ghost use Rattle.hf_base.specs.declared.kinds.TheConstants.{IINF, INFE};
ghost use Rattle.hf_box.specs.Literals.{hex_of};
ghost use Rattle.hf_info.specs.Infe.{infe_box};
ghost use Rattle.hf_info.specs.Iinf.{iinf_at, iinf_body};
ghost use Rattle.hf_info.specs.Worked.{iinf_of, named, mime_named, uri_named};

/// Entries of both versions, in an `iinf` of both versions.
pub fn entries_are_read()
    ensures one { iinf_at (iinf_of (hex_of "00000000 0001 00000015 696e6665 02000000 0001 0000 68766331 00")) ≡ Ok (named 1 "hvc1" false "" ∷ []) }
    ensures version_1 { iinf_at (iinf_of (hex_of "01000000 00000001 00000015 696e6665 02000000 0001 0000 68766331 00")) ≡ Ok (named 1 "hvc1" false "" ∷ []) }
    ensures version_3 { iinf_at (iinf_of (hex_of "00000000 0001 00000017 696e6665 03000000 00011170 0000 68766331 00")) ≡ Ok (named 70000 "hvc1" false "" ∷ []) }
    ensures both_versions { iinf_at (iinf_of (hex_of "01000000 00000002 00000015 696e6665 02000000 0102 0000 68766331 00 00000017 696e6665 03000000 01020304 0000 68766331 00")) ≡ Ok (named 258 "hvc1" false "" ∷ named 16909060 "hvc1" false "" ∷ []) }
    ensures none { iinf_at (iinf_of (hex_of "00000000 0000")) ≡ Ok [] }
{}

/// The strings that a type has; some end with their box, and where no byte is left a string is
/// empty.
pub fn strings_are_read()
    ensures hidden_mime { iinf_at (iinf_of (hex_of "00000000 0001 00000023 696e6665 02000001 0002 0000 6d696d65 61206200 746578742f706c61696e00")) ≡ Ok (mime_named 2 true "a b" "text/plain" "" ∷ []) }
    ensures encoding { iinf_at (iinf_of (hex_of "00000000 0001 0000001e 696e6665 02000000 0002 0000 6d696d65 00 612f6200 677a697000")) ≡ Ok (mime_named 2 false "" "a/b" "gzip" ∷ []) }
    ensures encoding_ends_with_its_box { iinf_at (iinf_of (hex_of "00000000 0001 0000001e 696e6665 02000000 0002 0000 6d696d65 6e00 612f6200 677a6970")) ≡ Ok (mime_named 2 false "n" "a/b" "gzip" ∷ []) }
    ensures content_ends_with_its_box { iinf_at (iinf_of (hex_of "00000000 0001 00000019 696e6665 02000000 0002 0000 6d696d65 6e00 612f62")) ≡ Ok (mime_named 2 false "n" "a/b" "" ∷ []) }
    ensures name_ends_with_its_box { iinf_at (iinf_of (hex_of "00000000 0001 00000018 696e6665 03000000 00000002 0000 68766331 6162")) ≡ Ok (named 2 "hvc1" false "ab" ∷ []) }
    ensures no_byte_is_left { iinf_at (iinf_of (hex_of "00000000 0001 00000014 696e6665 02000000 0001 0000 6d696d65")) ≡ Ok (mime_named 1 false "" "" "" ∷ []) }
    ensures uri { iinf_at (iinf_of (hex_of "00000000 0001 0000001a 696e6665 02000000 0003 0000 75726920 6e00 753a7800")) ≡ Ok (uri_named 3 "n" "u:x" ∷ []) }
    ensures uri_ends_with_its_box { iinf_at (iinf_of (hex_of "00000000 0001 00000019 696e6665 02000000 0003 0000 75726920 6e00 753a78")) ≡ Ok (uri_named 3 "n" "u:x" ∷ []) }
    ensures other_type { iinf_at (iinf_of (hex_of "00000000 0001 0000001f 696e6665 02000000 0001 0000 45786966 6e00 612f6200 677a697000")) ≡ Ok (named 1 "Exif" false "n" ∷ []) }
{}

/// Bytes behind the strings, other flags and other boxes say nothing.
pub fn free_parts_are_passed_over()
    ensures behind_the_strings { iinf_at (iinf_of (hex_of "00000000 0001 0000001c 696e6665 02000000 0002 0000 75726920 6e00 7500 75320000")) ≡ Ok (uri_named 2 "n" "u" ∷ []) }
    ensures other_flags { iinf_at (iinf_of (hex_of "00ffffff 0001 00000015 696e6665 02fffffe 0001 0000 68766331 00")) ≡ Ok (named 1 "hvc1" false "" ∷ []) }
    ensures other_boxes { iinf_at (iinf_of (hex_of "00000000 0001 00000009 66726565 01 00000015 696e6665 02000000 0001 0000 68766331 00 00000008 736b6970")) ≡ Ok (named 1 "hvc1" false "" ∷ []) }
    ensures long_header { iinf_at (iinf_of (hex_of "00000000 0001 00000001 696e6665 000000000000001d 02000000 0001 0000 68766331 00")) ≡ Ok (named 1 "hvc1" false "" ∷ []) }
{}

/// What is refused of an `iinf` before its entries, in the order in which it is told.
pub fn tables_are_refused()
    ensures no_version { iinf_at (iinf_of (hex_of "020000")) ≡ Err (BadRecord IINF 83) }
    ensures version { iinf_at (iinf_of (hex_of "02000000")) ≡ Err (BadVersion IINF 83) }
    ensures count_is_cut { iinf_at (iinf_of (hex_of "00000000 00")) ≡ Err (BadRecord IINF 83) }
    ensures wide_count_is_cut { iinf_at (iinf_of (hex_of "01000000 000000")) ≡ Err (BadRecord IINF 83) }
    ensures short_box { iinf_at (iinf_of (hex_of "00000000 0002 00000015 696e6665 02000000 0001 0000 68766331 00 00")) ≡ Err (Short 118) }
    ensures open_box { iinf_at (iinf_of (hex_of "00000000 0002 00000000 696e6665")) ≡ Err (OpenSize 97) }
    ensures box_past_the_end { iinf_at (iinf_of (hex_of "01000000 00000002 00000015 696e6665 02000000 0001 0000 68766331")) ≡ Err (BadSize 99) }
    ensures one_too_few { iinf_at (iinf_of (hex_of "00000000 0002 00000015 696e6665 02000000 0001 0000 68766331 00")) ≡ Err (BadRecord IINF 83) }
    ensures one_too_many { iinf_at (iinf_of (hex_of "00000000 0000 00000015 696e6665 02000000 0001 0000 68766331 00")) ≡ Err (BadRecord IINF 83) }
    ensures count_before_entries { iinf_at (iinf_of (hex_of "00000000 0002 00000017 696e6665 09000000 00000001 0000 68766331 00")) ≡ Err (BadRecord IINF 83) }
{}

/// What is refused of an entry, in the order in which it is told.
pub fn entries_are_refused()
    ensures cut_to_18_bytes { iinf_at (iinf_of (hex_of "00000000 0001 00000012 696e6665 02000000 0001 0000 6876")) ≡ Err (BadRecord INFE 97) }
    ensures cut_to_19_bytes { iinf_at (iinf_of (hex_of "00000000 0001 00000013 696e6665 02000000 0001 0000 687663")) ≡ Err (BadRecord INFE 97) }
    ensures wide_cut_to_21_bytes { iinf_at (iinf_of (hex_of "00000000 0001 00000015 696e6665 03000000 00000001 0000 687663")) ≡ Err (BadRecord INFE 97) }
    ensures no_version { iinf_at (iinf_of (hex_of "00000000 0001 0000000b 696e6665 010000")) ≡ Err (BadRecord INFE 97) }
    ensures version_1 { iinf_at (iinf_of (hex_of "00000000 0001 00000016 696e6665 01000000 00000001 0000 68766331")) ≡ Err (BadVersion INFE 97) }
    ensures version_4 { iinf_at (iinf_of (hex_of "00000000 0001 0000000c 696e6665 04000000")) ≡ Err (BadVersion INFE 97) }
    ensures version_before_id { iinf_at (iinf_of (hex_of "00000000 0001 00000016 696e6665 04000000 00000000 0000 68766331")) ≡ Err (BadVersion INFE 97) }
    ensures fields_before_id { iinf_at (iinf_of (hex_of "00000000 0001 00000013 696e6665 02000000 0000 0000 687663")) ≡ Err (BadRecord INFE 97) }
    ensures zero_id { iinf_at (iinf_of (hex_of "00000000 0001 00000015 696e6665 02000000 0000 0001 68766331 00")) ≡ Err (ZeroId 97) }
    ensures protected { iinf_at (iinf_of (hex_of "00000000 0002 00000015 696e6665 02000000 0007 0100 68766331 00 00000015 696e6665 02000000 0000 0000 68766331 00")) ≡ Err (Protected 7) }
    ensures double { iinf_at (iinf_of (hex_of "00000000 0002 00000015 696e6665 02000000 0001 0000 68766331 00 00000017 696e6665 03000000 00000001 0000 68766331 00")) ≡ Err (DoubleItem 1) }
    ensures protected_before_double { iinf_at (iinf_of (hex_of "00000000 0002 00000015 696e6665 02000000 0001 0000 68766331 00 00000015 696e6665 02000000 0001 0001 68766331 00")) ≡ Err (Protected 1) }
    ensures double_before_later { iinf_at (iinf_of (hex_of "00000000 0003 00000015 696e6665 02000000 0001 0000 68766331 00 00000015 696e6665 02000000 0001 0000 68766331 00 00000017 696e6665 09000000 00000001 0000 68766331 00")) ≡ Err (DoubleItem 1) }
    ensures second_is_cut { iinf_at (iinf_of (hex_of "00000000 0002 00000015 696e6665 02000000 0001 0000 68766331 00 00000008 696e6665")) ≡ Err (BadRecord INFE 118) }
{}

/// Entries as they are written, with ids of both widths.
pub fn entries_are_written()
    ensures narrow { infe_box false (named 1 "hvc1" false "") ≡ hex_of "00000015 696e6665 02000000 0001 0000 68766331 00" }
    ensures wide { infe_box true (named 70000 "hvc1" true "ab") ≡ hex_of "00000019 696e6665 03000001 00011170 0000 68766331 616200" }
    ensures mime { infe_box false (mime_named 2 true "a b" "text/plain" "") ≡ hex_of "00000023 696e6665 02000001 0002 0000 6d696d65 61206200 746578742f706c61696e00" }
    ensures encoding { infe_box false (mime_named 2 false "" "" "gzip") ≡ hex_of "0000001b 696e6665 02000000 0002 0000 6d696d65 00 00 677a697000" }
    ensures uri { infe_box true (uri_named 3 "n" "u:x") ≡ hex_of "0000001c 696e6665 03000000 00000003 0000 75726920 6e00 753a7800" }
    ensures table { iinf_body false (named 1 "hvc1" false "" ∷ named 2 "Exif" true "n" ∷ []) ≡ hex_of "00000000 0002 00000015 696e6665 02000000 0001 0000 68766331 00 00000016 696e6665 02000001 0002 0000 45786966 6e00" }
    ensures wide_table { iinf_body true (named 70000 "hvc1" false "" ∷ []) ≡ hex_of "01000000 00000001 00000017 696e6665 03000000 00011170 0000 68766331 00" }
{}
