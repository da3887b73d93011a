//! Worked payloads of derived items (ISO/IEC 23008-12). Each is the contract of a function that does nothing.

ghost use Rattle.std.specs.Prelude.{◌≡◌, true, false, List, [], ◌∷◌, replicate, Some, None};
ghost use Rattle.hf_box.specs.Literals.{four, hex_of};
ghost use Rattle.hf_derived.specs.Derived.{fits, side};
ghost use Rattle.hf_derived.specs.Grid.{grid_at};
ghost use Rattle.hf_derived.specs.Overlay.{overlay_at};

/// Bit 0 of the flags alone tells how many bytes a side takes.
pub fn sides_are_told_by_bit_0()
    ensures none { side 0 ≡ 2 }
    ensures bit_0 { side 1 ≡ 4 }
    ensures bit_1 { side 2 ≡ 2 }
    ensures both { side 3 ≡ 4 }
    ensures all_but_bit_0 { side 254 ≡ 2 }
    ensures all { side 255 ≡ 4 }
{}

/// A grid of one row and two columns fits two inputs, with sides of two bytes and of four. Bytes
/// behind the sides are no fault; a byte too few is one, and so is a version other than 0.
pub fn grids_fit()
    ensures short_sides { fits (four "grid") (hex_of "00000001 00080004") 2 ≡ true }
    ensures short_sides_cut { fits (four "grid") (hex_of "00000001 000800") 2 ≡ false }
    ensures short_sides_and_more { fits (four "grid") (hex_of "00000001 00080004 ff") 2 ≡ true }
    ensures long_sides { fits (four "grid") (hex_of "00010001 00000008 00000004") 2 ≡ true }
    ensures long_sides_cut { fits (four "grid") (hex_of "00010001 00000008 000000") 2 ≡ false }
    ensures long_sides_and_more { fits (four "grid") (hex_of "00010001 00000008 00000004 ff") 2 ≡ true }
    ensures flags_2 { fits (four "grid") (hex_of "00020001 00080004") 2 ≡ true }
    ensures flags_3 { fits (four "grid") (hex_of "00030001 00000008 00000004") 2 ≡ true }
    ensures flags_3_cut { fits (four "grid") (hex_of "00030001 00000008 000000") 2 ≡ false }
    ensures version_1 { fits (four "grid") (hex_of "01000001 00080004") 2 ≡ false }
    ensures version_255 { fits (four "grid") (hex_of "ff000001 00080004") 2 ≡ false }
    ensures nothing { fits (four "grid") [] 1 ≡ false }
    ensures three_bytes { fits (four "grid") (hex_of "000000") 1 ≡ false }
    ensures no_sides { fits (four "grid") (hex_of "00000000") 1 ≡ false }
{}

/// A grid has one row more than its third byte says, and one column more than its fourth, and as
/// many inputs as cells.
pub fn grids_have_an_input_for_each_cell()
    ensures one { fits (four "grid") (hex_of "00000000 00080004") 1 ≡ true }
    ensures two_for_one { fits (four "grid") (hex_of "00000000 00080004") 2 ≡ false }
    ensures none_for_one { fits (four "grid") (hex_of "00000000 00080004") 0 ≡ false }
    ensures one_row_of_three { fits (four "grid") (hex_of "00000002 00080004") 3 ≡ true }
    ensures three_rows_of_one { fits (four "grid") (hex_of "00000200 00080004") 3 ≡ true }
    ensures two_by_three { fits (four "grid") (hex_of "00000102 00080004") 6 ≡ true }
    ensures one_too_few { fits (four "grid") (hex_of "00000102 00080004") 5 ≡ false }
    ensures one_too_many { fits (four "grid") (hex_of "00000102 00080004") 7 ≡ false }
    ensures most { fits (four "grid") (hex_of "0000ffff 00080004") 65536 ≡ true }
{}

/// An overlay has four fill values of two bytes, a width and a height, and two offsets for each
/// input. Bytes behind them are no fault; a byte too few is one, and so is a version other than 0.
pub fn overlays_fit()
    ensures short_of_none { fits (four "iovl") (0 ∷ 0 ∷ replicate 12 0) 0 ≡ true }
    ensures short_of_none_cut { fits (four "iovl") (0 ∷ 0 ∷ replicate 11 0) 0 ≡ false }
    ensures short_of_one { fits (four "iovl") (0 ∷ 0 ∷ replicate 16 0) 1 ≡ true }
    ensures short_of_one_cut { fits (four "iovl") (0 ∷ 0 ∷ replicate 15 0) 1 ≡ false }
    ensures short_of_two { fits (four "iovl") (0 ∷ 0 ∷ replicate 20 0) 2 ≡ true }
    ensures short_of_two_cut { fits (four "iovl") (0 ∷ 0 ∷ replicate 19 0) 2 ≡ false }
    ensures long_of_none { fits (four "iovl") (0 ∷ 1 ∷ replicate 16 0) 0 ≡ true }
    ensures long_of_none_cut { fits (four "iovl") (0 ∷ 1 ∷ replicate 15 0) 0 ≡ false }
    ensures long_of_one { fits (four "iovl") (0 ∷ 1 ∷ replicate 24 0) 1 ≡ true }
    ensures long_of_one_cut { fits (four "iovl") (0 ∷ 1 ∷ replicate 23 0) 1 ≡ false }
    ensures long_of_two { fits (four "iovl") (0 ∷ 1 ∷ replicate 32 0) 2 ≡ true }
    ensures long_of_two_cut { fits (four "iovl") (0 ∷ 1 ∷ replicate 31 0) 2 ≡ false }
    ensures and_more { fits (four "iovl") (0 ∷ 1 ∷ replicate 300 0) 2 ≡ true }
    ensures flags_2 { fits (four "iovl") (0 ∷ 2 ∷ replicate 16 0) 1 ≡ true }
    ensures flags_3 { fits (four "iovl") (0 ∷ 3 ∷ replicate 24 0) 1 ≡ true }
    ensures flags_3_cut { fits (four "iovl") (0 ∷ 3 ∷ replicate 23 0) 1 ≡ false }
    ensures version_1 { fits (four "iovl") (1 ∷ 0 ∷ replicate 16 0) 1 ≡ false }
    ensures version_255 { fits (four "iovl") (255 ∷ 0 ∷ replicate 16 0) 1 ≡ false }
    ensures nothing { fits (four "iovl") [] 0 ≡ false }
    ensures one_byte { fits (four "iovl") (0 ∷ []) 0 ≡ false }
{}

/// An identity item has one input, whatever its bytes are. Other types are not looked at.
pub fn identities_have_one_input()
    ensures one { fits (four "iden") [] 1 ≡ true }
    ensures none { fits (four "iden") [] 0 ≡ false }
    ensures two { fits (four "iden") [] 2 ≡ false }
    ensures bytes { fits (four "iden") (hex_of "ff") 1 ≡ true }
    ensures other { fits (four "hvc1") [] 0 ≡ true }
    ensures other_of_two { fits (four "hvc1") (hex_of "ff") 2 ≡ true }
    ensures other_letters { fits (four "GRID") [] 0 ≡ true }
{}

/// What payloads say, field by field: that of a grid of 6 by 8 tiles, one of 256 by 255 with long sides
/// and a byte behind them, and those of overlays, of which only the front is looked at.
pub fn payloads_say_their_fields()
    ensures grid { grid_at (hex_of "00000507 0fc00bd0") ≡ Some (record { rows = 6; columns = 8; width = 4032; height = 3024 }) }
    ensures long_grid { grid_at (hex_of "00fffffe 00000507 0fc00bd0 aa") ≡ Some (record { rows = 256; columns = 255; width = 1287; height = 264244176 }) }
    ensures no_grid { grid_at (hex_of "01000507 0fc00bd0") ≡ None }
    ensures overlay { overlay_at 1 (hex_of "0000 0001000200030004 0fc00bd0 ffff0000") ≡ Some (record { long = false; width = 4032; height = 3024 }) }
    ensures overlay_cut { overlay_at 1 (hex_of "0000 0001000200030004 0fc00bd0 ffff00") ≡ None }
    ensures long_overlay { overlay_at 0 (hex_of "0003 0001000200030004 00000507 0fc00bd0") ≡ Some (record { long = true; width = 1287; height = 264244176 }) }
{}
