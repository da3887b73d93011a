//! Worked boxes: how they are read, their faults, and how they are written. Each is the contract of a
//! function that does nothing.

ghost use Rattle.std.specs.Prelude.{◌≡◌, ◌++◌, ◌∷◌, [], take, map, true, false, Ok, Err};
ghost use Rattle.hf_base.specs.declared.fault.ReadRefusal.TheVariants.{BadRecord, BadSize, OpenSize, Short, TooManyBoxes};
ghost use Rattle.hf_base.specs.declared.kinds.TheConstants.{META};
ghost use Rattle.hf_box.specs.declared.view.BoxRow.{BoxRow};
ghost use Rattle.hf_box.specs.Boxes.{BoxAt};
ghost use Rattle.hf_box.specs.Framing.{frames, frames_within};
ghost use Rattle.hf_box.specs.Head.{box, box_head, box_len, head_len};
ghost use Rattle.hf_box.specs.Walk.{walk_at};
ghost use Rattle.hf_box.specs.WorkedBoxes.{free, free_at, compact_free, long_free, open_free, size_2, size_7, long_size_15, greatest_compact_head, least_long_head, short_meta, open_in_meta, two_metas, digits};
ghost use Rattle.hf_box.specs.Written.{bit, id_version, id_width, zero_ended};

/// The three spellings of a box, and boxes behind one another. A box without a size takes all bytes
/// to the end of the file.
pub fn spellings_are_read()
    ensures none { frames true 24 [] ≡ Ok [] }
    ensures compact { frames false 24 compact_free ≡ Ok (free_at 24 8 ∷ []) }
    ensures long { frames false 24 long_free ≡ Ok (free_at 24 16 ∷ []) }
    ensures sizeless { frames true 24 open_free ≡ Ok (free_at 24 8 ∷ []) }
    ensures behind { frames true 24 (compact_free ++ long_free ++ open_free) ≡ Ok (free_at 24 8 ∷ free_at 35 16 ∷ free_at 54 8 ∷ []) }
{}

/// A header that is cut off is Short, and a size that is less than its header or passes the end is
/// BadSize. A box without a size is OpenSize inside another box. The first place that has a fault is told.
pub fn framing_faults_are_told()
    ensures one { frames true 24 (take 1 compact_free) ≡ Err (Short 24) }
    ensures seven { frames true 24 (take 7 compact_free) ≡ Err (Short 24) }
    ensures long_size { frames true 24 (take 15 long_free) ≡ Err (Short 24) }
    ensures least { frames true 24 size_2 ≡ Err (BadSize 24) }
    ensures greatest { frames true 24 size_7 ≡ Err (BadSize 24) }
    ensures long { frames true 24 long_size_15 ≡ Err (BadSize 24) }
    ensures passes { frames true 24 (take 10 compact_free) ≡ Err (BadSize 24) }
    ensures long_passes { frames true 24 (take 18 long_free) ≡ Err (BadSize 24) }
    ensures inside { frames false 24 open_free ≡ Err (OpenSize 24) }
    ensures first { frames false 24 (compact_free ++ open_free ++ take 1 compact_free) ≡ Err (OpenSize 35) }
    ensures second { frames true 24 (compact_free ++ take 7 compact_free) ≡ Err (Short 35) }
{}

/// A byte behind as many boxes as are allowed is TooManyBoxes, whatever it begins.
pub fn boxes_are_limited()
    ensures within { frames_within 2 true 24 (compact_free ++ compact_free) ≡ Ok (free_at 24 8 ∷ free_at 35 8 ∷ []) }
    ensures above { frames_within 1 true 24 (compact_free ++ compact_free) ≡ Err (TooManyBoxes 35) }
    ensures short { frames_within 1 true 24 (compact_free ++ take 1 compact_free) ≡ Err (TooManyBoxes 35) }
    ensures earlier { frames_within 1 true 24 size_7 ≡ Err (BadSize 24) }
{}

/// A second `meta` has its row alone. A fault of the file's boxes is told before a `meta` that is too
/// short, and this before a fault of the boxes in it.
pub fn metas_are_walked()
    ensures second { walk_at two_metas ≡ Ok (record { depth = 0; at = 0; kind = META; size = 12 } ∷ record { depth = 0; at = 12; kind = META; size = 8 } ∷ []) }
    ensures short { walk_at short_meta ≡ Err (BadRecord META 0) }
    ensures child { walk_at open_in_meta ≡ Err (OpenSize 12) }
    ensures file { walk_at (open_in_meta ++ 0 ∷ []) ≡ Err (Short 20) }
    ensures short_file { walk_at (short_meta ++ 0 ∷ []) ≡ Err (Short 11) }
{}

/// A box is written with its size in four bytes up to 2^32 - 1 bytes, header included, and from then
/// on in eight.
pub fn boxes_are_written()
    ensures compact { box free (170 ∷ 187 ∷ 204 ∷ []) ≡ compact_free }
    ensures compact_head { box_head free 4294967287 ≡ greatest_compact_head }
    ensures long_head { box_head free 4294967288 ≡ least_long_head }
    ensures compact_len { box_len 4294967287 ≡ 4294967295 }
    ensures long_len { box_len 4294967288 ≡ 4294967304 }
    ensures compact_head_len { head_len 4294967287 ≡ 8 }
    ensures long_head_len { head_len 4294967288 ≡ 16 }
{}

/// The parts of other boxes as they are written, and the literals in which texts on the format print bytes.
pub fn parts_are_written()
    ensures marked { bit true ≡ 1 }
    ensures unmarked { bit false ≡ 0 }
    ensures narrow { id_width false ≡ 2 }
    ensures wide { id_width true ≡ 4 }
    ensures narrow_version { id_version false ≡ 0 }
    ensures wide_version { id_version true ≡ 1 }
    ensures string { zero_ended (97 ∷ []) ≡ 97 ∷ 0 ∷ [] }
    ensures kind { free ≡ record { 0 = 102 ∷ 114 ∷ 101 ∷ 101 ∷ [] } }
    ensures digits { digits ≡ 1 ∷ 35 ∷ 69 ∷ 103 ∷ 137 ∷ 171 ∷ 205 ∷ 239 ∷ [] }
{}
