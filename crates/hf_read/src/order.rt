//! Small files with two faults, of which the first in order is told. Each is the contract of a function
//! that does nothing.

ghost use Rattle.std.specs.Prelude.{◌++◌, [], codes};
ghost use Rattle.hf_base.specs.Number.{num};
ghost use Rattle.hf_base.specs.declared.fault.ReadRefusal.TheVariants.{BadDerived, BadMethod, BadProperty, BadRecord, BadVersion, BadWidth};
ghost use Rattle.hf_base.specs.declared.fault.ReadRefusal.TheVariants.{DanglingNeed, DeriveCycle, Double, DoubleAssoc, DoubleGroup, DoubleItem};
ghost use Rattle.hf_base.specs.declared.fault.ReadRefusal.TheVariants.{DoubleLocation, Missing, Movie, NoPrimary, NotMif1, NotPicture, OutOfFile};
ghost use Rattle.hf_base.specs.declared.fault.ReadRefusal.TheVariants.{ProtectionBox, Protected, Short, Xml, ZeroId};
ghost use Rattle.hf_base.specs.declared.kinds.TheConstants.{FTYP, META, HDLR, PITM, IINF, INFE, ILOC, IREF, IPCO, IPMA, GRPL};
ghost use Rattle.hf_box.specs.Literals.{hex_of};
ghost use Rattle.hf_read.specs.SmallFiles.{Refuses, boxed, full_boxed, ftyp, hdlr, pitm, iinf, infe, iloc, entry, part, iref, reference, ipma, group};
ghost use Rattle.hf_read.specs.SmallFiles.{meta, file_of, with_two};

/// Framing of the whole file, then its boxes in file order, then those of `meta`.
pub fn top_level_comes_first()
    ensures framing { Refuses (boxed "free" [] ++ num 0 1) (Short 8) }
    ensures framing_of_the_last { Refuses (ftyp "heic" "heic" ++ boxed "moov" [] ++ num 0 1) (Short 28) }
    ensures brands { Refuses (ftyp "heic" "mi" ++ boxed "moov" []) (BadRecord FTYP 0) }
    ensures mif1 { Refuses (ftyp "heic" "heic" ++ boxed "moov" []) NotMif1 }
    ensures movie { Refuses (ftyp "heic" "mif1" ++ boxed "moov" [] ++ ftyp "heic" "mif1") (Movie 20) }
    ensures ftyp { Refuses (ftyp "heic" "mif1" ++ ftyp "heic" "mif1" ++ boxed "moov" []) (Double FTYP 20) }
    ensures movie_behind_meta { Refuses (ftyp "heic" "mif1" ++ boxed "meta" (num 0 3) ++ boxed "moof" []) (Movie 31) }
    ensures second_meta { Refuses (ftyp "heic" "mif1" ++ boxed "meta" (num 0 3) ++ meta []) (Double META 31) }
{}

/// Framing of `meta`, then its boxes in file order, then those that are missing, then their bodies.
pub fn children_come_in_order()
    ensures framing { Refuses (file_of (boxed "ipro" [] ++ num 0 1)) (Short 40) }
    ensures protection { Refuses (file_of (boxed "ipro" [] ++ boxed "xml " [])) (ProtectionBox 32) }
    ensures xml { Refuses (file_of (boxed "bxml" [] ++ boxed "ipro" [])) (Xml 32) }
    ensures second { Refuses (file_of (pitm 1 ++ pitm 1 ++ boxed "ipro" [])) (Double PITM 46) }
    ensures hdlr { Refuses (file_of []) (Missing HDLR) }
    ensures pitm { Refuses (file_of (boxed "hdlr" [])) (Missing PITM) }
    ensures iinf { Refuses (file_of (boxed "hdlr" [] ++ boxed "pitm" [])) (Missing IINF) }
{}

/// The handler, the primary item, the entries on items, and whether the primary item is there.
pub fn records_come_in_order()
    ensures short_hdlr { Refuses (file_of (full_boxed "hdlr" 0 (num 0 4 ++ codes "vide") ++ pitm 1 ++ iinf 1 (infe 1 "hvc1"))) (BadRecord HDLR 32) }
    ensures handler { Refuses (file_of (hdlr "vide" ++ boxed "pitm" [] ++ iinf 1 (infe 1 "hvc1"))) NotPicture }
    ensures pitm_version { Refuses (file_of (hdlr "pict" ++ full_boxed "pitm" 2 [] ++ boxed "iinf" [])) (BadVersion PITM 65) }
    ensures iinf_version { Refuses (file_of (hdlr "pict" ++ pitm 9 ++ full_boxed "iinf" 2 [])) (BadVersion IINF 79) }
    ensures iinf_framing { Refuses (file_of (hdlr "pict" ++ pitm 9 ++ iinf 5 (infe 0 "hvc1" ++ num 0 1))) (Short 114) }
    ensures count { Refuses (file_of (hdlr "pict" ++ pitm 9 ++ iinf 5 (infe 0 "hvc1"))) (BadRecord IINF 79) }
    ensures first_entry { Refuses (file_of (hdlr "pict" ++ pitm 9 ++ iinf 2 (infe 0 "hvc1" ++ boxed "infe" []))) (ZeroId 93) }
    ensures infe_version { Refuses (file_of (hdlr "pict" ++ pitm 9 ++ iinf 1 (full_boxed "infe" 1 []))) (BadVersion INFE 93) }
    ensures short_infe { Refuses (file_of (hdlr "pict" ++ pitm 9 ++ iinf 1 (full_boxed "infe" 2 (num 0 2)))) (BadRecord INFE 93) }
    ensures zero_id { Refuses (file_of (hdlr "pict" ++ pitm 9 ++ iinf 1 (full_boxed "infe" 2 (num 0 2 ++ num 1 2 ++ codes "hvc1")))) (ZeroId 93) }
    ensures protected { Refuses (file_of (hdlr "pict" ++ pitm 9 ++ iinf 2 (infe 1 "hvc1" ++ full_boxed "infe" 2 (num 1 2 ++ num 1 2 ++ codes "hvc1")))) (Protected 1) }
    ensures second_entry { Refuses (file_of (hdlr "pict" ++ pitm 9 ++ iinf 2 (infe 1 "hvc1" ++ infe 1 "hvc1"))) (DoubleItem 1) }
    ensures primary { Refuses (file_of (hdlr "pict" ++ pitm 9 ++ iinf 1 (infe 1 "hvc1") ++ boxed "iloc" [])) (NoPrimary 9) }
{}

/// `iloc`, `iref` and what is needed, `iprp` and what is associated, `grpl`, wherever they stand.
pub fn tables_come_in_order()
    ensures iloc_version { Refuses (with_two "hvc1" (full_boxed "iloc" 3 [] ++ boxed "iref" [])) (BadVersion ILOC 135) }
    ensures iloc_fields { Refuses (with_two "hvc1" (full_boxed "iloc" 1 (hex_of "5555") ++ boxed "iref" [])) (BadRecord ILOC 135) }
    ensures iloc_widths { Refuses (with_two "hvc1" (full_boxed "iloc" 1 (hex_of "5500" ++ num 1 2) ++ boxed "iref" [])) (BadWidth 135) }
    ensures iloc_parts { Refuses (with_two "hvc1" (iloc 2 (entry 9 0 0 [] ++ entry 9 0 1 []) ++ boxed "iref" [])) (BadRecord ILOC 135) }
    ensures iloc_ids { Refuses (with_two "hvc1" (boxed "iref" [] ++ iloc 3 (entry 9 0 0 [] ++ entry 9 0 0 [] ++ num 0 1))) (DoubleLocation 9) }
    ensures iref_version { Refuses (with_two "hvc1" (full_boxed "iref" 2 (num 0 1) ++ boxed "iprp" (num 0 1))) (BadVersion IREF 135) }
    ensures iref_framing { Refuses (with_two "hvc1" (boxed "iprp" (num 0 1) ++ iref (boxed "cdsc" [] ++ num 0 1))) (Short 164) }
    ensures references { Refuses (with_two "hvc1" (boxed "iprp" (num 0 1) ++ iref (reference "dimg" 2 9 ++ boxed "cdsc" []))) (BadRecord IREF 170) }
    ensures needs { Refuses (with_two "hvc1" (boxed "iprp" (num 0 1) ++ iref (reference "dimg" 2 9))) (DanglingNeed 2) }
    ensures iprp_framing { Refuses (with_two "hvc1" (boxed "grpl" (num 0 1) ++ boxed "iprp" (boxed "ipco" [] ++ boxed "ipco" [] ++ num 0 1))) (Short 168) }
    ensures second_ipco { Refuses (with_two "hvc1" (boxed "iprp" (boxed "ipma" [] ++ boxed "ipco" (num 0 1) ++ boxed "ipco" []))) (Double IPCO 160) }
    ensures ipco_framing { Refuses (with_two "hvc1" (boxed "iprp" (boxed "ipma" [] ++ boxed "ipco" (num 0 1)))) (Short 159) }
    ensures first_ipma { Refuses (with_two "hvc1" (boxed "iprp" (ipma 1 (num 1 2 ++ num 1 1) ++ full_boxed "ipma" 2 []))) (BadRecord IPMA 143) }
    ensures ipma_version { Refuses (with_two "hvc1" (boxed "iprp" (full_boxed "ipma" 2 []))) (BadVersion IPMA 143) }
    ensures associations { Refuses (with_two "hvc1" (boxed "iprp" (ipma 2 (num 1 2 ++ num 0 1 ++ num 1 2 ++ num 1 1)))) (BadRecord IPMA 143) }
    ensures ipma_ids { Refuses (with_two "hvc1" (boxed "iprp" (ipma 2 (num 1 2 ++ num 1 1 ++ num 9 1 ++ num 1 2 ++ num 0 1)))) (DoubleAssoc 1) }
    ensures picks { Refuses (with_two "hvc1" (boxed "grpl" (num 0 1) ++ boxed "iprp" (ipma 1 (num 1 2 ++ num 1 1 ++ num 9 1)))) (BadProperty 1) }
    ensures grpl_framing { Refuses (with_two "iden" (boxed "grpl" (boxed "altr" [] ++ num 0 1) ++ iloc 1 (entry 2 3 0 []))) (Short 151) }
    ensures entities { Refuses (with_two "iden" (boxed "grpl" (group 5 0 [] ++ group 5 1 []) ++ iloc 1 (entry 2 3 0 []))) (BadRecord GRPL 163) }
    ensures group_ids { Refuses (with_two "iden" (boxed "grpl" (group 5 0 [] ++ group 5 0 []) ++ iloc 1 (entry 2 3 0 []))) (DoubleGroup 5) }
{}

/// Places of bytes, whether derived items fit, and whether they are made of themselves.
pub fn places_come_before_derived_items()
    ensures method { Refuses (with_two "iden" (iloc 1 (entry 2 3 0 []))) (BadMethod 2) }
    ensures end_of_file { Refuses (with_two "iden" (iloc 1 (entry 2 0 1 (part 0 999)))) (OutOfFile 2) }
    ensures misfit { Refuses (with_two "iden" (iref (reference "dimg" 1 1))) (BadDerived 2) }
    ensures circle { Refuses (with_two "iden" (iref (reference "dimg" 1 1 ++ reference "dimg" 2 1))) (DeriveCycle 1) }
{}
