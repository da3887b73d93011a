//! Worked bodies of `ftyp`, `hdlr` and `pitm`, and their faults. Each is the contract of a function
//! that does nothing.

ghost use Rattle.std.specs.Prelude.{◌≡◌, ◌++◌, ◌∷◌, [], take, true, false, Ok, Err};
ghost use Rattle.hf_base.specs.declared.fault.ReadRefusal.TheVariants.{BadRecord, BadVersion, NotPicture};
ghost use Rattle.hf_base.specs.declared.kinds.TheConstants.{FTYP, HDLR, PITM};
ghost use Rattle.hf_head.specs.Ftyp.{ftyp_at, ftyp_body};
ghost use Rattle.hf_head.specs.Hdlr.{hdlr_at, hdlr_body};
ghost use Rattle.hf_head.specs.Pitm.{pitm_at, pitm_body};
ghost use Rattle.hf_head.specs.Worked.{worked_ftyp, worked_brands, lone_brand, worked_hdlr, video_hdlr, full_hdlr, worked_pitm, wide_pitm, later_pitm};

/// A major brand, a minor version and no or two compatible brands are read. A body that ends within
/// one of them is refused.
pub fn ftyp_is_read()
    ensures brands { ftyp_at 0 worked_ftyp ≡ Ok worked_brands }
    ensures lone { ftyp_at 0 (take 8 worked_ftyp) ≡ Ok lone_brand }
    ensures empty { ftyp_at 24 [] ≡ Err (BadRecord FTYP 24) }
    ensures major { ftyp_at 24 (take 3 worked_ftyp) ≡ Err (BadRecord FTYP 24) }
    ensures minor { ftyp_at 24 (take 7 worked_ftyp) ≡ Err (BadRecord FTYP 24) }
    ensures compatible { ftyp_at 24 (take 15 worked_ftyp) ≡ Err (BadRecord FTYP 24) }
    ensures written { ftyp_body worked_brands ≡ worked_ftyp }
{}

/// A handler of pictures is read whatever stands in the fields besides, and with no byte of a name. A
/// body that ends before its name is refused before another handler is.
pub fn hdlr_is_read()
    ensures picture { hdlr_at 0 worked_hdlr ≡ Ok tt }
    ensures fields { hdlr_at 0 full_hdlr ≡ Ok tt }
    ensures nameless { hdlr_at 0 (take 24 full_hdlr) ≡ Ok tt }
    ensures empty { hdlr_at 24 [] ≡ Err (BadRecord HDLR 24) }
    ensures short { hdlr_at 24 (take 23 worked_hdlr) ≡ Err (BadRecord HDLR 24) }
    ensures short_video { hdlr_at 24 (take 23 video_hdlr) ≡ Err (BadRecord HDLR 24) }
    ensures video { hdlr_at 24 (take 24 video_hdlr) ≡ Err NotPicture }
    ensures written { hdlr_body ≡ worked_hdlr }
{}

/// An id of two bytes is read in version 0 and one of four in version 1, whatever the flags are and
/// whatever stands behind. A body without its version and flags is refused, then a later version,
/// then a body without its id.
pub fn pitm_is_read()
    ensures narrow { pitm_at 0 worked_pitm ≡ Ok 258 }
    ensures wide { pitm_at 0 wide_pitm ≡ Ok 16909060 }
    ensures behind { pitm_at 0 (worked_pitm ++ 9 ∷ []) ≡ Ok 258 }
    ensures empty { pitm_at 24 [] ≡ Err (BadRecord PITM 24) }
    ensures no_flags { pitm_at 24 (take 3 later_pitm) ≡ Err (BadRecord PITM 24) }
    ensures later { pitm_at 24 later_pitm ≡ Err (BadVersion PITM 24) }
    ensures short { pitm_at 24 (take 5 worked_pitm) ≡ Err (BadRecord PITM 24) }
    ensures short_wide { pitm_at 24 (take 7 wide_pitm) ≡ Err (BadRecord PITM 24) }
    ensures written { pitm_body false 258 ≡ worked_pitm }
    ensures written_wide { pitm_body true 70000 ≡ 1 ∷ 0 ∷ 0 ∷ 0 ∷ 0 ∷ 1 ∷ 17 ∷ 112 ∷ [] }
{}
