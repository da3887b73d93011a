//! Laws of the definitions. Each is the contract of a function that does nothing.

ghost use Rattle.std.specs.Prelude.{◌≡◌, ◌↔◌, ◌%◌, ◌^◌, ◌<◌, ℕ, Bool, List, length, Ok};
ghost use Rattle.hf_base.specs.Number.{IsBytes};
ghost use Rattle.hf_box.specs.Written.{id_width};
ghost use Rattle.hf_head.specs.Ftyp.{Brands, IsFtyp, ftyp_at, ftyp_body};
ghost use Rattle.hf_head.specs.Hdlr.{IsHdlr, hdlr_at, hdlr_body};
ghost use Rattle.hf_head.specs.Pitm.{IsPitm, pitm_at, pitm_body};

/// Reading from left to right finds exactly the brands of a `ftyp` body.
pub fn ftyp_is_its_program()
    ensures { (at : ℕ) (body : List ℕ) (b : Brands) → IsBytes body → IsFtyp body b ↔ (ftyp_at at body ≡ Ok b) }
{}

/// Reading from left to right finds exactly the `hdlr` bodies with the handler of pictures.
pub fn hdlr_is_its_program()
    ensures { (at : ℕ) (body : List ℕ) → IsBytes body → IsHdlr body ↔ (hdlr_at at body ≡ Ok tt) }
{}

/// Reading from left to right finds exactly the id of a `pitm` body.
pub fn pitm_is_its_program()
    ensures { (at : ℕ) (body : List ℕ) (id : ℕ) → IsBytes body → IsPitm body id ↔ (pitm_at at body ≡ Ok id) }
{}

/// A `ftyp` body has at most one set of brands.
pub fn brands_are_unique()
    ensures { (body : List ℕ) (some other : Brands) → IsFtyp body some → IsFtyp body other → some ≡ other }
{}

/// A `pitm` body names at most one item.
pub fn primary_is_unique()
    ensures { (body : List ℕ) (some other : ℕ) → IsPitm body some → IsPitm body other → some ≡ other }
{}

/// The bodies as they are written are bodies of their values.
pub fn written_bodies_are_bodies()
    ensures ftyp { (b : Brands) → length b.major.0 ≡ 4 → b.minor < 256 ^ 4 → length b.compatible % 4 ≡ 0 → IsFtyp (ftyp_body b) b }
    ensures hdlr { IsHdlr hdlr_body }
    ensures pitm { (wide : Bool) (id : ℕ) → id < 256 ^ id_width wide → IsPitm (pitm_body wide id) id }
{}
