//! `ftyp`: FileTypeBox of ISO/IEC 14496-12.

ghost use Rattle.std.specs.Prelude.{◌≡◌, ◌≤◌, ◌++◌, ℕ, List, true, length, IfOk, IsOkAnd};
ghost use Rattle.hf_base.specs.Reading.{Reads};
ghost use Rattle.hf_base.specs.declared.limits.TheConstants.{FILE};
ghost use Rattle.hf_box.specs.Head.{box};
ghost use Rattle.hf_desk.specs.Outside.{Outside};
ghost use Rattle.hf_desk.specs.Calls.{Puts};
ghost use Rattle.hf_desk.specs.Pages.{ByPut, Gives};
ghost use Rattle.hf_head.specs.Ftyp.{Brands as Stated, IsFtyp, brands_of, ftyp_at, ftyp_body};

use hf_base::kinds::FTYP;
use hf_base::{FourCc, ReadRefusal, be_put, front_kind, front32};
use hf_box::BoxView;
use hf_desk::{Desk, Page, Put, WriteFault};

/// The brands of a file (FileTypeBox of ISO/IEC 14496-12).
#[derive(Clone, Copy)]
pub struct Brands<'a> {
    /// The major brand.
    pub major: FourCc,
    /// The minor version.
    pub minor: u32,
    /// The compatible brands, four bytes each.
    pub compatible: &'a [u8],
}

/// The brands in a body, with the place of its box.
#[tactic(auto, unfolding(crate::specs::Ftyp::ftyp_at))]
fn brands_in<'a>(body: &'a [u8], at: u64) -> Result<Brands<'a>, ReadRefusal>
    ensures { Reads brands_of result (ftyp_at at body.now) }
{
    let short = ReadRefusal::BadRecord { kind: FTYP, at };
    let (major, rest) = front_kind(body, short)?;
    let (minor, compatible) = front32(rest, short)?;
    if compatible.len() % 4 != 0 {
        return Err(short);
    }
    Ok(Brands {
        major,
        minor,
        compatible,
    })
}

/// The same, of bytes.
fn ftyp_in<'a>(body: &'a [u8], at: u64) -> Result<Brands<'a>, ReadRefusal>
    ensures found { IfOk result (λ b. IsFtyp body.now (brands_of b)) }
    ensures only { (b : Stated) → IsFtyp body.now b → IsOkAnd result (λ r. brands_of r ≡ b) }
    ensures exact { Reads brands_of result (ftyp_at at body.now) }
{
    brands_in(body, at)
}

/// Reads the brands of a `ftyp`. BadRecord comes where the body is below eight bytes or its length
/// is no multiple of 4.
pub fn read_ftyp<'a>(view: &BoxView<'a>) -> Result<Brands<'a>, ReadRefusal>
    requires { view.now.kind ≡ FTYP }
    // What is read stands there.
    ensures found { IfOk result (λ b. IsFtyp view.now.body.now (brands_of b)) }
    // What stands there is read.
    ensures only { (b : Stated) → IsFtyp view.now.body.now b → IsOkAnd result (λ r. brands_of r ≡ b) }
    // Which refusal it is.
    ensures exact { Reads brands_of result (ftyp_at view.now.at view.now.body.now) }
{
    ftyp_in(view.body, view.at)
}

/// The header of a `ftyp` with `len` bytes of compatible brands, and the fields in front of them.
fn front_of(major: FourCc, minor: u32, len: u64) -> [u8; 16]
    requires { len ≤ FILE }
    ensures { (compatible : List ℕ) → length compatible ≡ len →
        result ++ compatible ≡ box FTYP (ftyp_body (record { major = major; minor = minor; compatible = compatible })) }
{
    let mut bytes = [0u8; 16];
    be_put(&mut bytes, 0, 4, len + 16);
    bytes[4..8].copy_from_slice(&FTYP.0);
    be_put(&mut bytes, 12, 4, minor as u64);
    bytes[8..12].copy_from_slice(&major.0);
    bytes
}

/// Gives a whole `ftyp` with these brands to a page. `WriteFault` comes only where the desk failed;
/// then some front of what the page held and of the box was put.
pub fn give_ftyp<D: Desk>(
    brands: &Brands<'_>,
    page: &mut Page<Put>,
    desk: &mut D,
) -> Result<(), WriteFault>
    requires creating { (D.outside desk.old).creating ≡ true }
    requires within { length brands.now.compatible.now ≤ FILE }
    ensures { Gives ByPut (D.outside desk.old) page.old (box FTYP (ftyp_body (brands_of brands.now))) result (D.outside desk.new) page.new }
{
    let front = front_of(brands.major, brands.minor, brands.compatible.len() as u64);
    page.give(&front, desk)?;
    page.give(brands.compatible, desk)
}

/// Puts a whole `ftyp` with these brands. `WriteFault` comes only where the desk failed; then some
/// front of the box was put.
pub fn put_ftyp<D: Desk>(brands: &Brands<'_>, desk: &mut D) -> Result<(), WriteFault>
    requires creating { (D.outside desk.old).creating ≡ true }
    requires within { length brands.now.compatible.now ≤ FILE }
    ensures { Puts (D.outside desk.old) (box FTYP (ftyp_body (brands_of brands.now))) result (D.outside desk.new) }
{
    let mut page = Page::new();
    give_ftyp(brands, &mut page, desk)?;
    page.end(desk)
}
