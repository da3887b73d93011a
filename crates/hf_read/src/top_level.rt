//! The boxes of a file, and those of its `meta` (ISO/IEC 14496-12: FileTypeBox, MetaBox).

ghost use Rattle.std.specs.Prelude.{◌≡◌, ◌<◌, ◌^◌, Some, IfOk, All};
ghost use Rattle.std.specs.Option.{option_map};
ghost use Rattle.hf_base.specs.Reading.{Reads, Gives};
ghost use Rattle.hf_box.specs.Boxes.{box_of, boxes_of, end_of};
ghost use Rattle.hf_box.specs.Walk.{children_at};
ghost use Rattle.hf_head.specs.Ftyp.{brands_of};
ghost use Rattle.hf_read.specs.TopLevel.{has_brand, has_mif1 as has_mif1_brand, found as find_box, ftyp_of as first_ftyp, brands_at};
ghost use Rattle.hf_read.specs.TopLevel.{inner_parts as parts_in_meta, meta_of as meta_box, parts_of as parts_stated, parts_with as stated_with};
ghost use Rattle.hf_base.specs.declared.fault.ReadRefusal.TheVariants.{Missing};
ghost use Rattle.hf_read.specs.Seen.{parts_seen, HaveKinds, IsBoxOf};

use crate::level::{check_children, check_top, first_of};
use crate::meta::MetaParts;
use hf_base::kinds::{FTYP, GRPL, HDLR, IDAT, IINF, ILOC, IPRP, IREF, META, MIF1, PITM};
use hf_base::{FourCc, OpenFault, ReadRefusal, four_at};
use hf_box::{BoxView, read_boxes};
use hf_head::{Brands, read_ftyp};
use std::alloc::Global;

/// Whether the brand is among those that take four bytes each.
fn has_compatible(brand: FourCc, compatible: &[u8]) -> bool
    ensures { result ≡ has_brand brand.0 compatible.now }
{
    let mut rest = compatible;
    while rest.len() >= 4 {
        if four_at(rest, 0) == brand {
            return true;
        }
        rest = &rest[4..];
    }
    false
}

/// Whether `mif1` is the major or a compatible brand.
fn has_mif1(brands: &Brands<'_>) -> bool
    ensures { result ≡ has_mif1_brand (brands_of brands.now) }
{
    brands.major == MIF1 || has_compatible(MIF1, brands.compatible)
}

/// The first box, which must be `ftyp`.
fn ftyp_of<'a>(boxes: &[BoxView<'a>]) -> Result<BoxView<'a>, ReadRefusal>
    ensures exact { Reads box_of result (first_ftyp (boxes_of boxes.now)) }
    ensures kind { IfOk result (λ b. b.kind ≡ FTYP) }
{
    if boxes.is_empty() || boxes[0].kind != FTYP {
        return Err(ReadRefusal::NoFtyp);
    }
    Ok(boxes[0])
}

/// The brands of the file, which must have `mif1` among them.
#[tactic(auto, unfolding(crate::specs::TopLevel::brands_at))]
pub fn brands_of<'a>(boxes: &[BoxView<'a>]) -> Result<Brands<'a>, ReadRefusal>
    ensures { Reads brands_of result (brands_at (boxes_of boxes.now)) }
{
    let ftyp = ftyp_of(boxes)?;
    let brands = read_ftyp(&ftyp)?;
    if !has_mif1(&brands) {
        return Err(ReadRefusal::NotMif1);
    }
    Ok(brands)
}

/// The `meta` of the file. It refuses the first box that is a movie or a second `ftyp` or `meta`, and
/// then a file without a `meta`.
#[tactic(auto, unfolding(crate::specs::TopLevel::meta_of))]
fn meta_of<'a>(alloc: Global, boxes: &[BoxView<'a>]) -> Result<BoxView<'a>, OpenFault>
    requires { All (λ b. end_of (box_of b) < 2 ^ 64) boxes.now }
    ensures exact { Gives box_of result (meta_box (boxes_of boxes.now)) }
    ensures kind { IfOk result (λ b. b.kind ≡ META) }
    ensures within { IfOk result (λ b. end_of (box_of b) < 2 ^ 64) }
{
    check_top(alloc, boxes)?;
    match first_of(boxes, META) {
        Some(meta) => Ok(meta),
        None => Err(OpenFault::Unfit(ReadRefusal::NoMeta)),
    }
}

/// The boxes in a `meta`, behind its version and flags.
#[tactic(auto, unfolding(hf_box::specs::Walk::children_at))]
fn children_of<'a>(alloc: Global, meta: &BoxView<'a>) -> Result<Vec<BoxView<'a>>, OpenFault>
    requires place { end_of (box_of meta.now) < 2 ^ 64 }
    requires kind { meta.now.kind ≡ META }
    ensures exact { Gives (λ v. boxes_of v.items) result (children_at (box_of meta.now)) }
    ensures within { IfOk result (λ v. All (λ b. end_of (box_of b) < 2 ^ 64) v.items) }
{
    if meta.body.len() < 4 {
        return Err(OpenFault::Unfit(ReadRefusal::BadRecord {
            kind: META,
            at: meta.at,
        }));
    }
    read_boxes(
        alloc,
        &meta.body[4..],
        meta.at + u64::from(meta.head) + 4,
        false,
    )
}

/// The box that is found.
fn needed<'a>(found: Option<BoxView<'a>>, kind: FourCc) -> Result<BoxView<'a>, ReadRefusal>
    ensures exact { Reads box_of result (find_box (Missing kind) (option_map box_of found.entry)) }
    ensures same { IfOk result (λ b. found.entry ≡ Some b) }
{
    found.ok_or(ReadRefusal::Missing { kind })
}

/// The boxes of `meta` that are read, with these of the types that it must have.
fn parts_with<'a>(
    children: &[BoxView<'a>],
    hdlr: BoxView<'a>,
    pitm: BoxView<'a>,
    iinf: BoxView<'a>,
) -> MetaParts<'a>
    requires within { All (λ b. end_of (box_of b) < 2 ^ 64) children.now }
    requires hdlr { IsBoxOf HDLR hdlr }
    requires pitm { IsBoxOf PITM pitm }
    requires iinf { IsBoxOf IINF iinf }
    ensures seen { parts_seen result ≡ stated_with (boxes_of children.now) (box_of hdlr.entry) (box_of pitm.entry) (box_of iinf.entry) }
    ensures kinds { HaveKinds result }
{
    MetaParts {
        hdlr,
        pitm,
        iinf,
        iloc: first_of(children, ILOC),
        iref: first_of(children, IREF),
        iprp: first_of(children, IPRP),
        grpl: first_of(children, GRPL),
        idat: first_of(children, IDAT),
    }
}

/// The boxes of `meta` that are read. It refuses the first child that is not accepted or is a
/// second one, and then `meta` without a `hdlr`, `pitm` or `iinf`.
#[tactic(auto, unfolding(crate::specs::TopLevel::parts_of))]
fn parts_of<'a>(alloc: Global, children: &[BoxView<'a>]) -> Result<MetaParts<'a>, OpenFault>
    requires { All (λ b. end_of (box_of b) < 2 ^ 64) children.now }
    ensures exact { Gives parts_seen result (parts_stated (boxes_of children.now)) }
    ensures kinds { IfOk result HaveKinds }
{
    check_children(alloc, children)?;
    let hdlr = needed(first_of(children, HDLR), HDLR)?;
    let pitm = needed(first_of(children, PITM), PITM)?;
    let iinf = needed(first_of(children, IINF), IINF)?;
    Ok(parts_with(children, hdlr, pitm, iinf))
}

/// The boxes that are read of the `meta` of a file with these boxes. It refuses what `meta_of`,
/// `children_of` and `parts_of` refuse, in this order.
#[tactic(auto, unfolding(crate::specs::TopLevel::inner_parts))]
pub fn meta_parts<'a>(alloc: Global, boxes: &[BoxView<'a>]) -> Result<MetaParts<'a>, OpenFault>
    requires { All (λ b. end_of (box_of b) < 2 ^ 64) boxes.now }
    ensures exact { Gives parts_seen result (parts_in_meta (boxes_of boxes.now)) }
    ensures kinds { IfOk result HaveKinds }
{
    let meta = meta_of(alloc, boxes)?;
    let children = children_of(alloc, &meta)?;
    parts_of(alloc, &children)
}
