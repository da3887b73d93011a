//! The boxes of a list: the first of a type, and types that may stand once.

ghost use Rattle.std.specs.Prelude.{◌≡◌, ◌<◌, ◌^◌, ◌++◌, [], ◌∷◌, List, IfSome, OnOk, All};
ghost use Rattle.std.specs.Option.{option_map};
ghost use Rattle.hf_base.specs.Reading.{Reads, Gives};
ghost use Rattle.hf_box.specs.Boxes.{BoxAt, box_of, boxes_of, end_of};
ghost use Rattle.hf_read.specs.Level.{Knows};
ghost use Rattle.hf_read.specs.TopLevel.{is_among as is_one_of, first_of as first_box, double_fault, movie_fault, top_box_fault};
ghost use Rattle.hf_read.specs.TopLevel.{top_once, banned_fault, child_fault, once, first_fault};

use hf_base::kinds::{
    BXML, FTYP, GRPL, HDLR, IDAT, IINF, ILOC, IPRO, IPRP, IREF, META, MOOF, MOOV, PITM, XML,
};
use hf_base::{FourCc, OpenFault, ReadRefusal};
use hf_box::BoxView;
use std::alloc::Global;

/// The types of which a file has at most one box.
const TOP_ONCE: [FourCc; 2] = [FTYP, META];

/// The types of which `meta` has at most one box.
const ONCE: [FourCc; 8] = [HDLR, PITM, IINF, ILOC, IREF, IPRP, GRPL, IDAT];

/// Whether the type is one of these.
fn is_among(kinds: &[FourCc], kind: FourCc) -> bool
    ensures { result ≡ is_one_of kinds.now kind }
{
    for k in kinds {
        if kind == *k {
            return true;
        }
    }
    false
}

/// The first box of a type.
pub fn first_of<'a>(boxes: &[BoxView<'a>], kind: FourCc) -> Option<BoxView<'a>>
    requires { All (λ b. end_of (box_of b) < 2 ^ 64) boxes.now }
    ensures first { option_map box_of result ≡ first_box kind (boxes_of boxes.now) }
    ensures kind { IfSome result (λ b. b.kind ≡ kind) }
    ensures within { IfSome result (λ b. end_of (box_of b) < 2 ^ 64) }
{
    for b in boxes {
        if b.kind == kind {
            return Some(*b);
        }
    }
    None
}

/// Refuses a second box of a type that may stand once, and keeps its type otherwise.
fn note(seen: &mut Vec<FourCc>, once: &[FourCc], b: &BoxView<'_>) -> Result<(), OpenFault>
    ensures exact { (before : List BoxAt) → Knows once.now seen.old.items before
        → Gives (λ x. x) result (double_fault once.now before (box_of b.now)) }
    ensures keeps { (before : List BoxAt) → Knows once.now seen.old.items before
        → OnOk result (Knows once.now seen.new.items (before ++ box_of b.now ∷ [])) }
{
    if !is_among(once, b.kind) {
        return Ok(());
    }
    if is_among(seen, b.kind) {
        return Err(OpenFault::Unfit(ReadRefusal::Double {
            kind: b.kind,
            at: b.at,
        }));
    }
    seen.push(b.kind)?;
    Ok(())
}

/// Refuses a movie.
fn movie(b: &BoxView<'_>) -> Result<(), ReadRefusal>
    ensures { Reads (λ x. x) result (movie_fault (box_of b.now)) }
{
    if b.kind == MOOV || b.kind == MOOF {
        return Err(ReadRefusal::Movie { at: b.at });
    }
    Ok(())
}

/// A box of the file behind those whose types were met.
fn top_box(seen: &mut Vec<FourCc>, b: &BoxView<'_>) -> Result<(), OpenFault>
    ensures exact { (before : List BoxAt) → Knows top_once seen.old.items before
        → Gives (λ x. x) result (top_box_fault before (box_of b.now)) }
    ensures keeps { (before : List BoxAt) → Knows top_once seen.old.items before
        → OnOk result (Knows top_once seen.new.items (before ++ box_of b.now ∷ [])) }
{
    movie(b)?;
    note(seen, &TOP_ONCE, b)
}

/// Refuses the boxes of `meta` that are not accepted.
fn banned(b: &BoxView<'_>) -> Result<(), ReadRefusal>
    ensures { Reads (λ x. x) result (banned_fault (box_of b.now)) }
{
    if b.kind == IPRO {
        return Err(ReadRefusal::ProtectionBox { at: b.at });
    }
    if b.kind == XML || b.kind == BXML {
        return Err(ReadRefusal::Xml { at: b.at });
    }
    Ok(())
}

/// A box of `meta` behind those whose types were met.
fn child_box(seen: &mut Vec<FourCc>, b: &BoxView<'_>) -> Result<(), OpenFault>
    ensures exact { (before : List BoxAt) → Knows once seen.old.items before
        → Gives (λ x. x) result (child_fault before (box_of b.now)) }
    ensures keeps { (before : List BoxAt) → Knows once seen.old.items before
        → OnOk result (Knows once seen.new.items (before ++ box_of b.now ∷ [])) }
{
    banned(b)?;
    note(seen, &ONCE, b)
}

/// Refuses the first box of the file that is a movie, or a second `ftyp` or `meta`.
pub fn check_top(alloc: Global, boxes: &[BoxView<'_>]) -> Result<(), OpenFault>
    ensures { Gives (λ x. x) result (first_fault top_box_fault [] (boxes_of boxes.now)) }
{
    let mut seen = Vec::new(alloc);
    for b in boxes {
        top_box(&mut seen, b)?;
    }
    Ok(())
}

/// Refuses the first box of `meta` that is not accepted, or a second one of a type that is read.
pub fn check_children(alloc: Global, boxes: &[BoxView<'_>]) -> Result<(), OpenFault>
    ensures { Gives (λ x. x) result (first_fault child_fault [] (boxes_of boxes.now)) }
{
    let mut seen = Vec::new(alloc);
    for b in boxes {
        child_box(&mut seen, b)?;
    }
    Ok(())
}
