//! `iref`: ItemReferenceBox of ISO/IEC 14496-12.

ghost use Rattle.std.specs.Prelude.{◌≡◌, ◌⊎◌, ◌<◌, ◌≤◌, ◌+◌, ◌^◌, ◌++◌, ℕ, List, [], true, false, length, IfOk, All};
ghost use Rattle.std.specs.List.{flat_map};
ghost use Rattle.hf_base.specs.Number.{num};
ghost use Rattle.hf_base.specs.Reading.{Gives, MatchOpen};
ghost use Rattle.hf_base.specs.declared.kinds.TheConstants.{IREF};
ghost use Rattle.hf_base.specs.declared.limits.TheConstants.{LINKS, ROWS};
ghost use Rattle.hf_base.specs.declared.loc.RefBox.{RefBox as Stated};
ghost use Rattle.hf_box.specs.Boxes.{BoxAt, box_of, end_of};
ghost use Rattle.hf_box.specs.Head.{box};
ghost use Rattle.hf_box.specs.Tables.{boxes_from};
ghost use Rattle.hf_box.specs.Written.{id_width as written_width};
ghost use Rattle.hf_desk.specs.Outside.{Outside};
ghost use Rattle.hf_desk.specs.Calls.{Puts};
ghost use Rattle.hf_desk.specs.Pages.{ByPut, Gives as GivesTo};
ghost use Rattle.hf_links.specs.Iref.{IsIrefWithin, iref_at, reference_body, ref_box_at, with_ref_box};

use crate::ids::{front_ids, give_ids};
use hf_base::kinds::IREF;
use hf_base::limits::ROWS;
use hf_base::{
    FourCc, Ids, OpenFault, ReadRefusal, RefBox, be_put, front_id, front_version, front16, id_width,
};
use hf_box::{BoxView, InnerBoxes};
use hf_desk::{Desk, Page, Put, WriteFault};
use std::alloc::Global;

/// The references of an inner box (SingleItemTypeReferenceBox) with ids of `width` bytes, behind so many
/// rows.
#[tactic(auto, unfolding(crate::specs::Iref::ref_box_at))]
fn link_in(alloc: Global, width: u8, rows: usize, view: &BoxView<'_>) -> Result<RefBox, OpenFault>
    requires width { (width ≡ 2) ⊎ (width ≡ 4) }
    requires rows { rows ≤ ROWS }
    ensures exact { Gives (λ r. r) result (ref_box_at width rows (box_of view.now)) }
    ensures within { IfOk result (λ r. rows + 1 + length r.to ≤ ROWS) }
{
    let at = view.at;
    let short = ReadRefusal::BadRecord { kind: IREF, at };
    let (from, rest) = front_id(width, view.body, short)?;
    let (count, rest) = front16(rest, short)?;
    if rows + 1 + count as usize > ROWS {
        return Err(OpenFault::Unfit(ReadRefusal::TooLarge { kind: IREF, at }));
    }
    let (to, _) = front_ids(alloc, width, count as u32, rest, short)?;
    Ok(RefBox {
        kind: view.kind,
        from,
        to,
    })
}

/// The references of all these boxes, with ids of `width` bytes.
fn links_in(alloc: Global, width: u8, mut boxes: InnerBoxes<'_>) -> Result<Vec<RefBox>, OpenFault>
    requires { (width ≡ 2) ⊎ (width ≡ 4) }
    ensures { Gives (λ links. links.items) result (boxes_from (with_ref_box width) [] boxes.entry) }
{
    let mut links = Vec::with_capacity(alloc, boxes.len())?;
    let mut rows = 0;
    while let Some(view) = boxes.next() {
        let link = link_in(alloc, width, rows, &view)?;
        rows += 1 + link.to.len();
        links.push(link)?;
    }
    Ok(links)
}

/// The references of a box.
#[tactic(auto, unfolding(crate::specs::Iref::iref_at))]
fn links_of(alloc: Global, view: &BoxView<'_>) -> Result<Vec<RefBox>, OpenFault>
    requires { end_of (box_of view.now) < 2 ^ 64 }
    ensures { Gives (λ links. links.items) result (iref_at (box_of view.now)) }
{
    let at = view.at;
    let short = ReadRefusal::BadRecord { kind: IREF, at };
    let (version, _flags, inner) = front_version(view.body, short)?;
    let width = id_width(0, version, ReadRefusal::BadVersion { kind: IREF, at })?;
    let boxes = InnerBoxes::of(inner, at + u64::from(view.head) + 4)?;
    links_in(alloc, width, boxes)
}

/// The same, of a body of bytes.
fn iref_in(
    alloc: Global,
    kind: FourCc,
    at: u64,
    head: u8,
    body: &[u8],
) -> Result<Vec<RefBox>, OpenFault>
    requires { at + head + length body.now < 2 ^ 64 }
    ensures found { let b : BoxAt = record { kind = kind; at = at; head = head; body = body.now } in IfOk result (λ links. IsIrefWithin b links.items) }
    ensures only { let b : BoxAt = record { kind = kind; at = at; head = head; body = body.now } in (links : List Stated) → IsIrefWithin b links → MatchOpen result (λ read. read.items ≡ links) (λ fault. ⊥) }
    ensures exact { let b : BoxAt = record { kind = kind; at = at; head = head; body = body.now } in Gives (λ links. links.items) result (iref_at b) }
{
    let view = BoxView {
        kind,
        at,
        head,
        body,
    };
    links_of(alloc, &view)
}

/// Reads the references of an `iref`, one list for each inner box, in file order.
///
/// BadRecord comes where the body is below four bytes, then BadVersion where the version is above 1,
/// then the faults of `read_boxes` for the inner boxes, and then, for each of them and with its place,
/// BadRecord where it is too short for its fields, and TooLarge where inner boxes and ids pass `ROWS`,
/// which is this project's own limit.
pub fn read_iref(alloc: Global, view: &BoxView<'_>) -> Result<Vec<RefBox>, OpenFault>
    requires kind { view.now.kind ≡ IREF }
    requires place { end_of (box_of view.now) < 2 ^ 64 }
    // What is read stands there.
    ensures found { IfOk result (λ links. IsIrefWithin (box_of view.now) links.items) }
    // What stands there is read.
    ensures only { (links : List Stated) → IsIrefWithin (box_of view.now) links → MatchOpen result (λ read. read.items ≡ links) (λ fault. ⊥) }
    // Which refusal it is.
    ensures exact { Gives (λ links. links.items) result (iref_at (box_of view.now)) }
{
    iref_in(alloc, view.kind, view.at, view.head, view.body)
}

/// The header of a box of references with so many ids of two bytes, and the fields in front of them.
fn narrow_front(kind: FourCc, from: u32, count: usize) -> [u8; 12]
    requires from { from < 256 ^ 2 }
    requires count { count ≤ LINKS }
    ensures { (to : List ℕ) → length to ≡ count → result ++ flat_map (λ id. num id 2) to ≡ box kind (reference_body false from to) }
{
    let mut bytes = [0u8; 12];
    be_put(&mut bytes, 0, 4, 12 + 2 * count as u64);
    be_put(&mut bytes, 8, 2, from as u64);
    be_put(&mut bytes, 10, 2, count as u64);
    bytes[4..8].copy_from_slice(&kind.0);
    bytes
}

/// The same with ids of four bytes.
fn wide_front(kind: FourCc, from: u32, count: usize) -> [u8; 14]
    requires { count ≤ LINKS }
    ensures { (to : List ℕ) → length to ≡ count → result ++ flat_map (λ id. num id 4) to ≡ box kind (reference_body true from to) }
{
    let mut bytes = [0u8; 14];
    be_put(&mut bytes, 0, 4, 14 + 4 * count as u64);
    be_put(&mut bytes, 8, 4, from as u64);
    be_put(&mut bytes, 12, 2, count as u64);
    bytes[4..8].copy_from_slice(&kind.0);
    bytes
}

/// Gives the header of a box of references, and the fields in front of its ids, to a page.
fn give_front<D: Desk>(
    kind: FourCc,
    from: u32,
    count: usize,
    wide: bool,
    page: &mut Page<Put>,
    desk: &mut D,
) -> Result<(), WriteFault>
    requires creating { (D.outside desk.old).creating ≡ true }
    requires count { count ≤ LINKS }
    requires from { from < 256 ^ written_width wide }
    ensures { (front : List ℕ) × GivesTo ByPut (D.outside desk.old) page.old front result (D.outside desk.new) page.new × ((to : List ℕ) → length to ≡ count → front ++ flat_map (λ id. num id (written_width wide)) to ≡ box kind (reference_body wide from to)) }
{
    if wide {
        return page.give(&wide_front(kind, from, count), desk);
    }
    page.give(&narrow_front(kind, from, count), desk)
}

/// Gives a whole box of references (SingleItemTypeReferenceBox) to a page: their type, the id of the
/// item that has them, and the ids that they lead to, which take four bytes where `wide` and two
/// otherwise. `WriteFault` comes only where the desk failed; then some front of what the page held and
/// of the box was put.
pub fn give_ref<D: Desk>(
    kind: FourCc,
    from: u32,
    to: &Ids,
    wide: bool,
    page: &mut Page<Put>,
    desk: &mut D,
) -> Result<(), WriteFault>
    requires creating { (D.outside desk.old).creating ≡ true }
    requires count { length to.now ≤ LINKS }
    requires from { from < 256 ^ written_width wide }
    requires fits { wide ≡ false → All (λ id. id < 256 ^ 2) to.now }
    ensures { GivesTo ByPut (D.outside desk.old) page.old (box kind (reference_body wide from to.now)) result (D.outside desk.new) page.new }
{
    give_front(kind, from, to.len(), wide, page, desk)?;
    give_ids(to.as_slice(), wide, page, desk)
}

/// Puts a whole box of references (SingleItemTypeReferenceBox), as `give_ref` gives it to a page.
/// `WriteFault` comes only where the desk failed; then some front of the box was put.
pub fn put_ref<D: Desk>(
    kind: FourCc,
    from: u32,
    to: &Ids,
    wide: bool,
    desk: &mut D,
) -> Result<(), WriteFault>
    requires creating { (D.outside desk.old).creating ≡ true }
    requires count { length to.now ≤ LINKS }
    requires from { from < 256 ^ written_width wide }
    requires fits { wide ≡ false → All (λ id. id < 256 ^ 2) to.now }
    ensures { Puts (D.outside desk.old) (box kind (reference_body wide from to.now)) result (D.outside desk.new) }
{
    let mut page = Page::new();
    give_ref(kind, from, to, wide, &mut page, desk)?;
    page.end(desk)
}
