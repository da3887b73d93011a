//! The rows of a file: its boxes, and the boxes in its `meta`.

ghost use Rattle.std.specs.Prelude.{◌≡◌, ◌≢◌, ◌+◌, ◌^◌, ◌<◌, ◌≤◌, ◌++◌, length, map, take, drop, All, IfOk, OnOk, OnErr, slice_get, Some};
ghost use Rattle.std.specs.List.{AllByRecursion};
ghost use Rattle.hf_base.specs.Reading.{Gives, MatchOpen};
ghost use Rattle.hf_box.specs.Boxes.{box_of, boxes_of, end_of};
ghost use Rattle.hf_box.specs.Walk.{row_of, IsWalk, IsWalkFault, IsNotMeta, IsMetaAt, AreChildren, IsChildrenFault, walk_at};

use crate::read::read_boxes;
use crate::view::{BoxRow, BoxView};
use hf_base::kinds::META;
use hf_base::{NoMemory, OpenFault, ReadRefusal};
use std::alloc::Global;

/// The index of the first `meta`, from 0; the number of boxes where there is none.
fn meta_place(boxes: &[BoxView<'_>]) -> usize
    ensures bound { result ≤ length boxes.now }
    ensures before { AllByRecursion IsNotMeta (take result (boxes_of boxes.now)) }
    ensures there { result < length boxes.now → IsMetaAt (boxes_of boxes.now) result }
{
    for (i, b) in boxes.iter().enumerate() {
        if b.kind.is(META) {
            return i;
        }
    }
    boxes.len()
}

/// Appends the rows of these boxes.
fn push_rows(rows: &mut Vec<BoxRow>, depth: u8, boxes: &[BoxView<'_>]) -> Result<(), NoMemory>
    requires { All (λ b. end_of (box_of b) < 2 ^ 64) boxes.now }
    ensures { OnOk result (rows.new.items ≡ rows.old.items ++ map (row_of depth) (boxes_of boxes.now)) }
{
    for b in boxes {
        rows.push(BoxRow {
            depth,
            at: b.at,
            kind: b.kind,
            size: u64::from(b.head) + b.body.len() as u64,
        })?;
    }
    Ok(())
}

/// The boxes in a `meta`, behind its version and flags; BadRecord where these four bytes are not
/// there (MetaBox of ISO/IEC 14496-12).
fn children_of<'a>(alloc: Global, m: &BoxView<'a>) -> Result<Vec<BoxView<'a>>, OpenFault>
    requires place { end_of (box_of m.now) < 2 ^ 64 }
    requires kind { m.now.kind ≡ META }
    ensures found { MatchOpen result (λ v. AreChildren (box_of m.now) (boxes_of v.items)) (λ fault. IsChildrenFault (box_of m.now) fault) }
    ensures within { IfOk result (λ v. All (λ b. end_of (box_of b) < 2 ^ 64) v.items) }
{
    if m.body.len() < 4 {
        return Err(OpenFault::Unfit(ReadRefusal::BadRecord {
            kind: m.kind,
            at: m.at,
        }));
    }
    read_boxes(alloc, &m.body[4..], m.at + u64::from(m.head) + 4, false)
}

/// The rows of these boxes, with those of the children behind the box at `place`.
fn rows_with(
    alloc: Global,
    boxes: &[BoxView<'_>],
    place: usize,
    children: &[BoxView<'_>],
) -> Result<Vec<BoxRow>, NoMemory>
    requires there { place < length boxes.now }
    requires within { All (λ b. end_of (box_of b) < 2 ^ 64) boxes.now }
    requires children_within { All (λ b. end_of (box_of b) < 2 ^ 64) children.now }
    ensures { IfOk result (λ rows. rows.items ≡ (map (row_of 0) (boxes_of (take (place + 1) boxes.now)) ++ map (row_of 1) (boxes_of children.now)) ++ map (row_of 0) (boxes_of (drop (place + 1) boxes.now))) }
{
    let mut rows = Vec::with_capacity(alloc, boxes.len() + children.len())?;
    push_rows(&mut rows, 0, &boxes[..place + 1])?;
    push_rows(&mut rows, 1, children)?;
    push_rows(&mut rows, 0, &boxes[place + 1..])?;
    Ok(rows)
}

/// The rows of the file, by the relation alone.
fn rows_in(alloc: Global, file: &[u8]) -> Result<Vec<BoxRow>, OpenFault>
    ensures { MatchOpen result (λ v. IsWalk file.now v.items) (λ fault. IsWalkFault file.now fault) }
{
    let boxes = read_boxes(alloc, file, 0, true)?;
    let place = meta_place(&boxes);
    if place == boxes.len() {
        let mut rows = Vec::with_capacity(alloc, boxes.len())?;
        push_rows(&mut rows, 0, &boxes)?;
        return Ok(rows);
    }
    let children = children_of(alloc, &boxes[place])?;
    Ok(rows_with(alloc, &boxes, place, &children)?)
}

/// The rows of the file: one a box at depth 0, and behind the first `meta` one a box in it at
/// depth 1. Which boxes have rows is this project's own rule; a second `meta` has its row alone.
///
/// It refuses what `read_boxes` refuses of the file, then BadRecord where the first `meta` has
/// fewer than four bytes behind its header, then what `read_boxes` refuses of the boxes in it.
pub fn walk(alloc: Global, file: &[u8]) -> Result<Vec<BoxRow>, OpenFault>
    // Unless memory runs out, the rows of the file, or its first fault.
    ensures found { MatchOpen result (λ v. IsWalk file.now v.items) (λ fault. IsWalkFault file.now fault) }
    // The same, as walking from left to right computes it.
    ensures exact { Gives (λ v. v.items) result (walk_at file.now) }
{
    rows_in(alloc, file)
}
