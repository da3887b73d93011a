//! Bytes as a list of boxes (ISO/IEC 14496-12, Box).

ghost use Rattle.std.specs.Prelude.{◌≡◌, ◌⊎◌, ◌+◌, ◌^◌, ◌<◌, ◌≤◌, length, IfOk, All};
ghost use Rattle.hf_base.specs.Reading.{Reads, Gives, MatchOpen};
ghost use Rattle.hf_box.specs.Boxes.{end_of, box_of, boxes_of, IsBoxes, FrameFault};
ghost use Rattle.hf_box.specs.Framing.{cut as cut_of, box_at, frames};

use crate::view::BoxView;
use hf_base::limits::BOXES;
use hf_base::{OpenFault, ReadRefusal, be32, be64, four_at};
use std::alloc::Global;

/// The box with a header of `head` bytes and this size at the front, and the bytes behind it;
/// BadSize where the size is less than the header or passes the end.
#[tactic(auto, unfolding(crate::specs::Framing::cut))]
fn cut<'a>(
    bytes: &'a [u8],
    head: u8,
    size: u64,
    at: u64,
) -> Result<(BoxView<'a>, &'a [u8]), ReadRefusal>
    requires head { (head ≡ 8) ⊎ (head ≡ 16) }
    requires there { head ≤ length bytes.now }
    ensures exact { Reads (λ x. (box_of x.0, x.1.now)) result (cut_of head size at bytes.now) }
    ensures whole { IfOk result (λ x. end_of (box_of x.0) + length x.1.now ≡ at + length bytes.now) }
    ensures shorter { IfOk result (λ x. length x.1.now + 8 ≤ length bytes.now) }
{
    if size < u64::from(head) || (bytes.len() as u64) < size {
        return Err(ReadRefusal::BadSize { at });
    }
    let (front, rest) = bytes.split_at(size as usize);
    let view = BoxView {
        kind: four_at(bytes, 4),
        at,
        head,
        body: &front[head as usize..],
    };
    Ok((view, rest))
}

/// The box at the front of the bytes, and the bytes behind it, with the place `at` of the first byte in
/// the file. `top` says that the box is one of a file: there, and only there, it may have size 0 and
/// reach the end (ISO/IEC 14496-12, Box).
///
/// Short comes where fewer than 8 bytes are left, or fewer than 16 with size 1; OpenSize for size 0
/// where `top` is false; and BadSize for a size that is less than its header or passes the end.
#[tactic(auto, unfolding(crate::specs::Framing::box_at))]
pub fn front_box<'a>(
    bytes: &'a [u8],
    at: u64,
    top: bool,
) -> Result<(BoxView<'a>, &'a [u8]), ReadRefusal>
    // The box and the bytes behind it, or why no box begins there.
    ensures exact { Reads (λ x. (box_of x.0, x.1.now)) result (box_at top at bytes.now) }
    // It ends where the bytes behind it begin.
    ensures whole { IfOk result (λ x. end_of (box_of x.0) + length x.1.now ≡ at + length bytes.now) }
    // It has a header.
    ensures shorter { IfOk result (λ x. length x.1.now + 8 ≤ length bytes.now) }
{
    if bytes.len() < 8 {
        return Err(ReadRefusal::Short { at });
    }
    let size = be32(bytes, 0);
    if size == 0 {
        if !top {
            return Err(ReadRefusal::OpenSize { at });
        }
        return cut(bytes, 8, bytes.len() as u64, at);
    }
    if size != 1 {
        return cut(bytes, 8, u64::from(size), at);
    }
    if bytes.len() < 16 {
        return Err(ReadRefusal::Short { at });
    }
    cut(bytes, 16, be64(bytes, 8), at)
}

/// Takes boxes from the front until no byte is left, or one is refused.
fn frames_in<'a>(
    alloc: Global,
    bytes: &'a [u8],
    origin: u64,
    top: bool,
) -> Result<Vec<BoxView<'a>>, OpenFault>
    requires { origin + length bytes.now < 2 ^ 64 }
    ensures exact { Gives (λ v. boxes_of v.items) result (frames top origin bytes.now) }
{
    let mut boxes = Vec::new(alloc);
    let mut rest = bytes;
    let mut at = origin;
    while !rest.is_empty() {
        if boxes.len() == BOXES {
            return Err(OpenFault::Unfit(ReadRefusal::TooManyBoxes { at }));
        }
        let (view, after) = front_box(rest, at, top)?;
        at += (rest.len() - after.len()) as u64;
        rest = after;
        boxes.push(view)?;
    }
    Ok(boxes)
}

/// The boxes that the bytes are, one behind the other, with places counted from `origin`, in
/// bytes. `top` says that they are the boxes of a file: there, and only there, the last one may
/// have size 0 and reach the end (ISO/IEC 14496-12, Box).
///
/// It refuses the first place at which no box can stand: TooManyBoxes behind `BOXES` boxes, which
/// is this project's own limit, otherwise Short for a header that is cut off, OpenSize for size 0
/// where `top` is false, and BadSize for a size that is less than its header or passes the end.
pub fn read_boxes<'a>(
    alloc: Global,
    bytes: &'a [u8],
    origin: u64,
    top: bool,
) -> Result<Vec<BoxView<'a>>, OpenFault>
    requires { origin + length bytes.now < 2 ^ 64 }
    // Unless memory runs out, the boxes that the bytes are, or the first fault.
    ensures found { MatchOpen result (λ v. IsBoxes bytes.now origin top (boxes_of v.items) × (length v.items ≤ BOXES)) (λ fault. FrameFault bytes.now origin top fault) }
    // Each of them ends within the bytes.
    ensures within { IfOk result (λ v. All (λ b. end_of (box_of b) ≤ origin + length bytes.now) v.items) }
    // The same, as framing from left to right computes it.
    ensures exact { Gives (λ v. boxes_of v.items) result (frames top origin bytes.now) }
{
    frames_in(alloc, bytes, origin, top)
}
