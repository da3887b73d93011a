//! The boxes inside another one, taken from the front one at a time.

ghost use Rattle.std.specs.Prelude.{◌≡◌, ◌+◌, ◌^◌, ◌<◌, ◌≤◌, ◌∷◌, [], false, length, IfOk, IfSome, IfNone};
ghost use Rattle.hf_base.specs.Reading.{Reads};
ghost use Rattle.hf_box.specs.Boxes.{box_of, end_of};
ghost use Rattle.hf_box.specs.Framing.{frames};
ghost use Rattle.hf_box.specs.Inner.{boxes_left, AreInner};
ghost use Rattle.hf_box.specs.Tables.{of_kind};

use crate::read::front_box;
use crate::view::BoxView;
use hf_base::limits::BOXES;
use hf_base::{FourCc, ReadRefusal};
use std::marker::Model;

/// The boxes inside another one that are still to be taken, of which none has a framing fault. They stay
/// in the bytes, and nothing is kept of them beside these.
#[derive(Drop)]
pub struct InnerBoxes<'a> {
    bytes: &'a [u8],
    at: u64,
    many: usize,
}

impl<'a> Model for InnerBoxes<'a> {
    ghost use Rattle.std.specs.Prelude.{List};
    ghost use Rattle.hf_box.specs.Boxes.{BoxAt};
    ghost use Rattle.hf_box.specs.Inner.{boxes_left, AreInner};

    ghost Value = { List BoxAt };

    ghost view = { λ b. boxes_left b.many b.at b.bytes.now };

    ghost invariant = { λ b. AreInner b.many b.at b.bytes.now };
}

/// How many boxes the bytes are, with places counted from `origin`, or the first fault.
fn count_frames(bytes: &[u8], origin: u64) -> Result<usize, ReadRefusal>
    requires { origin + length bytes.now < 2 ^ 64 }
    ensures framed { Reads (λ many. boxes_left many origin bytes.now) result (frames false origin bytes.now) }
    ensures inner { IfOk result (λ many. AreInner many origin bytes.now) }
{
    let mut rest = bytes;
    let mut at = origin;
    let mut many = 0;
    while !rest.is_empty() {
        if many == BOXES {
            return Err(ReadRefusal::TooManyBoxes { at });
        }
        let (_, after) = front_box(rest, at, false)?;
        at += (rest.len() - after.len()) as u64;
        rest = after;
        many += 1;
    }
    Ok(many)
}

impl<'a> InnerBoxes<'a> {
    /// The boxes that the bytes are, one behind the other, with places counted from `origin`, in bytes;
    /// all of them are looked at here, and none is kept. It refuses what `read_boxes` refuses of boxes
    /// inside another one.
    pub fn of(bytes: &'a [u8], origin: u64) -> Result<InnerBoxes<'a>, ReadRefusal>
        requires { origin + length bytes.now < 2 ^ 64 }
        ensures { Reads (λ boxes. boxes) result (frames false origin bytes.now) }
    {
        let many = count_frames(bytes, origin)?;
        Ok(InnerBoxes {
            bytes,
            at: origin,
            many,
        })
    }

    /// How many boxes are still to be taken.
    pub fn len(&self) -> usize
        ensures { result ≡ length self.now }
    {
        self.many
    }

    /// The same boxes again.
    pub fn copy(&self) -> InnerBoxes<'a>
        ensures same { result ≡ self.now }
        // No more than one list may have.
        ensures few { length self.now ≤ BOXES }
    {
        InnerBoxes {
            bytes: self.bytes,
            at: self.at,
            many: self.many,
        }
    }

    /// Takes the box at the front.
    pub fn next(&mut self) -> Option<BoxView<'a>>
        ensures some { IfSome result (λ b. self.old ≡ box_of b ∷ self.new) }
        ensures none { IfNone result (self.old ≡ []) }
        // Where there is none, none is left.
        ensures end { IfNone result (self.new ≡ []) }
        // It ends where a place can be.
        ensures place { IfSome result (λ b. end_of (box_of b) < 2 ^ 64) }
    {
        let Ok((view, after)) = front_box(self.bytes, self.at, false) else {
            return None;
        };
        self.at += (self.bytes.len() - after.len()) as u64;
        self.bytes = after;
        self.many -= 1;
        Some(view)
    }

    /// Takes boxes from the front up to the first one of this type, and gives that one.
    pub fn next_of(&mut self, kind: FourCc) -> Option<BoxView<'a>>
        ensures some { IfSome result (λ b. of_kind kind self.old ≡ box_of b ∷ of_kind kind self.new) }
        ensures none { IfNone result (of_kind kind self.old ≡ []) }
        // Where there is none, none is left.
        ensures end { IfNone result (self.new ≡ []) }
        // It ends where a place can be.
        ensures place { IfSome result (λ b. end_of (box_of b) < 2 ^ 64) }
    {
        while let Some(view) = self.next() {
            if view.kind == kind {
                return Some(view);
            }
        }
        None
    }

    /// How many boxes of this type are still to be taken.
    pub fn count_of(&self, kind: FourCc) -> usize
        ensures { result ≡ length (of_kind kind self.now) }
    {
        let mut left = self.copy();
        let mut many = 0;
        while left.next_of(kind).is_some() {
            many += 1;
        }
        many
    }
}
