//! The payload of an `iovl`: ImageOverlay of ISO/IEC 23008-12.

ghost use Rattle.std.specs.Prelude.{◌≡◌, ◌+◌, ◌*◌, ◌≤◌, ◌^◌, nat_le, min, List, ℕ, length, take, IfSome, Some};
ghost use Rattle.hf_pieces.specs.Bytes.{joined};
ghost use Rattle.hf_derived.specs.Overlay.{IsOverlay, overlay_at};
ghost use Rattle.hf_derived.specs.declared.overlay.Overlay.{Overlay as Stated};

use crate::side::{side_at, side_of};
use hf_pieces::Pieces;

/// What the payload of an `iovl` says: images that lie over each other.
#[derive(Clone, Copy, PartialEq, Eq)]
pub struct Overlay {
    /// Whether width, height and offsets take four bytes each: bit 0 of the flags.
    pub long: bool,
    /// The width of the image in pixels.
    pub width: u32,
    /// The height of the image in pixels.
    pub height: u32,
}

/// Whether so many bytes hold the payload of an overlay of so many inputs, with sides of so many
/// bytes. A product that passes 2^64 - 1 passes every length too, so it may stop there.
fn has_room(len: u64, side: usize, inputs: usize) -> bool
    requires side { side ≤ 4 }
    requires few { len ≤ 2 ^ 62 }
    ensures { result ≡ nat_le (10 + 2 * side + inputs * (2 * side)) len }
{
    let pair = 2 * side as u64;
    let offsets = (inputs as u64).saturating_mul(pair);
    offsets <= len && 10 + pair <= len - offsets
}

/// The overlay at the front of so many bytes, of which the first 18 are given.
fn overlay_in(front: &[u8], len: u64, inputs: usize) -> Option<Overlay>
    requires few { len ≤ 2 ^ 62 }
    requires size { length front.now ≡ min len 18 }
    ensures { (bytes : List ℕ) → length bytes ≡ len → front.now ≡ take 18 bytes → result ≡ overlay_at inputs bytes }
{
    if front.len() < 2 {
        return None;
    }
    let version = front[0];
    if version != 0 {
        return None;
    }
    let flags = front[1];
    let side = side_of(flags);
    if has_room(len, side, inputs) {
        return Some(Overlay {
            long: flags % 2 == 1,
            width: side_at(flags, front, 10),
            height: side_at(flags, front, 10 + side),
        });
    }
    None
}

/// The same, of bytes.
fn overlay_of(front: &[u8], len: u64, inputs: usize) -> Option<Overlay>
    requires few { len ≤ 2 ^ 62 }
    requires size { length front.now ≡ min len 18 }
    ensures found { (bytes : List ℕ) → length bytes ≡ len → front.now ≡ take 18 bytes → IfSome result (λ overlay. IsOverlay bytes inputs overlay) }
    ensures only { (bytes : List ℕ) → length bytes ≡ len → front.now ≡ take 18 bytes → (overlay : Stated) → IsOverlay bytes inputs overlay → result ≡ Some overlay }
    ensures exact { (bytes : List ℕ) → length bytes ≡ len → front.now ≡ take 18 bytes → result ≡ overlay_at inputs bytes }
{
    overlay_in(front, len, inputs)
}

/// Reads the payload of an `iovl` of so many inputs at the front of the bytes of an item. `None` comes
/// exactly where the version is not 0 or too few bytes are there, offsets for each input included. No
/// memory is taken.
pub fn read_overlay(body: &Pieces<'_>, inputs: usize) -> Option<Overlay>
    // What is read stands there.
    ensures found { IfSome result (λ overlay. IsOverlay (joined body.now) inputs overlay) }
    // What stands there is read.
    ensures only { (overlay : Stated) → IsOverlay (joined body.now) inputs overlay → result ≡ Some overlay }
    // The same as a program.
    ensures exact { result ≡ overlay_at inputs (joined body.now) }
{
    let mut front = [0u8; 18];
    let count = body.copy_front(&mut front);
    overlay_of(&front[..count], body.len(), inputs)
}
