//! What some properties say of a picture. None of these calls takes memory.

ghost use Rattle.std.specs.Prelude.{◌≡◌, length};
ghost use Rattle.hf_prop.specs.Views.{size_in, turn_in, axis_in, side_of, sides_in, window_in};

use crate::prop::Prop;
use hf_base::be32;
use hf_base::kinds::{CLAP, IMIR, IROT, ISPE};

/// The width and the height that an `ispe` of exactly 12 bytes states (ImageSpatialExtentsProperty of
/// ISO/IEC 23008-12); `None` for every other property.
pub fn size_of(prop: &Prop<'_>) -> Option<(u32, u32)>
    ensures { result ≡ size_in prop.now }
{
    let body = prop.body.as_slice();
    if prop.kind == ISPE && body.len() == 12 {
        return Some((be32(body, 4), be32(body, 8)));
    }
    None
}

/// The quarter turns anticlockwise, below 4, that an `irot` of exactly one byte states (ImageRotation of
/// ISO/IEC 23008-12); `None` for every other property.
pub fn turn_of(prop: &Prop<'_>) -> Option<u8>
    ensures { result ≡ turn_in prop.now }
{
    let body = prop.body.as_slice();
    if prop.kind == IROT && body.len() == 1 {
        return Some(body[0] % 4);
    }
    None
}

/// The axis, below 2, that an `imir` of exactly one byte states (ImageMirror of ISO/IEC 23008-12);
/// `None` for every other property.
pub fn axis_of(prop: &Prop<'_>) -> Option<u8>
    ensures { result ≡ axis_in prop.now }
{
    let body = prop.body.as_slice();
    if prop.kind == IMIR && body.len() == 1 {
        return Some(body[0] % 2);
    }
    None
}

/// The whole number of at least 1 that a numerator and a denominator state, where they state one.
fn side(numerator: u32, denominator: u32) -> Option<u32>
    ensures { result ≡ side_of numerator denominator }
{
    if denominator == 0 {
        return None;
    }
    if numerator % denominator == 0 && numerator > 0 {
        return Some(numerator / denominator);
    }
    None
}

/// The sides of a window.
fn sides(body: &[u8]) -> Option<(u32, u32)>
    requires { length body.now ≡ 32 }
    ensures { result ≡ sides_in body.now }
{
    let width = side(be32(body, 0), be32(body, 4))?;
    let height = side(be32(body, 8), be32(body, 12))?;
    Some((width, height))
}

/// The width and the height of the window that a `clap` of exactly 32 bytes states (CleanApertureBox of
/// ISO/IEC 14496-12), where both have a denominator other than 0 and are whole numbers of at least 1;
/// `None` for every other property.
pub fn window_of(prop: &Prop<'_>) -> Option<(u32, u32)>
    ensures { result ≡ window_in prop.now }
{
    let body = prop.body.as_slice();
    if prop.kind == CLAP && body.len() == 32 {
        return sides(body);
    }
    None
}
