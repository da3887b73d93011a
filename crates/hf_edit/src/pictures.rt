//! The size of an item's picture. None of these calls takes memory.

ghost use Rattle.std.specs.Prelude.{◌≡◌, Some};
ghost use Rattle.hf_store.specs.Seen.{item_of};
ghost use Rattle.hf_edit.specs.Pictures.{first_size as first_size_stated, is_outside as is_outside_stated, picture_size_of, sized_by as sized_by_stated, turned as turned_stated, when_sides as when_sides_stated};

use hf_base::kinds::{CLAP, IROT, ISPE};
use hf_prop::{Held, size_of, turn_of, window_of};
use hf_store::Item;

/// The greatest side of a picture.
const SIDE: u32 = 2_147_483_647;

/// The sides after a turn.
fn turned(size: (u32, u32), quarters: u8) -> (u32, u32)
    ensures { result ≡ turned_stated size quarters }
{
    if quarters % 2 == 1 {
        (size.1, size.0)
    } else {
        size
    }
}

/// The sides behind a property.
fn sized_by(size: (u32, u32), held: &Held<'_>) -> Option<(u32, u32)>
    ensures { result ≡ sized_by_stated (Some size) held.now }
{
    let prop = &held.prop;
    if prop.kind == IROT {
        let quarters = turn_of(prop)?;
        return Some(turned(size, quarters));
    }
    if prop.kind == CLAP {
        return window_of(prop);
    }
    Some(size)
}

/// The sides that the first property of type `ispe` states.
fn first_size(props: &[Held<'_>]) -> Option<(u32, u32)>
    ensures { result ≡ first_size_stated props.now }
{
    for held in props {
        if held.prop.kind == ISPE {
            return size_of(&held.prop);
        }
    }
    None
}

/// The sides, where a picture can have them.
fn when_sides(size: (u32, u32)) -> Option<(u32, u32)>
    ensures { result ≡ when_sides_stated size }
{
    let (width, height) = size;
    if width > 0 && width <= SIDE && height > 0 && height <= SIDE {
        Some(size)
    } else {
        None
    }
}

/// The width and the height of an item's picture: those of the first `ispe` (ImageSpatialExtentsProperty
/// of ISO/IEC 23008-12), then as each `irot` and `clap` of the whole list turns and cuts them, in order.
/// `None` where there is no `ispe`, where the first `ispe`, an `irot` or a `clap` states nothing that is
/// understood, and where a side is 0 or above 2^31 - 1 in the end.
pub fn picture_size(item: &Item<'_>) -> Option<(u32, u32)>
    ensures { result ≡ picture_size_of (item_of item.now) }
{
    let props = item.props.as_slice();
    let mut size = first_size(props)?;
    for held in props {
        size = sized_by(size, held)?;
    }
    when_sides(size)
}

/// Whether a window is empty or reaches beyond a picture of this size.
pub(crate) fn is_outside(x: u32, y: u32, w: u32, h: u32, size: (u32, u32)) -> bool
    ensures { result ≡ is_outside_stated x y w h (Some size) }
{
    let right = x as u64 + w as u64;
    let bottom = y as u64 + h as u64;
    w == 0 || h == 0 || right > size.0 as u64 || bottom > size.1 as u64
}
