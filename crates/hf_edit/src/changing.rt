//! Other properties at the end of an item's list. None of these calls takes memory.

ghost use Rattle.std.specs.Prelude.{◌≡◌, ◌<◌, ◌≤◌, false, length, IfSome};
ghost use Rattle.hf_store.specs.Seen.{item_of};
ghost use Rattle.hf_edit.specs.Pictures.{cropped, is_outside, last_axis as last_axis_stated, last_turn as last_turn_stated, mirrored, picture_size_of, rotated, turn_unless_none as turn_unless_none_stated};
ghost use Rattle.hf_edit.specs.Seen.{changed_by, more_of};

use crate::pictures::picture_size;
use hf_prop::{Held, Prop, axis_of, mirror, turn, turn_of, window};
use hf_store::Item;

/// Other properties at the end of a list.
#[derive(Drop)]
pub(crate) struct Change<'a> {
    /// So many of the first ones stay.
    pub(crate) kept: usize,
    /// An essential one that comes behind them.
    pub(crate) more: Option<Prop<'a>>,
}

/// The turn that the last property states.
fn last_turn(props: &[Held<'_>]) -> Option<u8>
    ensures value { result ≡ last_turn_stated props.now }
    ensures few { IfSome result (λ quarters. quarters < 4) }
    ensures some { IfSome result (λ quarters. 0 < length props.now) }
{
    let last = props.last()?;
    turn_of(&last.prop)
}

/// The axis that the last property states.
fn last_axis(props: &[Held<'_>]) -> Option<u8>
    ensures value { result ≡ last_axis_stated props.now }
    ensures some { IfSome result (λ axis. 0 < length props.now) }
{
    let last = props.last()?;
    axis_of(&last.prop)
}

/// A turn by so many quarters, and nothing for none.
fn turn_unless_none<'a>(quarters: u8) -> Option<Prop<'a>>
    requires { quarters < 4 }
    ensures { more_of result ≡ turn_unless_none_stated quarters }
{
    if quarters == 0 {
        None
    } else {
        Some(turn(quarters))
    }
}

/// What turns a picture by so many quarters more, anticlockwise.
pub(crate) fn rotation<'a>(props: &[Held<'a>], quarters: u32) -> Change<'a>
    requires { quarters < 4 }
    ensures changed { changed_by result props.now ≡ rotated quarters props.now }
    ensures within { result.kept ≤ length props.now }
{
    let count = props.len();
    match last_turn(props) {
        None => Change {
            kept: count,
            more: Some(turn(quarters as u8)),
        },
        Some(before) => Change {
            kept: count - 1,
            more: turn_unless_none((before + quarters as u8) % 4),
        },
    }
}

/// What mirrors a picture once more, at this axis.
pub(crate) fn mirroring<'a>(props: &[Held<'a>], axis: u32) -> Change<'a>
    requires { axis < 2 }
    ensures changed { changed_by result props.now ≡ mirrored axis props.now }
    ensures within { result.kept ≤ length props.now }
{
    let count = props.len();
    let axis = axis as u8;
    match last_axis(props) {
        None => Change {
            kept: count,
            more: Some(mirror(axis)),
        },
        Some(before) => {
            if before == axis {
                Change {
                    kept: count - 1,
                    more: None,
                }
            } else {
                Change {
                    kept: count,
                    more: Some(mirror(axis)),
                }
            }
        }
    }
}

/// What cuts a window out of an item's picture: it is `w` by `h`, and its first column is `x` and its
/// first row `y`.
pub(crate) fn cropping<'a>(item: &Item<'a>, x: u32, y: u32, w: u32, h: u32) -> Change<'a>
    requires { is_outside x y w h (picture_size_of (item_of item.now)) ≡ false }
    ensures changed { changed_by result item.now.props ≡ cropped x y w h (item_of item.now) }
    ensures within { result.kept ≤ length item.now.props }
{
    let (width, height) = picture_size(item).unwrap();
    Change {
        kept: item.props.len(),
        more: Some(window(x, y, w, h, width, height)),
    }
}
