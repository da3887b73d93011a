//! Properties that are made. None of these calls takes memory.

ghost use Rattle.std.specs.Prelude.{◌≡◌, ◌≤◌, ◌<◌, ◌+◌, ◌^◌, ◌++◌};
ghost use Rattle.hf_base.specs.Number.{num};
ghost use Rattle.hf_prop.specs.Views.{turn_by, mirror_at, signed_difference, window_at};

use crate::body::Body;
use crate::prop::Prop;
use hf_base::be_put;
use hf_base::kinds::{CLAP, IMIR, IROT};

/// The `irot` of so many quarter turns anticlockwise (ImageRotation of ISO/IEC 23008-12).
pub fn turn<'a>(quarters: u8) -> Prop<'a>
    requires { quarters < 4 }
    ensures { result ≡ turn_by quarters }
{
    let mut bytes = [0u8; 32];
    be_put(&mut bytes, 0, 1, quarters as u64);
    Prop {
        kind: IROT,
        body: Body::small(bytes, 1),
    }
}

/// The `imir` with this axis (ImageMirror of ISO/IEC 23008-12).
pub fn mirror<'a>(axis: u8) -> Prop<'a>
    requires { axis < 2 }
    ensures { result ≡ mirror_at axis }
{
    let mut bytes = [0u8; 32];
    be_put(&mut bytes, 0, 1, axis as u64);
    Prop {
        kind: IMIR,
        body: Body::small(bytes, 1),
    }
}

/// The difference as a signed number of four bytes, in two's complement.
fn difference(plus: u32, minus: u32) -> u32
    ensures { result ≡ signed_difference plus minus }
{
    plus.wrapping_sub(minus)
}

/// The numbers of a window: its sides, and twice the distances of its centre from that of the picture.
fn numbers(w: u32, h: u32, across: u32, down: u32) -> [u8; 32]
    ensures { result ≡ num w 4 ++ num 1 4 ++ num h 4 ++ num 1 4 ++ num across 4 ++ num 2 4 ++ num down 4 ++ num 2 4 }
{
    let mut bytes = [0u8; 32];
    be_put(&mut bytes, 0, 4, w as u64);
    be_put(&mut bytes, 4, 4, 1);
    be_put(&mut bytes, 8, 4, h as u64);
    be_put(&mut bytes, 12, 4, 1);
    be_put(&mut bytes, 16, 4, across as u64);
    be_put(&mut bytes, 20, 4, 2);
    be_put(&mut bytes, 24, 4, down as u64);
    be_put(&mut bytes, 28, 4, 2);
    bytes
}

/// The `clap` of a window in a picture of this width and height (CleanApertureBox of ISO/IEC 14496-12):
/// the window is `w` by `h`, its first column is `x` and its first row `y`, counted from 0.
pub fn window<'a>(x: u32, y: u32, w: u32, h: u32, width: u32, height: u32) -> Prop<'a>
    requires wide { 1 ≤ w }
    requires high { 1 ≤ h }
    requires across { x + w ≤ width }
    requires down { y + h ≤ height }
    requires width { width < 2 ^ 31 }
    requires height { height < 2 ^ 31 }
    ensures { result ≡ window_at x y w h width height }
{
    let across = difference(2 * x + w, width);
    let down = difference(2 * y + h, height);
    Prop {
        kind: CLAP,
        body: Body::small(numbers(w, h, across, down), 32),
    }
}
