//! The header of a box as it is written (ISO/IEC 14496-12, Box).

ghost use Rattle.std.specs.Prelude.{◌≡◌, ◌⊎◌, ◌+◌, ◌^◌, ◌<◌, ◌≤◌, ◌++◌, ℕ, List, length, take, drop};
ghost use Rattle.hf_base.specs.Number.{num};
ghost use Rattle.hf_box.specs.Head.{box, box_head};

use hf_base::{FourCc, be_put};

/// The header of a box.
#[derive(Clone, Copy)]
pub struct Head {
    /// The header in the first `len` bytes; those behind it mean nothing.
    pub bytes: [u8; 16],
    /// How many bytes it takes, 8 or 16.
    pub len: u8,
}

/// Writes a size in four bytes and a type over the first eight bytes.
fn put_front(out: &mut [u8], size: u32, kind: FourCc)
    requires { 8 ≤ length out.old }
    ensures { out.new ≡ (num size 4 ++ kind.0) ++ drop 8 out.old }
{
    be_put(out, 0, 4, size as u64);
    out[4..8].copy_from_slice(&kind.0);
}

/// The shortest header of a box of this type with a body of so many bytes: 8 bytes where
/// `body` + 8 is below 2^32, otherwise 16 bytes with size 1 and the size behind the type.
pub fn head_of(kind: FourCc, body: u64) -> Head
    requires { body ≤ 2 ^ 62 }
    ensures len { (result.len ≡ 8) ⊎ (result.len ≡ 16) }
    ensures bytes { take result.len result.bytes ≡ box_head kind body }
    ensures boxed { (content : List ℕ) → length content ≡ body → take result.len result.bytes ++ content ≡ box kind content }
{
    let mut bytes = [0u8; 16];
    if body + 8 < 0x1_0000_0000 {
        put_front(&mut bytes, (body + 8) as u32, kind);
        return Head { bytes, len: 8 };
    }
    put_front(&mut bytes, 1, kind);
    be_put(&mut bytes, 8, 8, body + 16);
    Head { bytes, len: 16 }
}
