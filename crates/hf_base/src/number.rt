//! Big-endian numbers at a place of a slice, counted in bytes from 0.

ghost use Rattle.std.specs.Prelude.{◌≡◌, ◌⊎◌, ◌+◌, ◌^◌, ◌<◌, ◌≤◌, ◌++◌, length, take, drop};
ghost use Rattle.hf_base.specs.Number.{num, number_at};

use byteorder::{BigEndian, ByteOrder};

/// The number in the two bytes from `at` on.
#[tactic(auto, unfolding(crate::specs::Number::num, crate::specs::Number::number))]
pub fn be16(bytes: &[u8], at: usize) -> u16
    requires { at + 2 ≤ length bytes.now }
    ensures value { result ≡ number_at 2 at bytes.now }
    ensures spelled { take 2 (drop at bytes.now) ≡ num result 2 }
{
    BigEndian::read_u16(&bytes[at..])
}

/// The number in the four bytes from `at` on.
#[tactic(auto, unfolding(crate::specs::Number::num, crate::specs::Number::number))]
pub fn be32(bytes: &[u8], at: usize) -> u32
    requires { at + 4 ≤ length bytes.now }
    ensures value { result ≡ number_at 4 at bytes.now }
    ensures spelled { take 4 (drop at bytes.now) ≡ num result 4 }
{
    BigEndian::read_u32(&bytes[at..])
}

/// The number in the eight bytes from `at` on.
#[tactic(auto, unfolding(crate::specs::Number::num, crate::specs::Number::number))]
pub fn be64(bytes: &[u8], at: usize) -> u64
    requires { at + 8 ≤ length bytes.now }
    ensures value { result ≡ number_at 8 at bytes.now }
    ensures spelled { take 8 (drop at bytes.now) ≡ num result 8 }
{
    BigEndian::read_u64(&bytes[at..])
}

/// Writes the bytes of `n` over the `width` bytes from `at` on.
#[tactic(auto, unfolding(crate::specs::Number::num, crate::specs::Number::number))]
pub fn be_put(out: &mut [u8], at: usize, width: usize, n: u64)
    requires width { (width ≡ 1) ⊎ (width ≡ 2) ⊎ (width ≡ 4) ⊎ (width ≡ 8) }
    requires fits { n < 256 ^ width }
    requires room { at + width ≤ length out.old }
    ensures { out.new ≡ take at out.old ++ num n width ++ drop (at + width) out.old }
{
    BigEndian::write_uint(&mut out[at..], n, width);
}
