//! The widths of fields in payloads of ISO/IEC 23008-12.

ghost use Rattle.std.specs.Prelude.{◌≡◌, ◌+◌, ◌≤◌, length};
ghost use Rattle.hf_base.specs.Number.{number_at};
ghost use Rattle.hf_derived.specs.Derived.{side};

use hf_base::{be16, be32};

/// How many bytes a width, height or offset takes: four where flag bit 0 is set.
pub fn side_of(flags: u8) -> usize
    ensures value { result ≡ side flags }
    ensures few { result ≤ 4 }
{
    if flags % 2 == 1 {
        return 4;
    }
    2
}

/// The width or height at a place of a payload with these flags.
pub fn side_at(flags: u8, bytes: &[u8], at: usize) -> u32
    requires { at + side flags ≤ length bytes.now }
    ensures { result ≡ number_at (side flags) at bytes.now }
{
    if flags % 2 == 1 {
        return be32(bytes, at);
    }
    u32::from(be16(bytes, at))
}
