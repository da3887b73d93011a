//! Ids that take two bytes in one version of a box, and four in the next one.

ghost use Rattle.std.specs.Prelude.{◌≡◌, ◌⊎◌, ◌+◌, ◌<◌, IfOk};
ghost use Rattle.hf_base.specs.Entries.{id_width_at};
ghost use Rattle.hf_base.specs.Reading.{Reads, front};

use crate::fault::ReadRefusal;
use crate::front::{front16, front32};

/// How many bytes ids take in this version of a box, 2 or 4, where they take two in version `first`
/// and four in the next one; `bad` for every other version.
pub fn id_width(first: u8, version: u8, bad: ReadRefusal) -> Result<u8, ReadRefusal>
    requires { first + 1 < 256 }
    ensures width { IfOk result (λ width. (width ≡ 2) ⊎ (width ≡ 4)) }
    ensures exact { Reads (λ width. width) result (id_width_at first bad version) }
{
    if version == first {
        return Ok(2);
    }
    if version == first + 1 {
        return Ok(4);
    }
    Err(bad)
}

/// The id in the first `width` bytes, two or four of them, and the bytes after it; `short` where they
/// are too few.
pub fn front_id<'a>(
    width: u8,
    bytes: &'a [u8],
    short: ReadRefusal,
) -> Result<(u32, &'a [u8]), ReadRefusal>
    requires { (width ≡ 2) ⊎ (width ≡ 4) }
    ensures { Reads (λ x. (x.0, x.1.now)) result (front width short bytes.now) }
{
    if width == 2 {
        let (id, rest) = front16(bytes, short)?;
        return Ok((u32::from(id), rest));
    }
    front32(bytes, short)
}
