//! How many bytes the fields of `iloc` take (ItemLocationBox of ISO/IEC 14496-12).

ghost use Rattle.std.specs.Prelude.{◌≡◌, ◌==◌, if◌then◌else◌, true, false, MatchResult};
ghost use Rattle.hf_base.specs.Reading.{Reads, front};
ghost use Rattle.hf_box.specs.Written.{id_width};
ghost use Rattle.hf_loc.specs.Iloc.{is_width, widths_at};
ghost use Rattle.hf_loc.specs.Views.{width_of, widths_in};

use hf_base::{ReadRefusal, front16, front32, front64};

/// The bytes of an offset, a length, a base or an index.
#[derive(Clone, Copy)]
pub enum Width {
    /// The field is left out.
    Zero,
    /// Four bytes.
    Four,
    /// Eight bytes.
    Eight,
}

impl Width {
    /// How many bytes they are.
    pub fn len(self) -> usize
        ensures { result ≡ width_of self }
    {
        match self {
            Width::Zero => 0,
            Width::Four => 4,
            Width::Eight => 8,
        }
    }
}

/// The bytes of all fields that differ from one `iloc` to another.
#[derive(Clone, Copy)]
pub struct Widths {
    /// Whether an id takes four bytes, and not two.
    pub wide: bool,
    /// Whether an entry has a field for its method.
    pub method: bool,
    /// Those of an extent's offset.
    pub offset: Width,
    /// Those of an extent's length.
    pub length: Width,
    /// Those of an entry's base.
    pub base: Width,
    /// Those of an extent's index.
    pub index: Width,
}

/// The width of so many bytes; `bad` where there is none.
fn width_by(len: u8, bad: ReadRefusal) -> Result<Width, ReadRefusal>
    ensures { MatchResult result (λ width. (is_width len ≡ true) × (width_of width ≡ len)) (λ why. (is_width len ≡ false) × (why ≡ bad)) }
{
    match len {
        0 => Ok(Width::Zero),
        4 => Ok(Width::Four),
        8 => Ok(Width::Eight),
        _ => Err(bad),
    }
}

/// The width of an index, which version 0 has not and does not state.
fn index_by(version: u8, len: u8, bad: ReadRefusal) -> Result<Width, ReadRefusal>
    ensures { let stated = if version == 0 then 0 else len in MatchResult result (λ width. (is_width stated ≡ true) × (width_of width ≡ stated)) (λ why. (is_width stated ≡ false) × (why ≡ bad)) }
{
    if version == 0 {
        return Ok(Width::Zero);
    }
    width_by(len, bad)
}

/// The widths that a version and the two bytes behind the flags state; `bad` where one of them is
/// none.
#[tactic(auto, unfolding(crate::specs::Iloc::widths_at))]
pub fn widths_by(version: u8, sizes: u8, bases: u8, bad: ReadRefusal) -> Result<Widths, ReadRefusal>
    ensures { Reads widths_in result (widths_at bad version sizes bases) }
{
    let offset = width_by(sizes / 16, bad)?;
    let length = width_by(sizes % 16, bad)?;
    let base = width_by(bases / 16, bad)?;
    let index = index_by(version, bases % 16, bad)?;
    Ok(Widths {
        wide: version == 2,
        method: version != 0,
        offset,
        length,
        base,
        index,
    })
}

/// The number at the front, and the bytes behind it; a field that is left out is 0.
pub fn front_number<'a>(
    width: Width,
    bytes: &'a [u8],
    short: ReadRefusal,
) -> Result<(u64, &'a [u8]), ReadRefusal>
    ensures { Reads (λ x. (x.0, x.1.now)) result (front (width_of width) short bytes.now) }
{
    match width {
        Width::Zero => Ok((0, bytes)),
        Width::Four => {
            let (number, rest) = front32(bytes, short)?;
            Ok((u64::from(number), rest))
        }
        Width::Eight => front64(bytes, short),
    }
}

/// The id at the front, which takes four bytes where `wide` and two otherwise, and the bytes behind
/// it.
pub fn front_id<'a>(
    wide: bool,
    bytes: &'a [u8],
    short: ReadRefusal,
) -> Result<(u32, &'a [u8]), ReadRefusal>
    ensures { Reads (λ x. (x.0, x.1.now)) result (front (id_width wide) short bytes.now) }
{
    if wide {
        return front32(bytes, short);
    }
    let (id, rest) = front16(bytes, short)?;
    Ok((u32::from(id), rest))
}

/// The field of the method at the front, and the bytes behind it; one that is left out is 0.
pub fn front_method<'a>(
    stated: bool,
    bytes: &'a [u8],
    short: ReadRefusal,
) -> Result<(u16, &'a [u8]), ReadRefusal>
    ensures { Reads (λ x. (x.0, x.1.now)) result (front (if stated then 2 else 0) short bytes.now) }
{
    if stated {
        return front16(bytes, short);
    }
    Ok((0, bytes))
}
