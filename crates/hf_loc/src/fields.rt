//! The parts of an entry of `iloc` (ItemLocationBox of ISO/IEC 14496-12).

ghost use Rattle.std.specs.Prelude.{◌≡◌, ◌≤◌, ◌+◌, ◌*◌, length, IfOk};
ghost use Rattle.hf_base.specs.Reading.{Reads, Gives, times};
ghost use Rattle.hf_loc.specs.Iloc.{index_at, fields_at, extent_at};
ghost use Rattle.hf_loc.specs.Views.{width_of, widths_in, fields_in};

use crate::widths::{Width, Widths, front_id, front_method, front_number};
use hf_base::{Extent, Extents, OpenFault, ReadRefusal, front16};
use std::alloc::Global;

/// The fields of an entry in front of its extents.
#[derive(Clone, Copy)]
pub struct Fields {
    /// The id of the item.
    pub id: u32,
    /// The construction method.
    pub method: u8,
    /// The data reference index.
    pub dref: u16,
    /// What each offset counts from.
    pub base: u64,
    /// How many extents follow.
    pub count: u16,
}

/// The fields at the front, and the bytes behind them.
#[tactic(auto, unfolding(crate::specs::Iloc::fields_at))]
pub fn read_fields<'a>(
    widths: &Widths,
    bytes: &'a [u8],
    short: ReadRefusal,
) -> Result<(Fields, &'a [u8]), ReadRefusal>
    ensures { Reads (λ x. (fields_in x.0, x.1.now)) result (fields_at short (widths_in widths.now) bytes.now) }
{
    let (id, rest) = front_id(widths.wide, bytes, short)?;
    let (method, rest) = front_method(widths.method, rest, short)?;
    let (dref, rest) = front16(rest, short)?;
    let (base, rest) = front_number(widths.base, rest, short)?;
    let (count, rest) = front16(rest, short)?;
    let fields = Fields {
        id,
        method: (method % 16) as u8,
        dref,
        base,
        count,
    };
    Ok((fields, rest))
}

/// The index of an extent at the front, and the bytes behind it; one that is left out is 1.
fn front_index<'a>(
    width: Width,
    bytes: &'a [u8],
    short: ReadRefusal,
) -> Result<(u64, &'a [u8]), ReadRefusal>
    ensures { Reads (λ x. (x.0, x.1.now)) result (index_at short (width_of width) bytes.now) }
{
    if let Width::Zero = width {
        return Ok((1, bytes));
    }
    front_number(width, bytes, short)
}

/// The extent at the front, and the bytes behind it.
#[tactic(auto, unfolding(crate::specs::Iloc::extent_at))]
fn read_extent<'a>(
    widths: &Widths,
    bytes: &'a [u8],
    short: ReadRefusal,
) -> Result<(Extent, &'a [u8]), ReadRefusal>
    ensures { Reads (λ x. (x.0, x.1.now)) result (extent_at short (widths_in widths.now) bytes.now) }
{
    let (index, rest) = front_index(widths.index, bytes, short)?;
    let (offset, rest) = front_number(widths.offset, rest, short)?;
    let (length, rest) = front_number(widths.length, rest, short)?;
    Ok((
        Extent {
            index,
            offset,
            length,
        },
        rest,
    ))
}

/// How many of so many extents `len` bytes can hold.
fn room(widths: &Widths, count: u16, len: usize) -> usize
    ensures wanted { result ≤ count }
    ensures held { result * (width_of widths.now.index + width_of widths.now.offset + width_of widths.now.length) ≤ len }
{
    let size = widths.index.len() + widths.offset.len() + widths.length.len();
    if size == 0 {
        return count as usize;
    }
    (len / size).min(count as usize)
}

/// So many extents, and the bytes behind them.
pub fn read_extents<'a>(
    alloc: Global,
    widths: &Widths,
    count: u16,
    bytes: &'a [u8],
    short: ReadRefusal,
) -> Result<(Extents, &'a [u8]), OpenFault>
    ensures exact { Gives (λ x. (x.0, x.1.now)) result (times (extent_at short (widths_in widths.now)) count bytes.now) }
    ensures count { IfOk result (λ x. length x.0 ≡ count) }
{
    let mut extents = Extents::with_capacity(alloc, room(widths, count, bytes.len()))?;
    let mut rest = bytes;
    for _ in 0..count {
        let (extent, after) = read_extent(widths, rest, short)?;
        extents.push(extent)?;
        rest = after;
    }
    Ok((extents, rest))
}
