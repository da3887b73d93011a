//! `iloc`: ItemLocationBox of ISO/IEC 14496-12.

ghost use Rattle.std.specs.Prelude.{◌≡◌, ◌≤◌, ◌*◌, List, [], IfOk};
ghost use Rattle.hf_base.specs.Entries.{entries_from};
ghost use Rattle.hf_base.specs.Reading.{Reads, Gives, MatchOpen};
ghost use Rattle.hf_base.specs.declared.limits.TheConstants.{ROWS};
ghost use Rattle.hf_base.specs.declared.loc.Loc.{Loc as Stated};
ghost use Rattle.hf_loc.specs.Iloc.{IsIloc, loc_rows, counted_at, entry_at, iloc_within, iloc_at};
ghost use Rattle.hf_loc.specs.Views.{widths_in};

use crate::table::{Table, read_loc};
use crate::widths::{Widths, front_id, widths_by};
use hf_base::kinds::ILOC;
use hf_base::limits::ROWS;
use hf_base::{Loc, OpenFault, ReadRefusal, front_version, front8};
use hf_box::BoxView;
use std::alloc::Global;

/// The bytes of an entry of ids of two bytes, in version 0, without a base and extents: none has
/// fewer.
const LEAST_ENTRY: usize = 6;

/// The widths and the count of the entries, and the bytes behind them.
#[tactic(auto, unfolding(crate::specs::Iloc::counted_at))]
fn read_count<'a>(body: &'a [u8], at: u64) -> Result<(Widths, u32, &'a [u8]), ReadRefusal>
    ensures { Reads (λ x. ((widths_in x.0, x.1), x.2.now)) result (counted_at at body.now) }
{
    let short = ReadRefusal::BadRecord { kind: ILOC, at };
    let (version, _flags, rest) = front_version(body, short)?;
    if version > 2 {
        return Err(ReadRefusal::BadVersion { kind: ILOC, at });
    }
    let (sizes, rest) = front8(rest, short)?;
    let (bases, rest) = front8(rest, short)?;
    let (count, rest) = front_id(version == 2, rest, short)?;
    let widths = widths_by(version, sizes, bases, ReadRefusal::BadWidth { at })?;
    Ok((widths, count, rest))
}

/// How many of so many entries `len` bytes and a table can hold.
fn room(count: u32, len: usize) -> usize
    ensures wanted { result ≤ count }
    ensures held { result * LEAST_ENTRY ≤ len }
    ensures few { result ≤ ROWS }
{
    (count as usize).min(len / LEAST_ENTRY).min(ROWS)
}

/// So many entries, and the bytes behind them.
fn read_entries<'a>(
    alloc: Global,
    widths: &Widths,
    count: u32,
    bytes: &'a [u8],
    at: u64,
) -> Result<(Vec<Loc>, &'a [u8]), OpenFault>
    ensures { Gives (λ x. (x.0.items, x.1.now)) result (entries_from (entry_at ROWS at (widths_in widths.now)) [] count bytes.now) }
{
    let mut table = Table::with_capacity(alloc, room(count, bytes.len()))?;
    let mut rest = bytes;
    for _ in 0..count {
        let (loc, after) = read_loc(alloc, table.rows, widths, rest, at)?;
        table.add(loc)?;
        rest = after;
    }
    Ok((table.locs, rest))
}

/// The entries of a body, with the place of its box.
#[tactic(auto, unfolding(crate::specs::Iloc::iloc_within))]
fn locs_in(alloc: Global, body: &[u8], at: u64) -> Result<Vec<Loc>, OpenFault>
    ensures { Gives (λ locs. locs.items) result (iloc_at at body.now) }
{
    let (widths, count, rest) = read_count(body, at)?;
    let (locs, _) = read_entries(alloc, &widths, count, rest, at)?;
    Ok(locs)
}

/// The same, of bytes.
fn iloc_in(alloc: Global, body: &[u8], at: u64) -> Result<Vec<Loc>, OpenFault>
    ensures found { IfOk result (λ locs. IsIloc body.now locs.items) }
    ensures few { IfOk result (λ locs. loc_rows locs.items ≤ ROWS) }
    ensures only { (locs : List Stated) → IsIloc body.now locs → loc_rows locs ≤ ROWS → MatchOpen result (λ v. v.items ≡ locs) (λ fault. ⊥) }
    ensures exact { Gives (λ locs. locs.items) result (iloc_at at body.now) }
{
    locs_in(alloc, body, at)
}

/// Reads the entries of an `iloc`, in their order. BadRecord comes where the body is too short for
/// its fields, BadVersion where the version is above 2, BadWidth where a width is none of 0, 4 and
/// 8 bytes, TooLarge where there are more than `ROWS` entries and extents, and DoubleLocation where
/// two entries have one id.
pub fn read_iloc(alloc: Global, view: &BoxView<'_>) -> Result<Vec<Loc>, OpenFault>
    requires { view.now.kind ≡ ILOC }
    // What is read stands there.
    ensures found { IfOk result (λ locs. IsIloc view.now.body.now locs.items) }
    // It has no more rows than a table may have.
    ensures few { IfOk result (λ locs. loc_rows locs.items ≤ ROWS) }
    // What stands there is read.
    ensures only { (locs : List Stated) → IsIloc view.now.body.now locs → loc_rows locs ≤ ROWS → MatchOpen result (λ v. v.items ≡ locs) (λ fault. ⊥) }
    // Which refusal it is.
    ensures exact { Gives (λ locs. locs.items) result (iloc_at view.now.at view.now.body.now) }
{
    iloc_in(alloc, view.body, view.at)
}
