//! `ipma`: ItemPropertyAssociationBox of ISO/IEC 23008-12.

ghost use Rattle.std.specs.Prelude.{◌≡◌, ◌⊎◌, ◌≤◌, ◌+◌, ◌*◌, [], ◌∷◌, ◌++◌, length, IfOk, OnOk};
ghost use Rattle.hf_base.specs.Entries.{has_id, refuse_if, entries_from};
ghost use Rattle.hf_base.specs.Reading.{Reads, Gives, times};
ghost use Rattle.hf_base.specs.declared.fault.ReadRefusal.TheVariants.{DoubleAssoc};
ghost use Rattle.hf_base.specs.declared.limits.TheConstants.{ROWS};
ghost use Rattle.std.specs.List.{sum_by};
ghost use Rattle.hf_box.specs.Boxes.{box_of};
ghost use Rattle.hf_box.specs.Tables.{of_kind};
ghost use Rattle.hf_prop.specs.Ipma.{assoc_ids, pick_width, pick_at, assoc_at, entry_at, counted_at, with_ipma};
ghost use Rattle.hf_prop.specs.Tables.{pick_bytes, IsTable};

use crate::assoc::{Assoc, AssocList, Pick, Picks};
use hf_base::kinds::IPMA;
use hf_base::limits::ROWS;
use hf_base::{
    NoMemory, OpenFault, ReadRefusal, SeenIds, front_id, front_version, front8, front16, front32,
    id_width,
};
use hf_box::{BoxView, InnerBoxes};
use std::alloc::Global;

/// The bytes of an entry with an id of two bytes and no association: none has fewer.
const LEAST_ENTRY: usize = 3;

/// Entries that were read, of one `ipma` or of several, with what is known of them.
#[derive(Drop)]
pub struct Table {
    /// The entries, in their order.
    pub assocs: AssocList,
    /// Entries and associations, counted.
    pub rows: usize,
    /// The ids of the entries.
    pub ids: SeenIds,
}

impl Table {
    /// No entries, and room for so many. `NoMemory` comes where memory was refused.
    pub fn with_capacity(alloc: Global, capacity: usize) -> Result<Table, NoMemory>
        ensures empty { IfOk result (λ t. t.assocs ≡ []) }
        ensures table { IfOk result (λ t. IsTable t) }
    {
        Ok(Table {
            assocs: AssocList::with_capacity(alloc, capacity)?,
            rows: 0,
            ids: SeenIds::new(alloc),
        })
    }

    /// One more entry. DoubleAssoc comes where an earlier one has its id.
    fn add(&mut self, assoc: Assoc) -> Result<(), OpenFault>
        requires table { IsTable self.old }
        requires few { self.old.rows + 1 + length assoc.picks ≤ ROWS }
        ensures added { OnOk result (self.new.assocs ≡ self.old.assocs ++ assoc ∷ []) }
        ensures table { OnOk result (IsTable self.new) }
        ensures few { OnOk result (self.new.rows ≤ ROWS) }
        ensures exact { Gives (λ x. x) result (refuse_if (has_id assoc.item (assoc_ids self.old.assocs)) (DoubleAssoc assoc.item)) }
    {
        if !self.ids.meet(assoc.item)? {
            return Err(OpenFault::Unfit(ReadRefusal::DoubleAssoc { id: assoc.item }));
        }
        self.rows += 1 + assoc.picks.len();
        self.assocs.push(assoc)?;
        Ok(())
    }
}

/// The association at the front, in two bytes or in one, and the bytes after it.
#[tactic(auto, unfolding(crate::specs::Ipma::pick_at))]
fn front_pick<'a>(
    two_bytes: bool,
    bytes: &'a [u8],
    short: ReadRefusal,
) -> Result<(Pick, &'a [u8]), ReadRefusal>
    ensures { Reads (λ x. (x.0, x.1.now)) result (pick_at short (pick_bytes two_bytes) bytes.now) }
{
    if two_bytes {
        let (number, rest) = front16(bytes, short)?;
        let pick = Pick {
            essential: number >= 0x8000,
            index: number % 0x8000,
        };
        return Ok((pick, rest));
    }
    let (number, rest) = front8(bytes, short)?;
    let pick = Pick {
        essential: number >= 0x80,
        index: u16::from(number % 0x80),
    };
    Ok((pick, rest))
}

/// How many of so many associations `len` bytes can hold.
fn room(two_bytes: bool, count: u8, len: usize) -> usize
    ensures wanted { result ≤ count }
    ensures held { result * pick_bytes two_bytes ≤ len }
{
    let size = if two_bytes { 2 } else { 1 };
    (len / size).min(count as usize)
}

/// So many associations, and the bytes after them.
fn read_picks<'a>(
    alloc: Global,
    two_bytes: bool,
    count: u8,
    bytes: &'a [u8],
    short: ReadRefusal,
) -> Result<(Picks, &'a [u8]), OpenFault>
    ensures exact { Gives (λ x. (x.0, x.1.now)) result (times (pick_at short (pick_bytes two_bytes)) count bytes.now) }
    ensures count { IfOk result (λ x. length x.0 ≡ count) }
{
    let mut picks = Picks::with_capacity(alloc, room(two_bytes, count, bytes.len()))?;
    let mut rest = bytes;
    for _ in 0..count {
        let (pick, after) = front_pick(two_bytes, rest, short)?;
        picks.push(pick)?;
        rest = after;
    }
    Ok((picks, rest))
}

/// The entry at the front, with an id of `width` bytes, behind so many rows, and the bytes after it.
#[tactic(auto, unfolding(crate::specs::Ipma::assoc_at))]
fn read_assoc<'a>(
    alloc: Global,
    rows: usize,
    width: u8,
    two_bytes: bool,
    bytes: &'a [u8],
    at: u64,
) -> Result<(Assoc, &'a [u8]), OpenFault>
    requires rows { rows ≤ ROWS }
    requires width { (width ≡ 2) ⊎ (width ≡ 4) }
    ensures exact { Gives (λ x. (x.0, x.1.now)) result (assoc_at ROWS at rows width (pick_bytes two_bytes) bytes.now) }
    ensures few { IfOk result (λ x. rows + 1 + length x.0.picks ≤ ROWS) }
{
    let short = ReadRefusal::BadRecord { kind: IPMA, at };
    let (item, rest) = front_id(width, bytes, short)?;
    let (count, rest) = front8(rest, short)?;
    if rows + 1 + usize::from(count) > ROWS {
        return Err(OpenFault::Unfit(ReadRefusal::TooLarge { kind: IPMA, at }));
    }
    let (picks, rest) = read_picks(alloc, two_bytes, count, rest, short)?;
    Ok((Assoc { item, picks }, rest))
}

/// How many bytes ids take, whether associations take two, the count of the entries, and the bytes
/// after it.
#[tactic(auto, unfolding(crate::specs::Ipma::counted_at))]
fn read_count<'a>(body: &'a [u8], at: u64) -> Result<(u8, bool, u32, &'a [u8]), ReadRefusal>
    ensures exact { Reads (λ x. ((x.0, pick_bytes x.1, x.2), x.3.now)) result (counted_at at body.now) }
    ensures width { IfOk result (λ x. (x.0 ≡ 2) ⊎ (x.0 ≡ 4)) }
{
    let short = ReadRefusal::BadRecord { kind: IPMA, at };
    let (version, flags, rest) = front_version(body, short)?;
    let width = id_width(0, version, ReadRefusal::BadVersion { kind: IPMA, at })?;
    let (count, rest) = front32(rest, short)?;
    Ok((width, flags % 2 == 1, count, rest))
}

/// What was read before and so many entries more, and the bytes after them.
fn read_entries<'a>(
    alloc: Global,
    mut table: Table,
    width: u8,
    two_bytes: bool,
    count: u32,
    bytes: &'a [u8],
    at: u64,
) -> Result<(Table, &'a [u8]), OpenFault>
    requires table { IsTable table }
    requires few { table.rows ≤ ROWS }
    requires width { (width ≡ 2) ⊎ (width ≡ 4) }
    ensures exact { Gives (λ x. (x.0.assocs, x.1.now)) result (entries_from (entry_at ROWS at width (pick_bytes two_bytes)) table.assocs count bytes.now) }
    ensures table { IfOk result (λ x. IsTable x.0) }
    ensures few { IfOk result (λ x. x.0.rows ≤ ROWS) }
{
    let mut rest = bytes;
    for _ in 0..count {
        let (assoc, after) = read_assoc(alloc, table.rows, width, two_bytes, rest, at)?;
        table.add(assoc)?;
        rest = after;
    }
    Ok((table, rest))
}

/// How many entries an `ipma` can hold: no more than it states, than its bytes can hold and than a table
/// may have. It is 0 where the count is not to be read.
fn entries_held(view: &BoxView<'_>) -> usize
    ensures held { result * LEAST_ENTRY ≤ length view.now.body.now }
    ensures few { result ≤ ROWS }
{
    match read_count(view.body, view.at) {
        Ok((_, _, count, _)) => (count as usize)
            .min(view.body.len() / LEAST_ENTRY)
            .min(ROWS),
        Err(_) => 0,
    }
}

/// How many entries the `ipma` among these boxes can hold, and no more than a table may have.
pub fn room_for_entries(boxes: &InnerBoxes<'_>) -> usize
    ensures held { result * LEAST_ENTRY ≤ sum_by (λ b. length b.body) (of_kind IPMA boxes.now) }
    ensures few { result ≤ ROWS }
{
    let mut left = boxes.copy();
    let mut many = 0;
    while let Some(view) = left.next_of(IPMA) {
        many = (many + entries_held(&view)).min(ROWS);
    }
    many
}

/// What was read before and the entries of an `ipma`.
#[tactic(auto, unfolding(crate::specs::Ipma::with_ipma))]
pub fn read_ipma(alloc: Global, table: Table, view: &BoxView<'_>) -> Result<Table, OpenFault>
    requires table { IsTable table }
    requires few { table.rows ≤ ROWS }
    ensures exact { Gives (λ t. t.assocs) result (with_ipma ROWS table.assocs (box_of view.now)) }
    ensures table { IfOk result (λ t. IsTable t) }
    ensures few { IfOk result (λ t. t.rows ≤ ROWS) }
{
    let (width, two_bytes, count, rest) = read_count(view.body, view.at)?;
    let (table, _) = read_entries(alloc, table, width, two_bytes, count, rest, view.at)?;
    Ok(table)
}
