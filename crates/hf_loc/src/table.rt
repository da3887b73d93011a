//! The entries of an `iloc` that were read (ItemLocationBox of ISO/IEC 14496-12).

ghost use Rattle.std.specs.Prelude.{◌≡◌, ◌≤◌, ◌+◌, [], ◌∷◌, ◌++◌, length, vec_capacity, IfOk, OnOk};
ghost use Rattle.hf_base.specs.Entries.{has_id, refuse_if};
ghost use Rattle.hf_base.specs.Reading.{Gives};
ghost use Rattle.hf_base.specs.declared.fault.ReadRefusal.TheVariants.{DoubleLocation};
ghost use Rattle.hf_base.specs.declared.limits.TheConstants.{ROWS};
ghost use Rattle.hf_loc.specs.Iloc.{loc_ids, loc_rows, loc_at};
ghost use Rattle.hf_loc.specs.Views.{widths_in, IsTable};

use crate::fields::{read_extents, read_fields};
use crate::widths::Widths;
use hf_base::kinds::ILOC;
use hf_base::limits::ROWS;
use hf_base::{Loc, NoMemory, OpenFault, ReadRefusal, SeenIds};
use std::alloc::Global;

/// Entries, with what is known of them.
#[derive(Drop)]
pub struct Table {
    /// The entries, in their order.
    pub locs: Vec<Loc>,
    /// Entries and extents, counted.
    pub rows: usize,
    /// The ids of the entries.
    pub ids: SeenIds,
}

impl Table {
    /// No entries, and room for so many.
    pub fn with_capacity(alloc: Global, capacity: usize) -> Result<Table, NoMemory>
        ensures empty { IfOk result (λ t. t.locs.items ≡ []) }
        ensures table { IfOk result (λ t. IsTable t) }
        ensures room { IfOk result (λ t. vec_capacity t.locs ≡ capacity) }
    {
        Ok(Table {
            locs: Vec::with_capacity(alloc, capacity)?,
            rows: 0,
            ids: SeenIds::new(alloc),
        })
    }

    /// One more entry. DoubleLocation comes where an earlier one has its id.
    pub fn add(&mut self, loc: Loc) -> Result<(), OpenFault>
        requires table { IsTable self.old }
        requires few { self.old.rows + 1 + length loc.extents ≤ ROWS }
        ensures added { OnOk result (self.new.locs.items ≡ self.old.locs.items ++ loc ∷ []) }
        ensures table { OnOk result (IsTable self.new) }
        ensures few { OnOk result (self.new.rows ≤ ROWS) }
        ensures exact { Gives (λ x. x) result (refuse_if (has_id loc.id (loc_ids self.old.locs.items)) (DoubleLocation loc.id)) }
    {
        if !self.ids.meet(loc.id)? {
            return Err(OpenFault::Unfit(ReadRefusal::DoubleLocation { id: loc.id }));
        }
        self.rows += 1 + loc.extents.len();
        self.locs.push(loc)?;
        Ok(())
    }
}

/// The entry at the front, behind so many rows, and the bytes behind it.
#[tactic(auto, unfolding(crate::specs::Iloc::loc_at))]
pub fn read_loc<'a>(
    alloc: Global,
    rows: usize,
    widths: &Widths,
    bytes: &'a [u8],
    at: u64,
) -> Result<(Loc, &'a [u8]), OpenFault>
    requires { rows ≤ ROWS }
    ensures exact { Gives (λ x. (x.0, x.1.now)) result (loc_at ROWS at rows (widths_in widths.now) bytes.now) }
    ensures few { IfOk result (λ x. rows + 1 + length x.0.extents ≤ ROWS) }
{
    let short = ReadRefusal::BadRecord { kind: ILOC, at };
    let (fields, rest) = read_fields(widths, bytes, short)?;
    if rows + 1 + usize::from(fields.count) > ROWS {
        return Err(OpenFault::Unfit(ReadRefusal::TooLarge { kind: ILOC, at }));
    }
    let (extents, rest) = read_extents(alloc, widths, fields.count, rest, short)?;
    let loc = Loc {
        id: fields.id,
        method: fields.method,
        dref: fields.dref,
        base: fields.base,
        extents,
    };
    Ok((loc, rest))
}
