//! The leaves of items, those of each item counted once, in an order of the items.

ghost use Rattle.std.specs.Prelude.{◌≡◌, ◌<◌, ◌-◌, ◌^◌, List, IfOk, Ok, length, min, map};
ghost use Rattle.hf_base.specs.BytesOf.{by_method};
ghost use Rattle.hf_base.specs.Counts.{leaves_of as leaves_are};
ghost use Rattle.hf_base.specs.Located.{Located as Stated};
ghost use Rattle.hf_base.specs.LocationFaults.{bad_index_fault, loc_cycle_fault, too_scattered_fault};
ghost use Rattle.hf_base.specs.Members.{Rises};
ghost use Rattle.hf_base.specs.Reading.{Reads, Gives};
ghost use Rattle.hf_extent.specs.Known.{at_place, leaves_by};
ghost use Rattle.hf_extent.specs.Places.{AreAt, links_from, place_of};
ghost use Rattle.hf_extent.specs.Seen.{item_seen, items_seen};
ghost use Rattle.hf_order.specs.Order.{IsOrder};

use crate::items::Located;
use crate::sources::source;
use hf_base::limits::PIECES;
use hf_base::{Extent, NoMemory, OpenFault, ReadRefusal};
use std::alloc::Global;

/// How many leaves an extent has.
fn leaves_in(ids: &[u32], item: &Located<'_>, extent: &Extent, counts: &[u64]) -> u64
    requires rising { Rises ◌<◌ ids.now }
    requires known { length counts.now ≡ length ids.now }
    ensures { result ≡ by_method item.now.method 1 1 (at_place counts.now (place_of ids.now (item_seen item.now) extent.now)) }
{
    if item.method != 2 {
        return 1;
    }
    match source(ids, item, extent) {
        Some(at) => counts[at],
        None => 0,
    }
}

/// How many leaves an item has, or 2^64 - 1, where those of the items that it takes bytes from are
/// known.
fn leaves_of(ids: &[u32], item: &Located<'_>, counts: &[u64]) -> u64
    requires rising { Rises ◌<◌ ids.now }
    requires known { length counts.now ≡ length ids.now }
    ensures { result ≡ min (leaves_by ids.now counts.now (item_seen item.now)) (2 ^ 64 - 1) }
{
    let mut total: u64 = 0;
    for extent in item.extents {
        total = total.saturating_add(leaves_in(ids, item, extent, counts));
    }
    total
}

/// How many leaves each item has, or 2^64 - 1.
fn leaves(
    alloc: Global,
    ids: &[u32],
    items: &[Located<'_>],
    order: &[usize],
) -> Result<Vec<u64>, NoMemory>
    requires rising { Rises ◌<◌ ids.now }
    requires known { AreAt ids.now (items_seen items.now) }
    requires ordered { IsOrder (length ids.now) (links_from ids.now 0 (items_seen items.now)) order.now }
    requires named { bad_index_fault (items_seen items.now) ≡ Ok tt }
    requires ending { loc_cycle_fault (items_seen items.now) ≡ Ok tt }
    ensures { IfOk result (λ counts. counts.items ≡ map (λ r. min (leaves_are (items_seen items.now) r) (2 ^ 64 - 1)) (items_seen items.now)) }
{
    let mut counts = vec![in alloc; 0u64; ids.len()]?;
    for at in order {
        counts[*at] = leaves_of(ids, &items[*at], &counts);
    }
    Ok(counts)
}

/// Refuses more than `PIECES` leaves.
fn too_scattered(counts: &[u64]) -> Result<(), ReadRefusal>
    ensures { (items : List Stated) → counts.now ≡ map (λ r. min (leaves_are items r) (2 ^ 64 - 1)) items → Reads (λ x. x) result (too_scattered_fault items) }
{
    let mut count: u64 = 0;
    for leaves in counts {
        count = count.saturating_add(*leaves);
    }
    if count > PIECES {
        return Err(ReadRefusal::TooScattered { count });
    }
    Ok(())
}

/// Refuses more than `PIECES` leaves.
pub fn check_leaves(
    alloc: Global,
    ids: &[u32],
    items: &[Located<'_>],
    order: &[usize],
) -> Result<(), OpenFault>
    requires rising { Rises ◌<◌ ids.now }
    requires known { AreAt ids.now (items_seen items.now) }
    requires ordered { IsOrder (length ids.now) (links_from ids.now 0 (items_seen items.now)) order.now }
    requires named { bad_index_fault (items_seen items.now) ≡ Ok tt }
    requires ending { loc_cycle_fault (items_seen items.now) ≡ Ok tt }
    ensures { Gives (λ x. x) result (too_scattered_fault (items_seen items.now)) }
{
    let counts = leaves(alloc, ids, items, order)?;
    too_scattered(&counts)?;
    Ok(())
}
