//! How many bytes items have by what their extents state, those of each item counted once, in an order of
//! the items.

ghost use Rattle.std.specs.List.{list_any};
ghost use Rattle.std.specs.Option.{option_copied};
ghost use Rattle.std.specs.Prelude.{◌≡◌, ◌<◌, ◌-◌, ◌^◌, ℕ, List, Option, IfOk, Ok, length, min};
ghost use Rattle.hf_base.specs.Counts.{size_of as size_are, inner_size as inner_size_of};
ghost use Rattle.hf_base.specs.Levels.{told};
ghost use Rattle.hf_base.specs.Located.{Located as Stated, source_of};
ghost use Rattle.hf_base.specs.LocationFaults.{bad_index_fault, loc_cycle_fault, out_of_item_fault, too_many_bytes_fault, passes as passes_of, is_out_of_item as is_out_of_item_of};
ghost use Rattle.hf_base.specs.Members.{Rises};
ghost use Rattle.hf_base.specs.Reading.{Reads, Gives};
ghost use Rattle.hf_extent.specs.Known.{source_by, size_by, stopped, sizes_fault};
ghost use Rattle.hf_extent.specs.Places.{AreAt, links_from};
ghost use Rattle.hf_extent.specs.Seen.{item_seen, items_seen};
ghost use Rattle.hf_order.specs.Order.{IsOrder};

use crate::checks::{end_of, inner_size};
use crate::items::Located;
use crate::sources::source;
use hf_base::limits::BODY;
use hf_base::{Extent, NoMemory, OpenFault, ReadRefusal};
use std::alloc::Global;

/// How many bytes the source of an extent has.
fn source_size(
    len: u64,
    inner: u64,
    ids: &[u32],
    item: &Located<'_>,
    extent: &Extent,
    sizes: &[u128],
) -> u128
    requires rising { Rises ◌<◌ ids.now }
    requires known { length sizes.now ≡ length ids.now }
    ensures { result ≡ source_by len inner ids.now sizes.now (item_seen item.now) extent.now }
{
    if item.method == 2 {
        return match source(ids, item, extent) {
            Some(at) => sizes[at],
            None => 0,
        };
    }
    if item.method == 1 {
        return u128::from(inner);
    }
    u128::from(len)
}

/// How many bytes an item has, or 2^128 - 1, where those of the items that it takes bytes from are
/// known.
fn size_of(len: u64, inner: u64, ids: &[u32], item: &Located<'_>, sizes: &[u128]) -> u128
    requires rising { Rises ◌<◌ ids.now }
    requires known { length sizes.now ≡ length ids.now }
    ensures { result ≡ min (size_by len inner ids.now sizes.now (item_seen item.now)) (2 ^ 128 - 1) }
{
    let mut total: u128 = 0;
    for extent in item.extents {
        let size = if extent.length == 0 {
            source_size(len, inner, ids, item, extent, sizes)
        } else {
            u128::from(extent.length)
        };
        total = total.saturating_add(size);
    }
    total
}

/// How many bytes each item has, or 2^128 - 1.
fn sizes(
    alloc: Global,
    len: u64,
    inner: u64,
    ids: &[u32],
    items: &[Located<'_>],
    order: &[usize],
) -> Result<Vec<u128>, NoMemory>
    requires rising { Rises ◌<◌ ids.now }
    requires known { AreAt ids.now (items_seen items.now) }
    requires ordered { IsOrder (length ids.now) (links_from ids.now 0 (items_seen items.now)) order.now }
    requires named { bad_index_fault (items_seen items.now) ≡ Ok tt }
    requires ending { loc_cycle_fault (items_seen items.now) ≡ Ok tt }
    ensures { IfOk result (λ sizes. sizes.items ≡ stopped len inner (items_seen items.now)) }
{
    let mut sizes = vec![in alloc; 0u128; ids.len()]?;
    for at in order {
        sizes[*at] = size_of(len, inner, ids, &items[*at], &sizes);
    }
    Ok(sizes)
}

/// Whether an extent passes the end of the item that it takes its bytes from.
fn passes_source(
    len: u64,
    inner: u64,
    ids: &[u32],
    items: &[Located<'_>],
    item: &Located<'_>,
    extent: &Extent,
    sizes: &[u128],
) -> bool
    requires rising { Rises ◌<◌ ids.now }
    requires at { AreAt ids.now (items_seen items.now) }
    requires known { sizes.now ≡ stopped len inner (items_seen items.now) }
    ensures { result ≡ passes_of (told 0 (size_are len inner (items_seen items.now)) (source_of (items_seen items.now) (item_seen item.now) extent.now)) (item_seen item.now) extent.now }
{
    let end = end_of(item, extent);
    match source(ids, item, extent) {
        Some(at) => end > sizes[at],
        None => end > 0,
    }
}

/// Whether an extent passes the end of the item that it names.
fn any_passes(
    len: u64,
    inner: u64,
    ids: &[u32],
    items: &[Located<'_>],
    item: &Located<'_>,
    sizes: &[u128],
) -> bool
    requires rising { Rises ◌<◌ ids.now }
    requires at { AreAt ids.now (items_seen items.now) }
    requires known { sizes.now ≡ stopped len inner (items_seen items.now) }
    ensures { result ≡ list_any (λ extent. passes_of (told 0 (size_are len inner (items_seen items.now)) (source_of (items_seen items.now) (item_seen item.now) extent)) (item_seen item.now) extent) (item_seen item.now).extents }
{
    for extent in item.extents {
        if passes_source(len, inner, ids, items, item, extent, sizes) {
            return true;
        }
    }
    false
}

/// Whether an extent of method 2 passes the end of another item.
fn is_out_of_item(
    len: u64,
    inner: u64,
    ids: &[u32],
    items: &[Located<'_>],
    item: &Located<'_>,
    sizes: &[u128],
) -> bool
    requires rising { Rises ◌<◌ ids.now }
    requires at { AreAt ids.now (items_seen items.now) }
    requires known { sizes.now ≡ stopped len inner (items_seen items.now) }
    ensures { result ≡ is_out_of_item_of len inner (items_seen items.now) (item_seen item.now) }
{
    item.method == 2 && any_passes(len, inner, ids, items, item, sizes)
}

/// Refuses the first item with an extent that passes the end of another item.
fn out_of_item(
    len: u64,
    inner: u64,
    ids: &[u32],
    items: &[Located<'_>],
    sizes: &[u128],
) -> Result<(), ReadRefusal>
    requires rising { Rises ◌<◌ ids.now }
    requires at { AreAt ids.now (items_seen items.now) }
    requires known { sizes.now ≡ stopped len inner (items_seen items.now) }
    ensures { (F : List ℕ) (idat : Option (List ℕ)) → len ≡ length F → inner ≡ inner_size_of idat → Reads (λ x. x) result (out_of_item_fault F idat (items_seen items.now)) }
{
    for item in items {
        if is_out_of_item(len, inner, ids, items, item, sizes) {
            return Err(ReadRefusal::OutOfItem { id: item.id });
        }
    }
    Ok(())
}

/// The lesser of a number and 2^64 - 1.
fn short(n: u128) -> u64
    ensures { result ≡ min n (2 ^ 64 - 1) }
{
    n.min(u128::from(u64::MAX)) as u64
}

/// Refuses more than `BODY` bytes.
fn too_many_bytes(sizes: &[u128]) -> Result<(), ReadRefusal>
    ensures { (F : List ℕ) (idat : Option (List ℕ)) (items : List Stated) → sizes.now ≡ stopped (length F) (inner_size_of idat) items → Reads (λ x. x) result (too_many_bytes_fault F idat items) }
{
    let mut sum: u128 = 0;
    for size in sizes {
        sum = sum.saturating_add(*size);
    }
    if sum > u128::from(BODY) {
        return Err(ReadRefusal::TooManyBytes { sum: short(sum) });
    }
    Ok(())
}

/// Refuses an extent that passes the end of another item, and then more than `BODY` bytes.
pub fn check_sizes(
    alloc: Global,
    file: &[u8],
    idat: Option<&[u8]>,
    ids: &[u32],
    items: &[Located<'_>],
    order: &[usize],
) -> Result<(), OpenFault>
    requires rising { Rises ◌<◌ ids.now }
    requires known { AreAt ids.now (items_seen items.now) }
    requires ordered { IsOrder (length ids.now) (links_from ids.now 0 (items_seen items.now)) order.now }
    requires named { bad_index_fault (items_seen items.now) ≡ Ok tt }
    requires ending { loc_cycle_fault (items_seen items.now) ≡ Ok tt }
    ensures { Gives (λ x. x) result (sizes_fault file.now (option_copied idat.entry) (items_seen items.now)) }
{
    let len = file.len() as u64;
    let inner = inner_size(idat);
    let sizes = sizes(alloc, len, inner, ids, items, order)?;
    out_of_item(len, inner, ids, items, &sizes)?;
    too_many_bytes(&sizes)?;
    Ok(())
}
