//! The plan is made.

ghost use Rattle.std.specs.Prelude.{◌≡◌, ◌≤◌, map, Option, Some, None, IfOk, if◌then◌else◌};
ghost use Rattle.hf_store.specs.Counts.{counts_of, counts_of_item};
ghost use Rattle.hf_store.specs.Layout.{own, has_bytes, in_idat as stands_in_idat};
ghost use Rattle.hf_store.specs.Seen.{item_of};
ghost use Rattle.hf_plan.specs.Plan.{start_of, IsPlan};

use crate::planned::Plan;
use crate::sizes::{file_size, sizes_with};
use hf_base::NoMemory;
use hf_store::{Item, Store, in_idat};
use hf_table::make_table;
use std::alloc::Global;

/// The bytes of an item that stand in `idat`.
fn idat_len(item: &Item<'_>) -> u64
    ensures { result ≡ (counts_of_item (item_of item.now)).idat }
{
    if in_idat(item) { item.body.len() } else { 0 }
}

/// The bytes of an item that stand in `mdat`.
fn mdat_len(item: &Item<'_>) -> u64
    ensures { result ≡ (counts_of_item (item_of item.now)).mdat }
{
    if in_idat(item) { 0 } else { item.body.len() }
}

/// The offset of an item: the next one in the body of `idat`, or the next one in the file.
fn start_at(item: &Item<'_>, inner: u64, outer: u64) -> Option<u64>
    ensures { result ≡ (if has_bytes (item_of item.now).bytes then Some (if stands_in_idat (item_of item.now) then inner else outer) else None) }
{
    if item.body.len() == 0 {
        None
    } else if in_idat(item) {
        Some(inner)
    } else {
        Some(outer)
    }
}

/// The offset of each item in a file of so many bytes, which ends with the bytes of `mdat`.
fn starts_in(alloc: Global, store: &Store<'_>, total: u64) -> Result<Vec<Option<u64>>, NoMemory>
    requires { (counts_of store.now).mdat ≤ total }
    ensures { IfOk result (λ v. v.items ≡ map (start_of own total store.now.items) store.now.items) }
{
    let mut starts = Vec::with_capacity(alloc, store.len())?;
    let mut inner: u64 = 0;
    let mut outer = total - store.counts().mdat;
    for i in 0..store.len() {
        let item = store.at(i);
        starts.push(start_at(item, inner, outer))?;
        inner += idat_len(item);
        outer += mdat_len(item);
    }
    Ok(starts)
}

/// The plan of the store's canonical file. `NoMemory` comes only where memory was refused.
pub fn plan(alloc: Global, store: &Store<'_>) -> Result<Plan, NoMemory>
    ensures { IfOk result (λ p. IsPlan store.now p) }
{
    let wide = store.counts().wide > 0;
    let long = file_size(store, &sizes_with(store, false)) >= 1 << 32;
    let sizes = sizes_with(store, long);
    let total = file_size(store, &sizes);
    let starts = starts_in(alloc, store, total)?;
    let table = make_table(alloc, store)?;
    Ok(Plan {
        wide,
        long,
        total,
        starts,
        sizes,
        table,
    })
}
