//! Pairs of an item and one that keeps it: the first is kept where the second is.

ghost use Rattle.std.specs.Prelude.{◌≡◌, ◌&&◌, ◌++◌, [], not, map, if◌then◌else◌, IfOk, OnOk};
ghost use Rattle.std.specs.List.{flat_map};
ghost use Rattle.std.specs.List.Sorted.{IsNonDecreasingBy, IsPermutation};
ghost use Rattle.hf_links.specs.Kinds.{is_minor, is_need};
ghost use Rattle.hf_deps.specs.Kept.{keeping, pairs_of};

use hf_base::NoMemory;
use hf_links::{is_minor_kind, is_need_kind};
use hf_store::{Item, RefList, Store};
use std::alloc::Global;

/// Adds the items that the one with an id needs by these references.
fn add_needs(pairs: &mut Vec<(u32, u32)>, id: u32, list: &RefList) -> Result<(), NoMemory>
    ensures { OnOk result (pairs.new.items ≡ pairs.old.items ++ (if is_need list.now.kind then map (λ to. (to, id)) list.now.to else [])) }
{
    if !is_need_kind(list.kind) {
        return Ok(());
    }
    let ids = list.to.as_slice();
    for to in ids {
        pairs.push((*to, id))?;
    }
    Ok(())
}

/// Unless bare, adds the item with an id for each picture that it is a thumbnail or an auxiliary
/// picture of by these references.
fn add_minors(
    pairs: &mut Vec<(u32, u32)>,
    bare: bool,
    id: u32,
    list: &RefList,
) -> Result<(), NoMemory>
    ensures { OnOk result (pairs.new.items ≡ pairs.old.items ++ (if is_minor list.now.kind && not bare then map (λ to. (id, to)) list.now.to else [])) }
{
    let counts = is_minor_kind(list.kind) && !bare;
    if !counts {
        return Ok(());
    }
    let ids = list.to.as_slice();
    for to in ids {
        pairs.push((id, *to))?;
    }
    Ok(())
}

/// Adds the pairs by the references of an item.
fn add_item(pairs: &mut Vec<(u32, u32)>, bare: bool, item: &Item<'_>) -> Result<(), NoMemory>
    ensures { OnOk result (pairs.new.items ≡ pairs.old.items ++ flat_map (pairs_of bare item.now.id) item.now.refs) }
{
    let refs = item.refs.as_slice();
    for list in refs {
        add_needs(pairs, item.id, list)?;
        add_minors(pairs, bare, item.id, list)?;
    }
    Ok(())
}

/// The pairs by the references of all items.
fn all_pairs(alloc: Global, store: &Store<'_>, bare: bool) -> Result<Vec<(u32, u32)>, NoMemory>
    ensures { IfOk result (λ pairs. pairs.items ≡ keeping bare store.now.items) }
{
    let mut pairs = Vec::new(alloc);
    for i in 0..store.len() {
        add_item(&mut pairs, bare, store.at(i))?;
    }
    Ok(pairs)
}

/// The same, sorted by the second item, so that all that one keeps stand together.
pub(crate) fn by_keeper(
    alloc: Global,
    store: &Store<'_>,
    bare: bool,
) -> Result<Vec<(u32, u32)>, NoMemory>
    ensures moved { IfOk result (λ pairs. IsPermutation (keeping bare store.now.items) pairs.items) }
    ensures rises { IfOk result (λ pairs. IsNonDecreasingBy (λ pair. pair.1) pairs.items) }
{
    let mut pairs = all_pairs(alloc, store, bare)?;
    pairs.sort_unstable_by_key(|pair| pair.1);
    Ok(pairs)
}
