//! The items that extents of method 2 take their bytes from, by their places among the ids.

ghost use Rattle.std.specs.List.{list_any};
ghost use Rattle.std.specs.Option.{is_none, option_map, option_to_list};
ghost use Rattle.std.specs.Prelude.{◌≡◌, ◌<◌, ◌++◌, length, IfSome, IfOk, OnOk};
ghost use Rattle.hf_base.specs.LocationFaults.{bad_index_fault};
ghost use Rattle.hf_base.specs.Members.{Rises};
ghost use Rattle.hf_base.specs.Reading.{Reads};
ghost use Rattle.hf_extent.specs.Places.{AreAt, id_place, place_of, has_bad_place, item_links, links_from};
ghost use Rattle.hf_extent.specs.Seen.{item_seen, items_seen};

use crate::items::Located;
use hf_base::{Extent, NoMemory, ReadRefusal};
use std::alloc::Global;

/// The place of an id among ids that rise.
pub fn place(ids: &[u32], id: u32) -> Option<usize>
    requires { Rises ◌<◌ ids.now }
    ensures value { result ≡ id_place ids.now id }
    ensures within { IfSome result (λ at. at < length ids.now) }
{
    match ids.binary_search(&id) {
        Ok(at) => Some(at),
        Err(_) => None,
    }
}

/// The place of the item that an extent of method 2 takes its bytes from.
pub fn source(ids: &[u32], item: &Located<'_>, extent: &Extent) -> Option<usize>
    requires { Rises ◌<◌ ids.now }
    ensures value { result ≡ place_of ids.now (item_seen item.now) extent.now }
    ensures within { IfSome result (λ at. at < length ids.now) }
{
    if extent.index == 0 || extent.index > item.sources.len() as u64 {
        return None;
    }
    place(ids, item.sources.get((extent.index - 1) as usize))
}

/// Whether an extent has no such item.
fn any_lacks(ids: &[u32], item: &Located<'_>) -> bool
    requires { Rises ◌<◌ ids.now }
    ensures { result ≡ list_any (λ extent. is_none (place_of ids.now (item_seen item.now) extent)) (item_seen item.now).extents }
{
    for extent in item.extents {
        if source(ids, item, extent).is_none() {
            return true;
        }
    }
    false
}

/// Whether an extent of method 2 has no such item.
fn lacks_source(ids: &[u32], item: &Located<'_>) -> bool
    requires { Rises ◌<◌ ids.now }
    ensures { result ≡ has_bad_place ids.now (item_seen item.now) }
{
    item.method == 2 && any_lacks(ids, item)
}

/// Refuses the first item with an extent whose index names no item.
#[tactic(auto, unfolding(hf_base::specs::LocationFaults::bad_index_fault))]
pub fn bad_index(ids: &[u32], items: &[Located<'_>]) -> Result<(), ReadRefusal>
    requires rising { Rises ◌<◌ ids.now }
    requires known { AreAt ids.now (items_seen items.now) }
    ensures { Reads (λ x. x) result (bad_index_fault (items_seen items.now)) }
{
    for item in items {
        if lacks_source(ids, item) {
            return Err(ReadRefusal::BadIndex { id: item.id });
        }
    }
    Ok(())
}

/// One link more, where there is a place.
fn add_link(pairs: &mut Vec<(usize, usize)>, i: usize, place: Option<usize>) -> Result<(), NoMemory>
    ensures { OnOk result (pairs.new.items ≡ pairs.old.items ++ option_to_list (option_map (λ at. (i, at)) place)) }
{
    if let Some(at) = place {
        pairs.push((i, at))?;
    }
    Ok(())
}

/// The links of the item at a place, behind those of other items.
fn add_links(
    pairs: &mut Vec<(usize, usize)>,
    ids: &[u32],
    i: usize,
    item: &Located<'_>,
) -> Result<(), NoMemory>
    requires { Rises ◌<◌ ids.now }
    ensures { OnOk result (pairs.new.items ≡ pairs.old.items ++ item_links ids.now i (item_seen item.now)) }
{
    if item.method != 2 {
        return Ok(());
    }
    for extent in item.extents {
        let place = source(ids, item, extent);
        add_link(pairs, i, place)?;
    }
    Ok(())
}

/// Each item's place with those of the items that it takes bytes from.
pub fn links(
    alloc: Global,
    ids: &[u32],
    items: &[Located<'_>],
) -> Result<Vec<(usize, usize)>, NoMemory>
    requires { Rises ◌<◌ ids.now }
    ensures { IfOk result (λ pairs. pairs.items ≡ links_from ids.now 0 (items_seen items.now)) }
{
    let mut pairs = Vec::new(alloc);
    for (i, item) in items.iter().enumerate() {
        add_links(&mut pairs, ids, i, item)?;
    }
    Ok(pairs)
}
