//! Items that are made of themselves, through others or not. That they are refused is this project's
//! own rule.

ghost use Rattle.std.specs.Prelude.{◌≡◌, ◌<◌, length, map, slice_index, IfOk};
ghost use Rattle.hf_base.specs.Members.{IsIn, Rises};
ghost use Rattle.hf_order.specs.Order.{AreWithin};
ghost use Rattle.hf_derived.specs.Cycle.{AreAmong, IsLeastCycle, IsFirstLeft, pair_at};

use hf_base::NoMemory;
use hf_order::order_of;
use std::alloc::Global;

/// The place of an id among ids that rise.
fn place_of(ids: &[u32], id: u32) -> usize
    requires rises { Rises ◌<◌ ids.now }
    requires among { IsIn id ids.now }
    ensures within { result < length ids.now }
    ensures there { slice_index ids.now result ≡ id }
{
    match ids.binary_search(&id) {
        Ok(place) => place,
        Err(_) => unreachable!(),
    }
}

/// The places of the ids in each pair.
fn places(alloc: Global, ids: &[u32], pairs: &[(u32, u32)]) -> Result<Vec<(usize, usize)>, NoMemory>
    requires rises { Rises ◌<◌ ids.now }
    requires among { AreAmong ids.now pairs.now }
    ensures within { IfOk result (λ places. AreWithin (length ids.now) places.items) }
    ensures there { IfOk result (λ places. map (pair_at ids.now) places.items ≡ pairs.now) }
{
    let mut places = Vec::with_capacity(alloc, pairs.len())?;
    for pair in pairs {
        places.push((place_of(ids, pair.0), place_of(ids, pair.1)))?;
    }
    Ok(places)
}

/// The first place where something is left.
fn first_left(left: &[usize]) -> Option<usize>
    ensures { IsFirstLeft left.now result }
{
    left.iter().position(|waits| *waits > 0)
}

/// The least id from which a walk along the pairs never ends, and `None` exactly where every walk ends.
/// Each pair is an item and one that it is made of, so such an item is made of itself. `NoMemory` comes
/// where memory was refused.
///
/// n pairs take time that grows as n log n: each end is found by halving, and the order does the rest.
pub fn derive_cycle(
    alloc: Global,
    ids: &[u32],
    pairs: &[(u32, u32)],
) -> Result<Option<u32>, NoMemory>
    requires rises { Rises ◌<◌ ids.now }
    requires among { AreAmong ids.now pairs.now }
    ensures { IfOk result (IsLeastCycle pairs.now) }
{
    let places = places(alloc, ids, pairs)?;
    let order = order_of(alloc, ids.len(), &places)?;
    match first_left(&order.left) {
        Some(place) => Ok(Some(ids[place])),
        None => Ok(None),
    }
}
