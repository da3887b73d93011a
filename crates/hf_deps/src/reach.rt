//! What is reached from the primary item along pairs, sorted by their second item.

ghost use Rattle.std.specs.Prelude.{◌≡◌, ◌==◌, ℕ, ◌+◌, ◌-◌, ◌<◌, ◌≤◌, Bool, List, [], length, map, filter, take, drop, IfOk, OnOk};
ghost use Rattle.std.specs.List.Sorted.{IsNonDecreasingBy};
ghost use Rattle.hf_deps.specs.Reach.{AreMarked, HasEnds, IsMet, IsReached, IsSpread};
ghost use Rattle.hf_store.specs.Lists.{IsIn};
ghost use Rattle.hf_store.specs.Store.{ids_of};

use hf_base::{Ids, NoMemory};
use hf_store::Store;
use std::alloc::Global;

/// Ids that are reached, and a mark for each item.
#[derive(Drop)]
pub(crate) struct Reached {
    /// Whether the item at the same place is reached.
    pub(crate) marks: Vec<bool>,
    /// The ids of these items, in the order in which they were reached.
    pub(crate) ids: Vec<u32>,
}

/// Where the pairs by this id begin, and where they end.
fn span_of(pairs: &[(u32, u32)], by: u32) -> (usize, usize)
    requires { IsNonDecreasingBy (λ pair. pair.1) pairs.now }
    ensures rises { result.0 ≤ result.1 }
    ensures within { result.1 ≤ length pairs.now }
    ensures between { take (result.1 - result.0) (drop result.0 pairs.now) ≡ filter (λ pair. pair.1 == by) pairs.now }
{
    let start = pairs.partition_point(|pair| pair.1 < by);
    let end = pairs.partition_point(|pair| pair.1 <= by);
    (start, end)
}

/// The pairs by this id.
fn pairs_by(pairs: &[(u32, u32)], by: u32) -> &[(u32, u32)]
    requires { IsNonDecreasingBy (λ pair. pair.1) pairs.now }
    ensures { result.now ≡ filter (λ pair. pair.1 == by) pairs.now }
{
    let (start, end) = span_of(pairs, by);
    &pairs[start..end]
}

/// An item is reached, perhaps again.
fn meet(
    store: &Store<'_>,
    id: u32,
    marks: &mut [bool],
    reached: &mut Vec<u32>,
) -> Result<(), NoMemory>
    requires there { IsIn id (ids_of store.now.items) }
    requires marked { AreMarked (ids_of store.now.items) marks.old reached.old.items }
    ensures { OnOk result (IsMet (ids_of store.now.items) id reached.old.items marks.new reached.new.items) }
{
    let Some(place) = store.position(id) else {
        unreachable!()
    };
    if !marks[place] {
        reached.push(id)?;
        marks[place] = true;
    }
    Ok(())
}

/// What is reached from one more of the ids that are reached.
fn follow(
    store: &Store<'_>,
    pairs: &[(u32, u32)],
    done: usize,
    marks: &mut [bool],
    reached: &mut Vec<u32>,
) -> Result<(), NoMemory>
    requires rises { IsNonDecreasingBy (λ pair. pair.1) pairs.now }
    requires ends { HasEnds (ids_of store.now.items) pairs.now }
    requires more { done < length reached.old.items }
    requires marked { AreMarked (ids_of store.now.items) marks.old reached.old.items }
    requires spread { IsSpread pairs.now [] store.now.primary done reached.old.items }
    ensures marked { OnOk result (AreMarked (ids_of store.now.items) marks.new reached.new.items) }
    ensures spread { OnOk result (IsSpread pairs.now [] store.now.primary (done + 1) reached.new.items) }
{
    let kept = pairs_by(pairs, reached[done]);
    for pair in kept {
        meet(store, pair.0, marks, reached)?;
    }
    Ok(())
}

/// What is reached from the primary item. n pairs take time that grows as n log n, and each of them is
/// followed once; there is no recursion, so a long chain takes no stack.
pub(crate) fn reach(
    alloc: Global,
    store: &Store<'_>,
    pairs: &[(u32, u32)],
) -> Result<Reached, NoMemory>
    requires rises { IsNonDecreasingBy (λ pair. pair.1) pairs.now }
    requires ends { HasEnds (ids_of store.now.items) pairs.now }
    ensures marked { IfOk result (λ reached. AreMarked (ids_of store.now.items) reached.marks.items reached.ids.items) }
    ensures exact { IfOk result (λ reached. IsReached pairs.now store.now.primary reached.ids.items) }
{
    let mut marks = vec![in alloc; false; store.len()]?;
    let mut ids = Vec::with_capacity(alloc, store.len())?;
    meet(store, store.primary(), &mut marks, &mut ids)?;
    let mut done = 0;
    while done < ids.len() {
        follow(store, pairs, done, &mut marks, &mut ids)?;
        done += 1;
    }
    Ok(Reached { marks, ids })
}

/// The ids of the items that are marked, by rising id.
pub(crate) fn marked_ids(alloc: Global, store: &Store<'_>, marks: &[bool]) -> Result<Ids, NoMemory>
    requires { length marks.now ≡ length store.now.items }
    ensures { IfOk result (λ ids. (test : ℕ → Bool) → marks.now ≡ map test (ids_of store.now.items) → ids ≡ filter test (ids_of store.now.items)) }
{
    let mut ids = Ids::new(alloc);
    for i in 0..store.len() {
        let is_marked = marks[i];
        if is_marked {
            ids.push(store.at(i).id)?;
        }
    }
    Ok(ids)
}
