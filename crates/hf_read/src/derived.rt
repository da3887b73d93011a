//! Derived items (ISO/IEC 23008-12): bytes that do not fit what they are made of, and items that are
//! made of themselves. That both are refused is this project's own rule.

ghost use Rattle.std.specs.Prelude.{◌≡◌, ◌<◌, ◌++◌, map, IfOk, OnOk};
ghost use Rattle.hf_base.specs.Members.{Rises};
ghost use Rattle.hf_base.specs.Reading.{Gives};
ghost use Rattle.hf_derived.specs.Cycle.{AreAmong};
ghost use Rattle.hf_store.specs.Derived.{inputs, input_pairs};
ghost use Rattle.hf_store.specs.LimitFaults.{first_item};
ghost use Rattle.hf_store.specs.Seen.{item_of, items_of};
ghost use Rattle.hf_store.specs.Store.{ids_of as stated_ids};
ghost use Rattle.hf_read.specs.Faults.{derived_fault, is_misfit as misfits};
ghost use Rattle.hf_read.specs.Walks.{first_walker};

use hf_base::kinds::DIMG;
use hf_base::{NoMemory, OpenFault, ReadRefusal};
use hf_derived::{derive_cycle, fits};
use hf_store::{Item, RefList};
use std::alloc::Global;

/// The ids of the items that an item with these references is made of.
fn inputs_of(refs: &[RefList]) -> &[u32]
    ensures { result.now ≡ inputs refs.now }
{
    for list in refs {
        if list.kind == DIMG {
            return list.to.as_slice();
        }
    }
    &[]
}

/// Whether the bytes of an item do not fit what it is made of.
fn is_misfit(item: &Item<'_>) -> bool
    ensures { result ≡ misfits (item_of item.now) }
{
    !fits(item.kind, &item.body, inputs_of(item.refs.as_slice()).len())
}

/// The id of the first item whose bytes do not fit what it is made of.
fn first_misfit(items: &[Item<'_>]) -> Option<u32>
    ensures { result ≡ first_item misfits (items_of items.now) }
{
    for item in items {
        if is_misfit(item) {
            return Some(item.id);
        }
    }
    None
}

/// The ids of the items.
fn ids_of(alloc: Global, items: &[Item<'_>]) -> Result<Vec<u32>, NoMemory>
    ensures { IfOk result (λ ids. ids.items ≡ stated_ids (items_of items.now)) }
{
    let mut ids = Vec::with_capacity(alloc, items.len())?;
    for item in items {
        ids.push(item.id)?;
    }
    Ok(ids)
}

/// Adds an id with each of those that it is made of.
fn add_pairs(pairs: &mut Vec<(u32, u32)>, id: u32, inputs: &[u32]) -> Result<(), NoMemory>
    ensures { OnOk result (pairs.new.items ≡ pairs.old.items ++ map (λ to. (id, to)) inputs.now) }
{
    for to in inputs {
        pairs.push((id, *to))?;
    }
    Ok(())
}

/// Each item's id with each id that it is made of.
fn pairs_of(alloc: Global, items: &[Item<'_>]) -> Result<Vec<(u32, u32)>, NoMemory>
    ensures { IfOk result (λ pairs. pairs.items ≡ input_pairs (items_of items.now)) }
{
    let mut pairs = Vec::new(alloc);
    for item in items {
        add_pairs(&mut pairs, item.id, inputs_of(item.refs.as_slice()))?;
    }
    Ok(pairs)
}

/// The least id of an item that is made of itself, or of one that is.
fn first_endless(alloc: Global, items: &[Item<'_>]) -> Result<Option<u32>, NoMemory>
    requires rises { Rises ◌<◌ (stated_ids (items_of items.now)) }
    requires among { AreAmong (stated_ids (items_of items.now)) (input_pairs (items_of items.now)) }
    ensures { IfOk result (λ id. id ≡ first_walker (input_pairs (items_of items.now)) (stated_ids (items_of items.now))) }
{
    let ids = ids_of(alloc, items)?;
    let pairs = pairs_of(alloc, items)?;
    derive_cycle(alloc, &ids, &pairs)
}

/// Refuses derived items: BadDerived with the least id of an item whose bytes do not fit what it is
/// made of, and then DeriveCycle with the least id of one that is made of itself, or of one that is.
/// `NoMemory` comes where memory was refused.
///
/// n references of type `dimg` take time that grows as n log n.
#[tactic(auto, unfolding(crate::specs::Faults::derived_fault, crate::specs::Faults::bad_derived_fault, crate::specs::Faults::derive_cycle_fault))]
pub fn check_derived(alloc: Global, items: &[Item<'_>]) -> Result<(), OpenFault>
    requires rises { Rises ◌<◌ (stated_ids (items_of items.now)) }
    requires among { AreAmong (stated_ids (items_of items.now)) (input_pairs (items_of items.now)) }
    ensures { Gives (λ x. x) result (derived_fault (items_of items.now)) }
{
    if let Some(id) = first_misfit(items) {
        return Err(OpenFault::Unfit(ReadRefusal::BadDerived { id }));
    }
    if let Some(id) = first_endless(alloc, items)? {
        return Err(OpenFault::Unfit(ReadRefusal::DeriveCycle { id }));
    }
    Ok(())
}
