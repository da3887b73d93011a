//! The references that a store keeps of the boxes of `iref`.

ghost use Rattle.std.specs.Prelude.{◌≡◌, ◌<◌, ◌≤◌, ◌++◌, ℕ, List, map, filter, flat_map, length, IfOk, OnOk, IfNone, IfSome};
ghost use Rattle.std.specs.List.{AllByRecursion};
ghost use Rattle.hf_base.specs.Entries.{has_id};
ghost use Rattle.hf_base.specs.Members.{Rises};
ghost use Rattle.hf_base.specs.declared.four.FourCc.{FourCc as Kind};
ghost use Rattle.hf_base.specs.declared.loc.RefBox.{RefBox as Stated};
ghost use Rattle.hf_read.specs.Kept.{kept_refs as kept};
ghost use Rattle.hf_read.specs.References.{AreInOrder, BeginsElsewhere, BeginsWith, IsRun, is_of, list_if_any, seen};

use crate::search::is_item;
use hf_base::kinds::ILOC;
use hf_base::{FourCc, Ids, NoMemory, RefBox};
use hf_store::{RefList, Refs};
use std::alloc::Global;

/// The boxes by rising items and types; the sort is stable, so those of one item and type stay in file
/// order.
fn in_order<'a>(alloc: Global, links: &'a [RefBox]) -> Result<Vec<&'a RefBox>, NoMemory>
    ensures sorted { IfOk result (λ boxes. AreInOrder boxes.items) }
    ensures same { (from : ℕ) (kind : Kind) → IfOk result (λ boxes. filter (is_of from kind) (seen boxes.items) ≡ filter (is_of from kind) links.now) }
{
    let mut boxes: Vec<&RefBox> = links.iter().collect(alloc)?;
    boxes.sort_by_key(|link| (link.from, link.kind))?;
    Ok(boxes)
}

/// The boxes from the first one on that is not of an earlier item.
fn from_item<'a, 'b>(boxes: &'a [&'b RefBox], from: u32) -> &'a [&'b RefBox]
    requires { AreInOrder boxes.now }
    ensures within { length result.now ≤ length boxes.now }
    ensures sorted { AreInOrder result.now }
    ensures reached { AllByRecursion (λ b. from ≤ b.from) (seen result.now) }
    ensures kept { (ids : List ℕ) → kept ids (seen result.now) from ≡ kept ids (seen boxes.now) from }
{
    &boxes[boxes.partition_point(|link| link.from < from)..]
}

/// The type of the first box, where that is one of the item.
fn first_kind(boxes: &[&RefBox], from: u32) -> Option<FourCc>
    ensures found { IfSome result (λ kind. BeginsWith from kind (seen boxes.now)) }
    ensures none { IfNone result (BeginsElsewhere from (seen boxes.now)) }
{
    let first = boxes.first()?;
    if first.from != from {
        return None;
    }
    Some(first.kind)
}

/// How many of these boxes are of the item and type of the first one.
fn run_len(boxes: &[&RefBox], from: u32, kind: FourCc) -> usize
    requires sorted { AreInOrder boxes.now }
    requires first { BeginsWith from kind (seen boxes.now) }
    ensures { IsRun from kind boxes.now result }
{
    boxes.partition_point(|link| link.from == from && link.kind == kind)
}

/// Adds those of these ids that are items.
fn add_items(to: &mut Ids, ids: &[u32], more: &Ids) -> Result<(), NoMemory>
    requires { Rises ◌<◌ ids.now }
    ensures { OnOk result (to.new ≡ to.old ++ filter (λ id. has_id id ids.now) more.now) }
{
    for id in more.as_slice() {
        if is_item(ids, *id) {
            to.push(*id)?;
        }
    }
    Ok(())
}

/// The items that these boxes lead to, in their order.
fn targets(alloc: Global, ids: &[u32], boxes: &[&RefBox]) -> Result<Ids, NoMemory>
    requires { Rises ◌<◌ ids.now }
    ensures { IfOk result (λ to. to ≡ flat_map (λ (b : Stated). filter (λ id. has_id id ids.now) b.to) (seen boxes.now)) }
{
    let mut to = Ids::new(alloc);
    for link in boxes {
        add_items(&mut to, ids, &link.to)?;
    }
    Ok(to)
}

/// Adds the list of a type, unless that is `iloc` or the list is empty.
fn push_list(refs: &mut Refs, kind: FourCc, to: Ids) -> Result<(), NoMemory>
    ensures { OnOk result (refs.new ≡ refs.old ++ list_if_any kind to) }
{
    if kind.is(ILOC) || to.len() == 0 {
        return Ok(());
    }
    refs.push(RefList { kind, to })
}

/// The lists of an item, out of boxes in order.
fn refs_of(alloc: Global, ids: &[u32], boxes: &[&RefBox], from: u32) -> Result<Refs, NoMemory>
    requires rise { Rises ◌<◌ ids.now }
    requires sorted { AreInOrder boxes.now }
    ensures { IfOk result (λ refs. refs ≡ kept ids.now (seen boxes.now) from) }
{
    let mut refs = Refs::new(alloc);
    let mut rest = from_item(boxes, from);
    while let Some(kind) = first_kind(rest, from) {
        let len = run_len(rest, from, kind);
        let to = targets(alloc, ids, &rest[..len])?;
        push_list(&mut refs, kind, to)?;
        rest = &rest[len..];
    }
    Ok(refs)
}

/// The lists of each of these items, out of boxes in order.
fn refs_of_each(alloc: Global, ids: &[u32], boxes: &[&RefBox]) -> Result<Vec<Refs>, NoMemory>
    requires rise { Rises ◌<◌ ids.now }
    requires sorted { AreInOrder boxes.now }
    ensures { IfOk result (λ lists. lists.items ≡ map (kept ids.now (seen boxes.now)) ids.now) }
{
    let mut lists = Vec::with_capacity(alloc, ids.len())?;
    for id in ids {
        lists.push(refs_of(alloc, ids, boxes, *id)?)?;
    }
    Ok(lists)
}

/// The references that a store keeps for each of the items with these ids, in the order of the ids, out
/// of the boxes of `iref` in file order: a list for each type but `iloc` that leads to an item, by rising
/// type, with the ids of items alone. `NoMemory` comes where memory was refused. Which references are
/// kept is this project's own rule.
pub fn kept_refs(alloc: Global, ids: &[u32], links: &[RefBox]) -> Result<Vec<Refs>, NoMemory>
    requires { Rises ◌<◌ ids.now }
    ensures { IfOk result (λ lists. lists.items ≡ map (kept ids.now links.now) ids.now) }
{
    let boxes = in_order(alloc, links)?;
    refs_of_each(alloc, ids, &boxes)
}
