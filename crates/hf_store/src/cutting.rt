//! What is left of references and groups where items go.

ghost use Rattle.std.specs.Prelude.{◌≡◌, length, map, filter};
ghost use Rattle.std.specs.List.{list_all, sum_by};
ghost use Rattle.hf_links.specs.Grpl.{group_of, groups_of};
ghost use Rattle.hf_store.specs.Capped.{capped};
ghost use Rattle.hf_store.specs.Changes.{cut_list as cut_list_stated, cut_refs as cut_refs_stated, cut_item as cut_item_stated, cut_group as cut_group_stated, cut_groups as cut_groups_stated, group_stays as group_stays_stated, is_other};
ghost use Rattle.hf_store.specs.Counts.{targets_of};
ghost use Rattle.hf_store.specs.Lists.{not_empty};
ghost use Rattle.hf_store.specs.Referred.{HasAll, HaveTargets, all_targets};
ghost use Rattle.hf_store.specs.Seen.{item_of, items_of};
ghost use Rattle.hf_store.specs.Stays.{IsSearchable, is_whole, stays_of};
ghost use Rattle.hf_store.specs.Store.{Item as StatedItem};

use crate::Item;
use crate::item::{RefList, Refs};
use crate::referring::Referred;
use crate::tally::{Counts, count_targets};
use hf_base::Series;
use hf_links::Group;
use hf_table::is_listed;
use std::alloc::Global;
use std::mem;

/// Which items stay.
#[derive(Drop)]
pub(crate) enum Stays<'a> {
    /// All but the one with this id.
    Others(u32),
    /// Those whose ids are listed, by rising id.
    Listed(&'a [u32]),
}

impl Stays<'_> {
    /// Whether an item stays.
    pub(crate) fn has(&self, id: u32) -> bool
        ensures { IsSearchable self.now → result ≡ stays_of self.now id }
    {
        match self {
            Stays::Others(gone) => id != *gone,
            Stays::Listed(ids) => is_listed(ids, id),
        }
    }
}

/// Reference lists and the ids in them, counted.
#[derive(Drop)]
pub(crate) struct Links {
    /// Lists.
    pub(crate) lists: u64,
    /// Ids.
    pub(crate) targets: u64,
}

/// Takes the ids of items that go out of a list of references.
fn cut_list(list: &mut RefList, stays: &Stays<'_>)
    requires { IsSearchable stays.now }
    ensures { list.new ≡ cut_list_stated (stays_of stays.now) list.old }
{
    list.to.retain(
        |id: &u32| -> bool
            ensures { IsSearchable stays.entry.now → result ≡ stays_of stays.entry.now id.now }
        { stays.has(*id) },
    );
}

/// Takes the ids of items that go out of lists of references.
fn cut_lists(lists: &mut Vec<RefList>, stays: &Stays<'_>)
    requires { IsSearchable stays.now }
    ensures { lists.new.items ≡ map (cut_list_stated (stays_of stays.now)) lists.old.items }
{
    for i in 0..lists.len() {
        cut_list(&mut lists[i], stays);
    }
}

/// Whether a list has ids.
fn has_ids(list: &RefList) -> bool
    ensures { result ≡ not_empty list.now.to }
{
    list.to.len() > 0
}

/// Whether all of some ids stay.
fn all_stay(ids: &[u32], stays: &Stays<'_>) -> bool
    requires { IsSearchable stays.now }
    ensures { result ≡ list_all (stays_of stays.now) ids.now }
{
    ids.iter().all(|id| stays.has(*id))
}

/// Whether nothing of a list of references goes.
fn list_stays(list: &RefList, stays: &Stays<'_>) -> bool
    requires { IsSearchable stays.now }
    ensures { result ≡ is_whole (stays_of stays.now) list.now }
{
    has_ids(list) && all_stay(list.to.as_slice(), stays)
}

/// Whether nothing of lists of references goes.
fn refs_stay(refs: &[RefList], stays: &Stays<'_>) -> bool
    requires { IsSearchable stays.now }
    ensures { result ≡ list_all (is_whole (stays_of stays.now)) refs.now }
{
    refs.iter().all(|list| list_stays(list, stays))
}

/// What is left of references; a list that would be empty goes.
fn cut_refs(refs: Refs, stays: &Stays<'_>) -> Refs
    requires { IsSearchable stays.now }
    ensures { result ≡ cut_refs_stated (stays_of stays.now) refs }
{
    let mut lists = refs.into_vec();
    cut_lists(&mut lists, stays);
    lists.retain(
        |list: &RefList| -> bool
            ensures { result ≡ not_empty list.now.to }
        { has_ids(list) },
    );
    Series::from_vec(lists)
}

/// Takes the ids of items that go out of an item's references, which stay untouched where none goes.
fn cut_item(alloc: Global, item: &mut Item<'_>, stays: &Stays<'_>)
    requires { IsSearchable stays.now }
    ensures { item_of item.new ≡ cut_item_stated (stays_of stays.now) (item_of item.old) }
{
    if refs_stay(item.refs.as_slice(), stays) {
        return;
    }
    let refs = mem::replace(&mut item.refs, Series::new(alloc));
    item.refs = cut_refs(refs, stays);
}

/// Takes the ids of items that go out of the references of others, and counts what is left.
pub(crate) fn cut_items(items: &mut Vec<Item<'_>>, stays: &Stays<'_>) -> Links
    requires { IsSearchable stays.now }
    ensures items { items_of items.new.items ≡ map (cut_item_stated (stays_of stays.now)) (items_of items.old.items) }
    ensures lists { result.lists ≡ capped (sum_by (λ (i : StatedItem). length i.refs) (items_of items.new.items)) }
    ensures targets { result.targets ≡ capped (sum_by (λ (i : StatedItem). targets_of i.refs) (items_of items.new.items)) }
{
    let alloc = *items.allocator();
    let mut links = Links {
        lists: 0,
        targets: 0,
    };
    for i in 0..items.len() {
        let item = &mut items[i];
        cut_item(alloc, item, stays);
        links.lists = links.lists.saturating_add(item.refs.len() as u64);
        links.targets = links
            .targets
            .saturating_add(count_targets(item.refs.as_slice()));
    }
    links
}

/// Takes the id of an item that goes out of the references of others, and counts what is left. Where
/// no reference leads to it nothing changes, and no item is looked at: what is left was counted
/// before.
pub(crate) fn cut_referred(
    items: &mut Vec<Item<'_>>,
    referred: &Referred,
    gone: u32,
    left: Counts,
) -> Links
    requires known { HasAll referred.now (all_targets (items_of items.old.items)) }
    requires some { HaveTargets (items_of items.old.items) }
    requires links { left.links ≡ sum_by (λ (i : StatedItem). length i.refs) (items_of items.old.items) }
    requires ids { left.targets ≡ sum_by (λ (i : StatedItem). targets_of i.refs) (items_of items.old.items) }
    ensures items { items_of items.new.items ≡ map (cut_item_stated (is_other gone)) (items_of items.old.items) }
    ensures lists { result.lists ≡ capped (sum_by (λ (i : StatedItem). length i.refs) (items_of items.new.items)) }
    ensures targets { result.targets ≡ capped (sum_by (λ (i : StatedItem). targets_of i.refs) (items_of items.new.items)) }
{
    if referred.has(gone) {
        return cut_items(items, &Stays::Others(gone));
    }
    Links {
        lists: left.links,
        targets: left.targets,
    }
}

/// How many of some ids stay.
fn count_staying(ids: &[u32], stays: &Stays<'_>) -> usize
    ensures { IsSearchable stays.now → result ≡ length (filter (stays_of stays.now) ids.now) }
{
    let mut count = 0;
    for id in ids {
        let is_there = stays.has(*id);
        if is_there {
            count += 1;
        }
    }
    count
}

/// Whether a group stays: an entity is left, and none is lost or nothing stands after the entities.
fn group_stays(group: &Group<'_>, stays: &Stays<'_>) -> bool
    ensures { IsSearchable stays.now → result ≡ group_stays_stated (stays_of stays.now) (group_of group.now) }
{
    let left = count_staying(group.entities.as_slice(), stays);
    left > 0 && (left == group.entities.len() || group.tail.is_empty())
}

/// Takes the ids of items that go out of a group's entities.
fn cut_group(group: &mut Group<'_>, stays: &Stays<'_>)
    requires { IsSearchable stays.now }
    ensures { group_of group.new ≡ cut_group_stated (stays_of stays.now) (group_of group.old) }
{
    group.entities.retain(
        |id: &u32| -> bool
            ensures { IsSearchable stays.entry.now → result ≡ stays_of stays.entry.now id.now }
        { stays.has(*id) },
    );
}

/// What is left of groups.
pub(crate) fn cut_groups(groups: &mut Vec<Group<'_>>, stays: &Stays<'_>)
    requires { IsSearchable stays.now }
    ensures { groups_of groups.new.items ≡ cut_groups_stated (stays_of stays.now) (groups_of groups.old.items) }
{
    groups.retain(
        |group: &Group| -> bool
            ensures { IsSearchable stays.entry.now → result ≡ group_stays_stated (stays_of stays.entry.now) (group_of group.now) }
        { group_stays(group, stays) },
    );
    for i in 0..groups.len() {
        cut_group(&mut groups[i], stays);
    }
}
