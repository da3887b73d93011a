//! Changes of a store.

ghost use Rattle.std.specs.Prelude.{◌≡◌, ◌<◌, ◌∷◌, ◌++◌, [], length, map, not, OnOk, OnErr};
ghost use Rattle.std.specs.List.Sorted.{IsStrictlyIncreasing};
ghost use Rattle.std.specs.Vec.{vec_capacity, vec_len};
ghost use Rattle.hf_store.specs.Capped.{capped_counts};
ghost use Rattle.hf_store.specs.Changes.{added, id_at, kept_only, removed, unnamed, with_hidden, with_primary, with_props, without_names, without_optionals, without_props};
ghost use Rattle.hf_store.specs.Counts.{counts_of_item, plus};
ghost use Rattle.hf_store.specs.Referred.{HasAll, targets_by};
ghost use Rattle.hf_store.specs.Seen.{item_of, items_of};
ghost use Rattle.hf_store.specs.Valid.{Valid};
ghost use Rattle.hf_table.specs.Held.{is_among, is_of, is_optional_of, props_in};
ghost use Rattle.hf_table.specs.Uses.{Gains, HasRoom};

use crate::cutting::{Links, Stays, cut_groups, cut_items, cut_referred};
use crate::item::{Item, Props};
use crate::referring::Referred;
use crate::store::Store;
use crate::tally::{Counts, count_groups, count_item, count_items};
use hf_base::{FourCc, Ids, NoMemory, Series};
use hf_prop::Held;
use hf_table::{Uses, is_listed};
use std::mem;

/// Counts with those of references and groups put in.
fn relinked(counts: Counts, links: &Links, groups: Counts) -> Counts
    ensures { result ≡ record counts { links = links.now.lists; targets = links.now.targets; groups = groups.groups; entities = groups.entities; tails = groups.tails } }
{
    Counts {
        links: links.lists,
        targets: links.targets,
        groups: groups.groups,
        entities: groups.entities,
        tails: groups.tails,
        ..counts
    }
}

/// Takes the names of items away.
fn unname(items: &mut Vec<Item<'_>>)
    ensures { items_of items.new.items ≡ map unnamed (items_of items.old.items) }
{
    for i in 0..items.len() {
        items[i].name = b"";
    }
}

/// Makes room behind the items of a store for one more, and has its references known and its properties
/// held. After `NoMemory` no property has more holders than before.
fn make_room<'a>(
    items: &mut Vec<Item<'a>>,
    referred: &mut Referred,
    uses: &mut Uses<'a>,
    item: &Item<'a>,
) -> Result<(), NoMemory>
    requires { HasRoom uses.old (props_in item.now.props) }
    ensures items { items.new.items ≡ items.old.items }
    ensures room { OnOk result (vec_len items.new < vec_capacity items.new) }
    ensures kept { HasAll referred.new referred.old }
    ensures known { OnOk result (HasAll referred.new (targets_by item.now.refs)) }
    ensures gains { OnOk result (Gains uses.old (props_in item.now.props) uses.new) }
    ensures same { OnErr result (Gains uses.old [] uses.new) }
{
    items.reserve(1)?;
    referred.add_refs(item.refs.as_slice())?;
    uses.add_all(item.props.as_slice())
}

/// Puts one more item behind those for which there is room, and counts it.
fn put_behind<'a>(items: &mut Vec<Item<'a>>, counts: &mut Counts, item: Item<'a>)
    requires { vec_len items.old < vec_capacity items.old }
    ensures items { items.new.items ≡ items.old.items ++ item.entry ∷ [] }
    ensures counts { counts.new ≡ capped_counts (plus counts.old (capped_counts (counts_of_item (item_of item.entry)))) }
{
    *counts = counts.plus(count_item(&item));
    items.push(item).ok().unwrap();
}

/// Puts one more item behind those of a store, with what is kept of it. After `NoMemory` the items and the
/// counts are as before, and no property has more holders.
fn add_item<'a>(
    items: &mut Vec<Item<'a>>,
    referred: &mut Referred,
    uses: &mut Uses<'a>,
    counts: &mut Counts,
    item: Item<'a>,
) -> Result<(), NoMemory>
    requires { HasRoom uses.old (props_in item.props) }
    ensures items { OnOk result (items.new.items ≡ items.old.items ++ item.entry ∷ []) }
    ensures known { OnOk result (HasAll referred.new (targets_by item.entry.refs)) }
    ensures gains { OnOk result (Gains uses.old (props_in item.entry.props) uses.new) }
    ensures counts { OnOk result (counts.new ≡ capped_counts (plus counts.old (capped_counts (counts_of_item (item_of item.entry))))) }
    ensures kept { HasAll referred.new referred.old }
    ensures unchanged { OnErr result (items.new.items ≡ items.old.items) }
    ensures same { OnErr result (Gains uses.old [] uses.new) }
    ensures uncounted { OnErr result (counts.new ≡ counts.old) }
{
    make_room(items, referred, uses, &item)?;
    put_behind(items, counts, item);
    Ok(())
}

impl<'a> Store<'a> {
    /// Makes the item with an id the primary one.
    pub fn set_primary(&mut self, id: u32)
        requires { Valid (with_primary id self.old) }
        ensures { self.new ≡ with_primary id self.old }
    {
        self.primary = id;
    }

    /// Hides the item at a place, counted from 0 by rising id, or shows it.
    pub fn set_hidden(&mut self, i: usize, hidden: bool)
        requires place { i < length self.old.items }
        requires valid { Valid (with_hidden i hidden self.old) }
        ensures { self.new ≡ with_hidden i hidden self.old }
    {
        let item = &mut self.items[i];
        item.hidden = hidden;
    }

    /// Takes the names of all items away.
    pub fn clear_names(&mut self)
        ensures { self.new ≡ without_names self.old }
    {
        unname(&mut self.items);
        self.counts = count_items(&self.items).plus(count_groups(&self.groups));
    }

    /// Drops the properties of one type of the item at a place, counted from 0 by rising id.
    pub fn drop_props(&mut self, i: usize, kind: FourCc)
        requires place { i < length self.old.items }
        requires valid { Valid (without_props i kind self.old) }
        ensures { self.new ≡ without_props i kind self.old }
    {
        let item = &mut self.items[i];
        self.uses.take_kind(item.props.as_slice(), kind);
        let left = self.counts.minus(count_item(item));
        item.props.retain(
            |held: &Held| -> bool
                ensures { result ≡ not (is_of kind held.now) }
            { held.prop.kind != kind },
        );
        self.counts = left.plus(count_item(item));
    }

    /// Drops the properties of one type that are not essential, of the item at a place, counted from 0 by
    /// rising id.
    pub fn drop_optional(&mut self, i: usize, kind: FourCc)
        requires place { i < length self.old.items }
        requires valid { Valid (without_optionals i kind self.old) }
        ensures { self.new ≡ without_optionals i kind self.old }
    {
        let item = &mut self.items[i];
        self.uses.take_optional(item.props.as_slice(), kind);
        let left = self.counts.minus(count_item(item));
        item.props.retain(
            |held: &Held| -> bool
                ensures { result ≡ not (is_optional_of kind held.now) }
            { held.prop.kind != kind || held.essential },
        );
        self.counts = left.plus(count_item(item));
    }

    /// Gives the item at a place, counted from 0 by rising id, other properties; they are spent in every
    /// case. After `NoMemory` the store is as before.
    pub fn set_props(&mut self, i: usize, props: Props<'a>) -> Result<(), NoMemory>
        requires place { i < length self.old.items }
        requires valid { Valid (with_props i props self.old) }
        ensures set { OnOk result (self.new ≡ with_props i props.entry self.old) }
        ensures unchanged { OnErr result (self.new ≡ self.old) }
    {
        let props = props.into_vec();
        let _bytes = self.uses.bytes();
        let item = &mut self.items[i];
        self.uses.replace(item.props.as_slice(), &props)?;
        let left = self.counts.minus(count_item(item));
        let _old = mem::replace(&mut item.props, Series::from_vec(props)).into_vec();
        self.counts = left.plus(count_item(item));
        Ok(())
    }

    /// One more item, behind the others; it is spent in every case. After `NoMemory` the store is as
    /// before.
    pub fn add(&mut self, item: Item<'a>) -> Result<(), NoMemory>
        requires { Valid (added (item_of item) self.old) }
        ensures added { OnOk result (self.new ≡ added (item_of item.entry) self.old) }
        ensures unchanged { OnErr result (self.new ≡ self.old) }
    {
        let _bytes = self.uses.bytes();
        add_item(
            &mut self.items,
            &mut self.referred,
            &mut self.uses,
            &mut self.counts,
            item,
        )
    }

    /// Keeps the items whose ids are listed, which rise; the others go as by `remove`.
    pub fn keep_only(&mut self, keep: &Ids)
        requires rises { IsStrictlyIncreasing keep.now }
        requires valid { Valid (kept_only keep.now self.old) }
        ensures { self.new ≡ kept_only keep.now self.old }
    {
        let ids = keep.as_slice();
        self.uses.take_others(&self.items, ids);
        self.items.retain(
            |item: &Item| -> bool
                ensures { IsStrictlyIncreasing ids.entry.now → result ≡ is_among ids.entry.now item.now.id }
            { is_listed(ids, item.id) },
        );
        let stays = Stays::Listed(ids);
        let _links = cut_items(&mut self.items, &stays);
        cut_groups(&mut self.groups, &stays);
        self.counts = count_items(&self.items).plus(count_groups(&self.groups));
    }

    /// Takes the item at a place out, counted from 0 by rising id, and its id from all references and
    /// groups: a list of references or a group of which nothing is left goes, and a group that loses an
    /// entity where bytes stand after its entities.
    pub fn remove(&mut self, i: usize)
        requires place { i < length self.old.items }
        requires valid { Valid (removed (id_at i self.old.items) self.old) }
        ensures { self.new ≡ removed (id_at i self.old.items) self.old }
    {
        let item = self.items.remove(i);
        self.uses.take_all(item.props.as_slice());
        let left = self.counts.minus(count_item(&item));
        let links = cut_referred(&mut self.items, &self.referred, item.id, left);
        cut_groups(&mut self.groups, &Stays::Others(item.id));
        let groups = count_groups(&self.groups);
        self.counts = relinked(left, &links, groups);
    }
}
