//! The store of items.

ghost use Rattle.std.specs.Prelude.{◌≡◌, ◌<◌, ◌≤◌, ◌^◌, ◌↔◌, length, map, IfSome, IfNone, Some, slice_get, false, IsTrue};
ghost use Rattle.std.specs.List.{flat_map};
ghost use Rattle.hf_base.specs.declared.limits.TheConstants as limits;
ghost use Rattle.hf_head.specs.Ftyp.{brands_of};
ghost use Rattle.hf_links.specs.Grpl.{group_of};
ghost use Rattle.hf_store.specs.Counts.{counts_of};
ghost use Rattle.hf_store.specs.Lists.{IsIn};
ghost use Rattle.hf_store.specs.Referred.{all_targets};
ghost use Rattle.hf_store.specs.Sizes.{AreFew};
ghost use Rattle.hf_store.specs.Store.{ids_of};
ghost use Rattle.hf_store.specs.Table.{props_of, table_of};
ghost use Rattle.hf_store.specs.Valid.{Valid, body_sum, meta_len};
ghost use Rattle.hf_store.specs.Seen.{item_of};
ghost use Rattle.hf_table.specs.Table.{places_of, size_sum};

mod build;
mod changes;
mod lists;
mod room;

use crate::Item;
use crate::item::{GroupList, ItemList};
use crate::referring::Referred;
use crate::size::{meta_size, short_inner};
use crate::tally::Counts;
use hf_head::Brands;
use hf_links::Group;
use hf_prop::Prop;
use hf_table::Uses;
use std::marker::Model;

/// What a store is made of.
#[derive(Drop)]
pub struct Parts<'a> {
    /// The brands of the file.
    pub brands: Brands<'a>,
    /// The id of the primary item.
    pub primary: u32,
    /// The items.
    pub items: ItemList<'a>,
    /// The groups.
    pub groups: GroupList<'a>,
}

/// The items of a file and what it says of them, without where anything lies in it. Its type keeps
/// that it is valid: which stores are so is this project's own rule. It keeps the distinct
/// properties with the numbers of their holders, and what the length of `meta` follows from.
/// Each id that a reference leads to is in `referred`, so that no item is looked at for another id;
/// changes that take references away leave it as it is.
#[derive(Drop)]
pub struct Store<'a> {
    brands: Brands<'a>,
    primary: u32,
    items: Vec<Item<'a>>,
    groups: Vec<Group<'a>>,
    uses: Uses<'a>,
    counts: Counts,
    referred: Referred,
}

impl<'a> Model for Store<'a> {
    ghost use Rattle.hf_store.specs.Store.{ItemStore};

    ghost Value = { ItemStore };

    ghost use Rattle.hf_store.specs.Seen.{store_of};
    ghost use Rattle.hf_store.specs.Kept.{IsKept};

    ghost view = { store_of };

    ghost invariant = { IsKept };
}

impl<'a> Store<'a> {
    /// Does nothing, and says what the type keeps: the store is valid.
    pub fn valid(&self)
        ensures { Valid self.now }
    {
        // What the type keeps is known where a field is read.
        let _ = &self.brands;
    }

    /// The brands of the file.
    pub fn brands(&self) -> Brands<'a>
        ensures value { brands_of result ≡ self.now.brands }
        ensures few { length result.compatible.now ≤ limits.FILE }
    {
        self.brands
    }

    /// The id of the primary item.
    pub fn primary(&self) -> u32
        ensures { result ≡ self.now.primary }
    {
        self.primary
    }

    /// How many items there are.
    pub fn len(&self) -> usize
        ensures count { result ≡ length self.now.items }
        ensures few { result ≤ limits.ITEMS }
        ensures valid { Valid self.now }
    {
        self.items.len()
    }

    /// The item at a place, counted from 0 by rising id.
    pub fn at(&self, i: usize) -> &Item<'a>
        requires { i < length self.now.items }
        ensures { slice_get self.now.items i ≡ Some (item_of result.now) }
    {
        &self.items[i]
    }

    /// The place of the item with an id, counted from 0 by rising id.
    pub fn position(&self, id: u32) -> Option<usize>
        ensures some { IfSome result (λ i. slice_get (ids_of self.now.items) i ≡ Some id) }
        ensures none { IfNone result (IsIn id (ids_of self.now.items) → ⊥) }
        ensures valid { Valid self.now }
    {
        let mut low = 0;
        let mut high = self.len();
        while low < high {
            let middle = low + (high - low) / 2;
            let found = self.at(middle).id;
            if found == id {
                return Some(middle);
            }
            if found < id {
                low = middle + 1;
            } else {
                high = middle;
            }
        }
        None
    }

    /// The item with an id.
    pub fn item(&self, id: u32) -> Option<&Item<'a>>
        ensures some { IfSome result (λ item. (item.now.id ≡ id) × IsIn (item_of item.now) self.now.items) }
        ensures none { IfNone result (IsIn id (ids_of self.now.items) → ⊥) }
    {
        let i = self.position(id)?;
        Some(self.at(i))
    }

    /// Whether references may lead to an id. Where they can't, no item has one to it; otherwise
    /// nothing is said, since an id may still be known whose references are gone. It is a matter of
    /// speed: no item is looked at.
    pub fn may_be_referred_to(&self, id: u32) -> bool
        ensures { result ≡ false → IsIn id (all_targets self.now.items) → ⊥ }
    {
        self.referred.has(id)
    }

    /// How many groups there are.
    pub fn group_count(&self) -> usize
        ensures { result ≡ length self.now.groups }
    {
        self.groups.len()
    }

    /// The group at a place, counted from 0 by rising id.
    pub fn group_at(&self, i: usize) -> &Group<'a>
        requires { i < length self.now.groups }
        ensures { slice_get self.now.groups i ≡ Some (group_of result.now) }
    {
        &self.groups[i]
    }

    /// Whether an item has a property, whatever its essential mark.
    pub fn holds(&self, prop: &Prop<'a>) -> bool
        ensures { IsTrue result ↔ (0 < places_of prop.now (flat_map props_of self.now.items)) }
    {
        self.uses.holds(prop)
    }

    /// At how many places the property lists of items have a property.
    pub fn holders(&self, prop: &Prop<'a>) -> usize
        ensures { result ≡ places_of prop.now (flat_map props_of self.now.items) }
    {
        self.uses.holders(prop)
    }

    /// How many distinct properties the items have.
    pub fn kinds(&self) -> usize
        ensures count { result ≡ length (table_of self.now) }
        ensures few { result ≤ limits.KINDS }
    {
        self.uses.kinds()
    }

    /// The bytes of the boxes of the distinct properties.
    pub fn kind_bytes(&self) -> u64
        ensures { result ≡ size_sum (table_of self.now) }
    {
        self.uses.bytes()
    }

    /// The bytes of all items, counted.
    pub fn body_sum(&self) -> u64
        ensures value { result ≡ body_sum self.now.items }
        ensures few { result ≤ limits.BODY }
    {
        self.counts.idat + self.counts.mdat
    }

    /// What is counted over the items and groups.
    pub fn counts(&self) -> Counts
        ensures value { result ≡ counts_of self.now }
        ensures few { AreFew result }
        ensures valid { Valid self.now }
    {
        self.counts
    }

    /// The length of the `meta` box that is laid with offsets of eight bytes.
    pub fn meta_size(&self) -> u64
        ensures value { result ≡ meta_len self.now }
        ensures few { result ≤ limits.META }
    {
        let wide = self.counts.wide > 0;
        let inner = short_inner(wide, self.uses.bytes(), &self.counts);
        meta_size(wide, self.uses.kinds(), &self.counts, &inner)
    }
}
