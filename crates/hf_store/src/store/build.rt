//! A store is made of parts.

ghost use Rattle.std.specs.Prelude.{◌≡◌, ◌≤◌, length, IfOk, Ok, Err};
ghost use Rattle.std.specs.List.{AllByRecursion, flat_map};
ghost use Rattle.hf_base.specs.Reading.{MatchOpen};
ghost use Rattle.hf_base.specs.declared.limits.TheConstants as limits;
ghost use Rattle.hf_head.specs.Ftyp.{brands_of};
ghost use Rattle.hf_links.specs.Grpl.{groups_of};
ghost use Rattle.hf_store.specs.Counts.{counts_of};
ghost use Rattle.hf_store.specs.LimitFaults.{first_item, has_long_list as has_long_list_stated, limits_fault};
ghost use Rattle.hf_store.specs.Seen.{item_of, items_of, stated};
ghost use Rattle.hf_store.specs.Store.{Item as StatedItem};
ghost use Rattle.hf_store.specs.Table.{props_of};
ghost use Rattle.hf_store.specs.Valid.{IsSound, Valid};
ghost use Rattle.hf_table.specs.Table.{size_sum, table};
ghost use Rattle.hf_table.specs.Uses.{Tallies};

use crate::Item;
use crate::measuring::measure_meta;
use crate::referring::referred_of;
use crate::store::{Parts, Store};
use crate::tally::{Counts, count_groups, count_items};
use hf_base::limits::{ITEMS, LINKS, META};
use hf_base::{NoMemory, OpenFault, ReadRefusal, TryClone};
use hf_head::Brands;
use hf_links::Group;
use hf_table::Uses;
use std::alloc::Global;

/// The distinct properties of some items, with the numbers of their holders.
fn uses_of<'a>(alloc: Global, items: &[Item<'a>]) -> Result<Uses<'a>, NoMemory>
    requires few { length items.now ≤ limits.ITEMS }
    requires short { AllByRecursion (λ (i : StatedItem). length i.props ≤ limits.PROPS) (items_of items.now) }
    requires light { size_sum (table (flat_map props_of (items_of items.now))) ≤ limits.META }
    ensures { IfOk result (λ uses. Tallies uses (flat_map props_of (items_of items.now))) }
{
    let mut uses = Uses::new(alloc);
    for item in items {
        let _bytes = uses.bytes();
        uses.add_all(item.props.as_slice())?;
    }
    Ok(uses)
}

/// The same elements again. `NoMemory` comes where memory was refused.
fn clone_of<T: TryClone + Drop>(alloc: Global, list: &[T]) -> Result<Vec<T>, NoMemory>
    ensures { IfOk result (λ copy. copy.items ≡ list.now) }
{
    let mut elements = Vec::new(alloc);
    for element in list {
        elements.push(element.try_clone()?)?;
    }
    Ok(elements)
}

/// Whether an item has a reference list of more than `LINKS` ids.
fn has_long_list(item: &Item<'_>) -> bool
    ensures { result ≡ has_long_list_stated (item_of item.now) }
{
    let refs = item.refs.as_slice();
    for list in refs {
        if list.to.len() > LINKS {
            return true;
        }
    }
    false
}

/// The id of the first item that has such a list.
fn first_long_list(items: &[Item<'_>]) -> Option<u32>
    ensures { result ≡ first_item has_long_list_stated (items_of items.now) }
{
    for item in items {
        if has_long_list(item) {
            return Some(item.id);
        }
    }
    None
}

/// What is counted over sound parts, where they pass no limit.
fn count_within(alloc: Global, parts: &Parts<'_>) -> Result<Counts, OpenFault>
    requires { IsSound (stated parts.now) }
    ensures { MatchOpen result
        (λ counts. (counts ≡ counts_of (stated parts.now)) × Valid (stated parts.now) × (limits_fault (stated parts.now) ≡ Ok tt))
        (λ why. limits_fault (stated parts.now) ≡ Err why) }
{
    let items = parts.items.as_slice();
    let groups = parts.groups.as_slice();
    let count = items.len();
    if count > ITEMS {
        return Err(ReadRefusal::TooManyItems {
            count: count as u64,
        }
        .into());
    }
    if let Some(id) = first_long_list(items) {
        return Err(ReadRefusal::TooManyLinks { id }.into());
    }
    let counts = count_items(items).plus(count_groups(groups));
    let size = measure_meta(alloc, items, groups, &counts)?;
    if size > META {
        return Err(ReadRefusal::MetaTooLong { size }.into());
    }
    Ok(counts)
}

/// The store of these items and groups, of which so much is counted. `NoMemory` comes where memory was
/// refused.
fn assemble<'a>(
    alloc: Global,
    brands: Brands<'a>,
    primary: u32,
    items: Vec<Item<'a>>,
    groups: Vec<Group<'a>>,
    counts: Counts,
) -> Result<Store<'a>, NoMemory>
    requires valid { Valid (record { brands = brands_of brands; primary = primary; items = items_of items.items; groups = groups_of groups.items }) }
    requires counted { counts ≡ counts_of (record { brands = brands_of brands; primary = primary; items = items_of items.items; groups = groups_of groups.items }) }
    ensures { IfOk result (λ store. store ≡ record { brands = brands_of brands.entry; primary = primary; items = items_of items.entry.items; groups = groups_of groups.entry.items }) }
{
    let uses = uses_of(alloc, &items)?;
    let referred = referred_of(alloc, &items)?;
    Ok(Store {
        brands,
        primary,
        items,
        groups,
        uses,
        counts,
        referred,
    })
}

impl<'a> Store<'a> {
    /// The same store again. `NoMemory` comes where memory was refused.
    pub fn try_clone(&self) -> Result<Store<'a>, NoMemory>
        ensures { IfOk result (λ store. store ≡ self.now) }
    {
        let alloc = *self.items.allocator();
        let items = clone_of(alloc, &self.items)?;
        let groups = clone_of(alloc, &self.groups)?;
        assemble(alloc, self.brands, self.primary, items, groups, self.counts)
    }

    /// The store of parts that are sound, which are spent in every case. It refuses more than `ITEMS`
    /// items, then a reference list of more than `LINKS` ids, then a `meta` of more than `META` bytes.
    /// `NoMemory` comes where memory was refused.
    pub fn build(alloc: Global, parts: Parts<'a>) -> Result<Store<'a>, OpenFault>
        requires { IsSound (stated parts) }
        ensures { MatchOpen result
            (λ store. (store ≡ stated parts.entry) × (limits_fault (stated parts.entry) ≡ Ok tt))
            (λ why. limits_fault (stated parts.entry) ≡ Err why) }
    {
        let counts = count_within(alloc, &parts)?;
        let items = parts.items.into_vec();
        let groups = parts.groups.into_vec();
        let store = assemble(alloc, parts.brands, parts.primary, items, groups, counts)?;
        Ok(store)
    }
}
