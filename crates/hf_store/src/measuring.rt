//! The length of `meta`, whatever it is, told by the items and groups themselves. The greatest number stands for each
//! length that is no less.

ghost use Rattle.std.specs.Prelude.{◌≡◌, map, IfOk};
ghost use Rattle.std.specs.List.{AllByRecursion, flat_map};
ghost use Rattle.hf_links.specs.Grpl.{group_of, groups_of};
ghost use Rattle.hf_store.specs.Capped.{capped, capped_counts};
ghost use Rattle.hf_store.specs.Counts.{counts_of};
ghost use Rattle.hf_store.specs.Measured.{IsMeasurable};
ghost use Rattle.hf_store.specs.Seen.{item_of, items_of};
ghost use Rattle.hf_store.specs.Sizes.{infe_size as infe_stated, infes_size as infes_stated, group_size as group_stated, groups_size as groups_stated, props_size as props_stated, IsFourItem, IsFourGroup, IsFourProp};
ghost use Rattle.hf_store.specs.Store.{ItemStore};
ghost use Rattle.hf_store.specs.Table.{props_of};
ghost use Rattle.hf_store.specs.Valid.{meta_len};
ghost use Rattle.hf_table.specs.Numbered.{IsTableOf};
ghost use Rattle.hf_table.specs.Table.{table as table_stated};

use crate::Item;
use crate::size::{Inner, boxed, id_width, meta_size, short_inner};
use crate::tally::{Counts, strings_len};
use hf_base::NoMemory;
use hf_links::Group;
use hf_prop::Held;
use hf_table::{PropLists, Table, make_table};
use std::alloc::Global;

/// The properties of items, a list for each.
#[derive(Drop)]
struct Lists<'b, 'a> {
    items: &'b [Item<'a>],
}

impl<'b, 'a> PropLists<'a> for Lists<'b, 'a> {
    ghost use Rattle.std.specs.Prelude.{map};
    ghost use Rattle.hf_store.specs.Seen.{items_of};
    ghost use Rattle.hf_store.specs.Table.{props_of};

    ghost lists = { λ l. map props_of (items_of l.items.now) };

    fn count(&self) -> usize {
        self.items.len()
    }

    fn props_at(&self, i: usize) -> &[Held<'a>] {
        self.items[i].props.as_slice()
    }
}

/// The size of an item's `infe`.
fn infe_size(wide: bool, item: &Item<'_>) -> u64
    ensures { IsFourItem (item_of item.now) → result ≡ capped (infe_stated wide (item_of item.now)) }
{
    boxed(strings_len(item).saturating_add(10 + id_width(wide)))
}

/// The size of the boxes inside `iinf`.
fn infes_size(wide: bool, items: &[Item<'_>]) -> u64
    requires { AllByRecursion IsFourItem (items_of items.now) }
    ensures { result ≡ capped (infes_stated wide (items_of items.now)) }
{
    let mut sum: u64 = 0;
    for item in items {
        sum = sum.saturating_add(infe_size(wide, item));
    }
    sum
}

/// The size of a group's box.
fn group_size(group: &Group<'_>) -> u64
    ensures { IsFourGroup (group_of group.now) → result ≡ capped (group_stated (group_of group.now)) }
{
    let entities = (group.entities.len() as u64).saturating_mul(4);
    let tail = group.tail.len() as u64;
    boxed(entities.saturating_add(tail).saturating_add(12))
}

/// The size of the boxes inside `grpl`.
fn groups_size(groups: &[Group<'_>]) -> u64
    requires { AllByRecursion IsFourGroup (groups_of groups.now) }
    ensures { result ≡ capped (groups_stated (groups_of groups.now)) }
{
    let mut sum: u64 = 0;
    for group in groups {
        sum = sum.saturating_add(group_size(group));
    }
    sum
}

/// The size of the boxes inside `ipco`.
fn props_size(lists: &Lists<'_, '_>, table: &Table) -> u64
    requires table { IsTableOf (map props_of (items_of lists.now.items.now)) table.now }
    requires fours { AllByRecursion IsFourProp (table_stated (flat_map props_of (items_of lists.now.items.now))) }
    ensures { result ≡ capped (props_stated (table_stated (flat_map props_of (items_of lists.now.items.now)))) }
{
    let mut sum: u64 = 0;
    for k in 0..table.kinds() {
        let (i, j) = table.first(k);
        let prop = &lists.props_at(i)[j].prop;
        sum = sum.saturating_add(boxed(prop.body.as_slice().len() as u64));
    }
    sum
}

/// The size of the `meta` box of these items and groups, of which these are the counts, with offsets of eight
/// bytes. `NoMemory` comes where memory was refused.
pub(crate) fn measure_meta(
    alloc: Global,
    items: &[Item<'_>],
    groups: &[Group<'_>],
    counts: &Counts,
) -> Result<u64, NoMemory>
    requires { IsMeasurable (items_of items.now) (groups_of groups.now) }
    ensures { (s : ItemStore) → s.items ≡ items_of items.now → s.groups ≡ groups_of groups.now → counts.now ≡ capped_counts (counts_of s) → IfOk result (λ size. size ≡ capped (meta_len s)) }
{
    let lists = Lists { items };
    let table = make_table(alloc, &lists)?;
    let wide = counts.wide > 0;
    let inner = Inner {
        infes: infes_size(wide, items),
        groups: groups_size(groups),
        ..short_inner(wide, props_size(&lists, &table), counts)
    };
    Ok(meta_size(wide, table.kinds(), counts, &inner))
}
