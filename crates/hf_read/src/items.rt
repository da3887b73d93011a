//! The items of a store, and its other parts.

ghost use Rattle.std.specs.Option.{option_copied};
ghost use Rattle.std.specs.Prelude.{◌≡◌, ◌<◌, ◌++◌, ◌∷◌, List, map, IfOk, OnOk, Ok, Err};
ghost use Rattle.std.specs.Vec.Iter.{into_iter_items};
ghost use Rattle.hf_base.specs.LocationFaults.{locations_fault};
ghost use Rattle.hf_base.specs.Members.{Rises};
ghost use Rattle.hf_base.specs.Reading.{MatchOpen};
ghost use Rattle.hf_head.specs.Ftyp.{brands_of};
ghost use Rattle.hf_info.specs.Infe.{Info as Stated, info_of, infos_of};
ghost use Rattle.hf_links.specs.Grpl.{groups_of};
ghost use Rattle.hf_pieces.specs.Bytes.{joined};
ghost use Rattle.hf_store.specs.Seen.{item_of as item_seen, items_of, stated};
ghost use Rattle.hf_read.specs.Items.{item_with, items_with};
ghost use Rattle.hf_read.specs.Kept.{kept_groups as groups_stated, kept_props as props_stated, kept_refs as refs_stated};
ghost use Rattle.hf_read.specs.Reading.{item_at, store_at};
ghost use Rattle.hf_read.specs.Seen.{AreTablesOf, AreReadable};
ghost use Rattle.hf_read.specs.Tables.{Tables, infos_by_id, items_in};

use crate::groups::kept_groups;
use crate::meta::MetaTables;
use crate::properties::kept_props;
use crate::references::kept_refs;
use hf_base::{NoMemory, OpenFault};
use hf_extent::resolve;
use hf_head::Brands;
use hf_info::Info;
use hf_pieces::Pieces;
use hf_store::{GroupList, Item, ItemList, Parts, Props, Refs};
use std::alloc::Global;
use std::vec::IntoIter;

/// The item of an entry, with these bytes, properties and references.
fn item<'a>(info: &Info<'a>, body: Pieces<'a>, props: Props<'a>, refs: Refs) -> Item<'a>
    ensures { item_seen result ≡ item_with (info_of info.now) (joined body.entry) props.entry refs }
{
    Item {
        id: info.id,
        kind: info.kind,
        hidden: info.hidden,
        name: info.name,
        content: info.content,
        encoding: info.encoding,
        uri: info.uri,
        body,
        props,
        refs,
    }
}

/// Adds the item of an entry, with the next bytes, properties and references, while all of them last.
fn add_item<'a>(
    items: &mut ItemList<'a>,
    info: &Info<'a>,
    bodies: &mut IntoIter<Pieces<'a>, Global>,
    props: &mut IntoIter<Props<'a>, Global>,
    refs: &mut IntoIter<Refs, Global>,
) -> Result<(), NoMemory>
    ensures { (infos : List Stated) → OnOk result (items_of items.new ++ items_with infos (map joined (into_iter_items bodies.new)) (into_iter_items props.new) (into_iter_items refs.new)
        ≡ items_of items.old ++ items_with (info_of info.now ∷ infos) (map joined (into_iter_items bodies.old)) (into_iter_items props.old) (into_iter_items refs.old)) }
{
    let Some(body) = bodies.next() else {
        return Ok(());
    };
    let Some(props) = props.next() else {
        return Ok(());
    };
    let Some(refs) = refs.next() else {
        return Ok(());
    };
    items.push(item(info, body, props, refs))
}

/// An item for each entry, with its bytes, properties and references.
fn items<'a>(
    alloc: Global,
    infos: &[Info<'a>],
    bodies: Vec<Pieces<'a>>,
    props: Vec<Props<'a>>,
    refs: Vec<Refs>,
) -> Result<ItemList<'a>, NoMemory>
    ensures { IfOk result (λ items. items_of items ≡ items_with (infos_of infos.now) (map joined bodies.entry.items) props.entry.items refs.items) }
{
    let mut items = ItemList::with_capacity(alloc, infos.len())?;
    let mut bodies = bodies.into_iter();
    let mut props = props.into_iter();
    let mut refs = refs.into_iter();
    for info in infos {
        add_item(&mut items, info, &mut bodies, &mut props, &mut refs)?;
    }
    Ok(items)
}

/// An item for each entry, with these bytes, and with its properties and references.
fn described_items<'a>(
    alloc: Global,
    tables: &MetaTables<'a>,
    bodies: Vec<Pieces<'a>>,
) -> Result<ItemList<'a>, NoMemory>
    requires { Rises ◌<◌ tables.now.ids.items }
    ensures { IfOk result (λ items. items_of items ≡ items_with (infos_of tables.now.infos.items) (map joined bodies.entry.items)
        (map (props_stated tables.now.iprp) tables.now.ids.items) (map (refs_stated tables.now.ids.items tables.now.links.items) tables.now.ids.items)) }
{
    let props = kept_props(alloc, &tables.ids, &tables.iprp)?;
    let refs = kept_refs(alloc, &tables.ids, &tables.links)?;
    items(alloc, &tables.infos, bodies, props, refs)
}

/// An item for each entry, with the bytes at its places, its properties and its references. Otherwise
/// the first fault of the places of the items.
fn placed_items<'a>(
    alloc: Global,
    file: &'a [u8],
    idat: Option<&'a [u8]>,
    tables: &MetaTables<'a>,
) -> Result<ItemList<'a>, OpenFault>
    requires { AreReadable tables.now }
    ensures { (t : Tables) → AreTablesOf tables.now t → MatchOpen result
        (λ items. (locations_fault file.now (option_copied idat.entry) (items_in t) ≡ Ok tt)
        × (items_of items ≡ map (item_at file.now (option_copied idat.entry) t) (infos_by_id t.infos)))
        (λ why. locations_fault file.now (option_copied idat.entry) (items_in t) ≡ Err why) }
{
    let bodies = resolve(alloc, file, idat, &tables.ids, &tables.locs, &tables.links)?;
    Ok(described_items(alloc, tables, bodies)?)
}

/// The groups of these tables that are kept.
fn groups_in_tables<'a>(alloc: Global, tables: MetaTables<'a>) -> Result<GroupList<'a>, NoMemory>
    requires { AreReadable tables }
    ensures { IfOk result (λ kept. groups_of kept ≡ groups_stated tables.entry.ids.items (groups_of tables.entry.groups.items)) }
{
    let MetaTables { ids, groups, .. } = tables;
    kept_groups(alloc, &ids, groups)
}

/// The parts of the store of these tables: an item for each entry, with the bytes at its places, its
/// properties and its references, and the groups that are kept. Otherwise the first fault of the places
/// of the items, in the order of `resolve`. `idat` is the body of that box, where there is one. Payloads
/// stay where they lie. `NoMemory` comes where memory was refused.
///
/// The time grows as n log n in items, extents, references, associations and entities, and is linear in
/// the slices that are made.
pub fn store_parts<'a>(
    alloc: Global,
    file: &'a [u8],
    idat: Option<&'a [u8]>,
    brands: Brands<'a>,
    primary: u32,
    tables: MetaTables<'a>,
) -> Result<Parts<'a>, OpenFault>
    requires { AreReadable tables }
    ensures { (t : Tables) → AreTablesOf tables.entry t → MatchOpen result
        (λ p. (locations_fault file.now (option_copied idat.entry) (items_in t) ≡ Ok tt)
        × (stated p ≡ store_at file.now (option_copied idat.entry) (brands_of brands.entry) primary t))
        (λ why. locations_fault file.now (option_copied idat.entry) (items_in t) ≡ Err why) }
{
    let items = placed_items(alloc, file, idat, &tables)?;
    let groups = groups_in_tables(alloc, tables)?;
    Ok(Parts {
        brands,
        primary,
        items,
        groups,
    })
}
