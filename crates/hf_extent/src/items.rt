//! The items of a file, each with its entry of `iloc` and its joined `iloc` references.

ghost use Rattle.std.specs.Prelude.{◌≡◌, ◌<◌, ◌++◌, ◌∷◌, [], List, IfOk, OnOk, None};
ghost use Rattle.hf_base.specs.Located.{located_items, loc_of};
ghost use Rattle.hf_base.specs.Members.{Rises};
ghost use Rattle.hf_base.specs.declared.loc.Loc.{Loc as Entry};
ghost use Rattle.hf_base.specs.declared.loc.RefBox.{RefBox as Link};
ghost use Rattle.hf_extent.specs.Places.{AreAt, HaveDistinctIds};
ghost use Rattle.hf_extent.specs.Seen.{item_seen, items_seen};

use crate::sources::place;
use hf_base::kinds::ILOC;
use hf_base::{Extent, Ids, Loc, NoMemory, RefBox};
use std::alloc::Global;

/// An item, with the fields of its entry. Without an entry it is as one whose entry has no extent.
#[derive(Drop)]
pub struct Located<'a> {
    pub id: u32,
    pub method: u8,
    pub dref: u16,
    pub base: u64,
    pub extents: &'a [Extent],
    /// The items that its `iloc` references name.
    pub sources: Ids,
}

/// The items with these ids, as without entries and references.
fn bare_items<'a>(alloc: Global, ids: &[u32]) -> Result<Vec<Located<'a>>, NoMemory>
    ensures { IfOk result (λ items. items_seen items.items ≡ located_items ids.now [] []) }
{
    let mut items = Vec::with_capacity(alloc, ids.len())?;
    for id in ids {
        items.push(Located {
            id: *id,
            method: 0,
            dref: 0,
            base: 0,
            extents: &[],
            sources: Ids::new(alloc),
        })?;
    }
    Ok(items)
}

/// These ids more behind the sources of an item.
fn add_sources(item: &mut Located<'_>, to: &Ids) -> Result<(), NoMemory>
    ensures { OnOk result (item_seen item.new ≡ record (item_seen item.old) { sources = item.old.sources ++ to.now }) }
{
    for id in to.as_slice() {
        item.sources.push(*id)?;
    }
    Ok(())
}

/// The item gets its entry.
fn set_entry<'a>(item: &mut Located<'a>, loc: &'a Loc)
    ensures { item_seen item.new ≡ record (item_seen item.old) { method = loc.now.method; dref = loc.now.dref; base = loc.now.base; extents = loc.now.extents } }
{
    item.method = loc.method;
    item.dref = loc.dref;
    item.base = loc.base;
    item.extents = loc.extents.as_slice();
}

/// One box of references more.
fn add_link(items: &mut [Located<'_>], ids: &[u32], link: &RefBox) -> Result<(), NoMemory>
    requires rising { Rises ◌<◌ ids.now }
    requires known { AreAt ids.now (items_seen items.old) }
    ensures { (locs : List Entry) (links : List Link) → items_seen items.old ≡ located_items ids.now locs links → OnOk result (items_seen items.new ≡ located_items ids.now locs (links ++ link.now ∷ [])) }
{
    if !link.kind.is(ILOC) {
        return Ok(());
    }
    match place(ids, link.from) {
        Some(at) => add_sources(&mut items[at], &link.to),
        None => Ok(()),
    }
}

/// One entry more.
fn add_entry<'a>(items: &mut [Located<'a>], ids: &[u32], loc: &'a Loc)
    requires rising { Rises ◌<◌ ids.now }
    requires known { AreAt ids.now (items_seen items.old) }
    ensures { (locs : List Entry) (links : List Link) → items_seen items.old ≡ located_items ids.now locs links → loc_of loc.now.id locs ≡ None → items_seen items.new ≡ located_items ids.now (locs ++ loc.now ∷ []) links }
{
    match place(ids, loc.id) {
        Some(at) => set_entry(&mut items[at], loc),
        None => {}
    }
}

/// The items with these ids, with their entries and the references that locate them.
pub fn items<'a>(
    alloc: Global,
    ids: &[u32],
    locs: &'a [Loc],
    links: &[RefBox],
) -> Result<Vec<Located<'a>>, NoMemory>
    requires rising { Rises ◌<◌ ids.now }
    requires distinct { HaveDistinctIds locs.now }
    ensures value { IfOk result (λ items. items_seen items.items ≡ located_items ids.now locs.now links.now) }
    ensures at { IfOk result (λ items. AreAt ids.now (items_seen items.items)) }
{
    let mut items = bare_items(alloc, ids)?;
    for loc in locs {
        add_entry(&mut items, ids, loc);
    }
    for link in links {
        add_link(&mut items, ids, link)?;
    }
    Ok(items)
}
