//! `iref`: ItemReferenceBox of ISO/IEC 14496-12.

ghost use Rattle.std.specs.Prelude.{◌≡◌, ◌<◌, ◌^◌, true};
ghost use Rattle.std.specs.List.{AllByRecursion, flat_map};
ghost use Rattle.hf_base.specs.Reading.{full as full_box};
ghost use Rattle.hf_box.specs.Literals.{four};
ghost use Rattle.hf_box.specs.Written.{id_width, id_version};
ghost use Rattle.hf_desk.specs.Outside.{Outside};
ghost use Rattle.hf_desk.specs.Pages.{ByPut, Gives};
ghost use Rattle.hf_links.specs.Iref.{iref_body};
ghost use Rattle.hf_store.specs.Layout.{is_wide, all_boxes, box_if_any};
ghost use Rattle.hf_store.specs.Seen.{item_of};
ghost use Rattle.hf_plan.specs.Plan.{IsPlan};
ghost use Rattle.hf_write.specs.Entries.{refs_text, IsShortRef};

use crate::header::{give_header, version_of};
use hf_base::kinds::IREF;
use hf_desk::{Desk, Page, Put, WriteFault};
use hf_links::give_ref;
use hf_plan::Plan;
use hf_store::{Item, Store};

/// Gives the boxes of an item's references.
fn give_refs<D: Desk>(
    item: &Item<'_>,
    wide: bool,
    page: &mut Page<Put>,
    desk: &mut D,
) -> Result<(), WriteFault>
    requires creating { (D.outside desk.old).creating ≡ true }
    requires from { item.now.id < 256 ^ id_width wide }
    requires lists { AllByRecursion (IsShortRef wide) item.now.refs }
    ensures { Gives ByPut (D.outside desk.old) page.old (refs_text wide (item_of item.now)) result (D.outside desk.new) page.new }
{
    let from = item.id;
    for i in 0..item.refs.len() {
        let list = item.refs.get(i);
        give_ref(list.kind, from, &list.to, wide, page, desk)?;
    }
    Ok(())
}

/// Gives the boxes of the references of all items.
fn give_all_refs<D: Desk>(
    store: &Store<'_>,
    wide: bool,
    page: &mut Page<Put>,
    desk: &mut D,
) -> Result<(), WriteFault>
    requires creating { (D.outside desk.old).creating ≡ true }
    requires wide { wide ≡ is_wide store.now.items }
    ensures { Gives ByPut (D.outside desk.old) page.old (flat_map (refs_text wide) store.now.items) result (D.outside desk.new) page.new }
{
    for i in 0..store.len() {
        give_refs(store.at(i), wide, page, desk)?;
    }
    Ok(())
}

/// The version for ids of this width, and flags that are not set.
fn front_of(wide: bool) -> [u8; 4]
    ensures { result ≡ full_box (id_version wide) 0 }
{
    [version_of(wide), 0, 0, 0]
}

/// Gives a whole `iref` with the references of the items of a store, by its plan; nothing where there
/// are none.
pub(crate) fn give_iref<D: Desk>(
    store: &Store<'_>,
    plan: &Plan,
    page: &mut Page<Put>,
    desk: &mut D,
) -> Result<(), WriteFault>
    requires creating { (D.outside desk.old).creating ≡ true }
    requires plan { IsPlan store.now plan.now }
    ensures { Gives ByPut (D.outside desk.old) page.old (box_if_any (four "iref") (iref_body (is_wide store.now.items)) (all_boxes store.now.items))
        result (D.outside desk.new) page.new }
{
    store.valid();
    let wide = plan.wide();
    let size = plan.sizes().iref;
    if size == 0 {
        return Ok(());
    }
    give_header(IREF, size, page, desk)?;
    page.give(&front_of(wide), desk)?;
    give_all_refs(store, wide, page, desk)
}
