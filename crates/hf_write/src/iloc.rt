//! `iloc`: ItemLocationBox of ISO/IEC 14496-12.

ghost use Rattle.std.specs.Prelude.{◌≡◌, ◌+◌, ◌*◌, ◌≤◌, ◌<◌, ◌^◌, ◌++◌, length, true, Some, slice_get};
ghost use Rattle.std.specs.List.{flat_map};
ghost use Rattle.hf_base.specs.Number.{num};
ghost use Rattle.hf_base.specs.Reading.{full as full_box};
ghost use Rattle.hf_box.specs.Head.{box};
ghost use Rattle.hf_box.specs.Literals.{four};
ghost use Rattle.hf_box.specs.Written.{id_width};
ghost use Rattle.hf_desk.specs.Outside.{Outside};
ghost use Rattle.hf_desk.specs.Pages.{ByPut, Gives};
ghost use Rattle.hf_loc.specs.Iloc.{offset_width, iloc_version, iloc_body};
ghost use Rattle.hf_store.specs.Layout.{own, entries_of, method_of as method_stated};
ghost use Rattle.hf_store.specs.Seen.{item_of};
ghost use Rattle.hf_store.specs.Store.{Item as Stated};
ghost use Rattle.hf_plan.specs.Plan.{IsPlan};
ghost use Rattle.hf_write.specs.Entries.{planned_entry};

use crate::header::give_header;
use hf_base::be_put;
use hf_base::kinds::ILOC;
use hf_desk::{Desk, Page, Put, WriteFault};
use hf_loc::give_entry;
use hf_plan::Plan;
use hf_store::{Item, Store, in_idat};

/// The construction method of an item: 1 where its bytes stand in `idat`.
fn method_of(item: &Item<'_>) -> u8
    ensures value { result ≡ method_stated (item_of item.now) }
    ensures few { result ≤ 2 }
{
    if in_idat(item) { 1 } else { 0 }
}

/// Gives the entry of the item at a place to a page; one without bytes has none.
fn give_planned<D: Desk>(
    store: &Store<'_>,
    plan: &Plan,
    i: usize,
    page: &mut Page<Put>,
    desk: &mut D,
) -> Result<(), WriteFault>
    requires creating { (D.outside desk.old).creating ≡ true }
    requires plan { IsPlan store.now plan.now }
    requires place { i < length store.now.items }
    ensures { (item : Stated) → slice_get store.now.items i ≡ Some item → Gives ByPut (D.outside desk.old) page.old (planned_entry store.now plan.now item) result (D.outside desk.new) page.new }
{
    store.valid();
    let item = store.at(i);
    let wide = plan.wide();
    let long = plan.long();
    match plan.start(i) {
        Some(offset) => {
            let len = item.body.len();
            let method = method_of(item);
            give_entry(item.id, method, offset, len, wide, long, page, desk)
        }
        None => Ok(()),
    }
}

/// Gives the entries of all items that have bytes to a page.
fn give_entries<D: Desk>(
    store: &Store<'_>,
    plan: &Plan,
    page: &mut Page<Put>,
    desk: &mut D,
) -> Result<(), WriteFault>
    requires creating { (D.outside desk.old).creating ≡ true }
    requires plan { IsPlan store.now plan.now }
    ensures { Gives ByPut (D.outside desk.old) page.old (flat_map (planned_entry store.now plan.now) store.now.items) result (D.outside desk.new) page.new }
{
    for i in 0..store.len() {
        give_planned(store, plan, i, page, desk)?;
    }
    Ok(())
}

/// The byte of the widths of offsets and lengths.
fn widths(long: bool) -> u8
    ensures { result ≡ 16 * offset_width long + offset_width long }
{
    if long { 0x88 } else { 0x44 }
}

/// Version 1, the widths, and a count of two bytes.
fn narrow_front(widths: u8, count: u64) -> [u8; 8]
    requires { count < 256 ^ 2 }
    ensures { result ≡ full_box 1 0 ++ num widths 1 ++ num 0 1 ++ num count 2 }
{
    let mut bytes = [0u8; 8];
    bytes[0] = 1;
    bytes[4] = widths;
    be_put(&mut bytes, 6, 2, count);
    bytes
}

/// Version 2, the widths, and a count of four bytes.
fn wide_front(widths: u8, count: u64) -> [u8; 10]
    requires { count < 256 ^ 4 }
    ensures { result ≡ full_box 2 0 ++ num widths 1 ++ num 0 1 ++ num count 4 }
{
    let mut bytes = [0u8; 10];
    bytes[0] = 2;
    bytes[4] = widths;
    be_put(&mut bytes, 6, 4, count);
    bytes
}

/// Gives the version, the widths and the count of entries.
fn give_front<D: Desk>(
    count: u64,
    wide: bool,
    long: bool,
    page: &mut Page<Put>,
    desk: &mut D,
) -> Result<(), WriteFault>
    requires creating { (D.outside desk.old).creating ≡ true }
    requires fits { count < 256 ^ id_width wide }
    ensures { Gives ByPut (D.outside desk.old) page.old
        (full_box (iloc_version wide) 0 ++ num (16 * offset_width long + offset_width long) 1 ++ num 0 1 ++ num count (id_width wide))
        result (D.outside desk.new) page.new }
{
    if wide {
        return page.give(&wide_front(widths(long), count), desk);
    }
    page.give(&narrow_front(widths(long), count), desk)
}

/// Gives a whole `iloc` with the items of a store, by its plan.
pub(crate) fn give_iloc<D: Desk>(
    store: &Store<'_>,
    plan: &Plan,
    page: &mut Page<Put>,
    desk: &mut D,
) -> Result<(), WriteFault>
    requires creating { (D.outside desk.old).creating ≡ true }
    requires plan { IsPlan store.now plan.now }
    ensures { Gives ByPut (D.outside desk.old) page.old
        (box (four "iloc") (iloc_body plan.now.wide (offset_width plan.now.long) (entries_of own plan.now.total store.now.items)))
        result (D.outside desk.new) page.new }
{
    let count = store.counts().located;
    let ids = plan.wide();
    let offsets = plan.long();
    give_header(ILOC, plan.sizes().iloc, page, desk)?;
    give_front(count, ids, offsets, page, desk)?;
    give_entries(store, plan, page, desk)
}
