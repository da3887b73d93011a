//! `ipma`: ItemPropertyAssociationBox of ISO/IEC 23008-12.

ghost use Rattle.std.specs.Prelude.{◌≡◌, ◌+◌, ◌*◌, ◌≤◌, ◌<◌, ◌^◌, ◌++◌, length, true, Some, slice_get, if◌then◌else◌};
ghost use Rattle.std.specs.List.{flat_map};
ghost use Rattle.hf_base.specs.Number.{num};
ghost use Rattle.hf_base.specs.Reading.{full as full_box};
ghost use Rattle.hf_box.specs.Head.{box};
ghost use Rattle.hf_box.specs.Literals.{four};
ghost use Rattle.hf_box.specs.Written.{bit, id_width, id_version};
ghost use Rattle.hf_desk.specs.Outside.{Outside};
ghost use Rattle.hf_desk.specs.Pages.{ByPut, Gives};
ghost use Rattle.hf_prop.specs.Iprp.{is_long_table};
ghost use Rattle.hf_prop.specs.Ipma.{association, ipma_body};
ghost use Rattle.hf_store.specs.Layout.{is_wide, assoc_of, assocs_of};
ghost use Rattle.hf_store.specs.Store.{Item as Stated};
ghost use Rattle.hf_store.specs.Table.{table_of};
ghost use Rattle.hf_plan.specs.Plan.{IsPlan};
ghost use Rattle.hf_write.specs.Entries.{assoc_if_any, picks_text};

use crate::header::{give_header, version_of};
use hf_base::be_put;
use hf_base::kinds::IPMA;
use hf_desk::{Desk, Page, Put, WriteFault};
use hf_plan::Plan;
use hf_store::Store;

/// A property's number behind the mark of an essential one.
fn marked(essential: bool, mark: u64, number: u16) -> u64
    requires { mark ≤ 2 ^ 15 }
    ensures { result ≡ mark * bit essential + number }
{
    if essential {
        mark + u64::from(number)
    } else {
        u64::from(number)
    }
}

/// An association of one byte.
fn short_pick(essential: bool, number: u16) -> [u8; 1]
    requires { number < 2 ^ 7 }
    ensures { result ≡ num (2 ^ 7 * bit essential + number) 1 }
{
    let mut bytes = [0u8; 1];
    be_put(&mut bytes, 0, 1, marked(essential, 1 << 7, number));
    bytes
}

/// An association of two bytes.
fn long_pick(essential: bool, number: u16) -> [u8; 2]
    requires { number < 2 ^ 15 }
    ensures { result ≡ num (2 ^ 15 * bit essential + number) 2 }
{
    let mut bytes = [0u8; 2];
    be_put(&mut bytes, 0, 2, marked(essential, 1 << 15, number));
    bytes
}

/// Gives an association, in two bytes where `long` and otherwise in one.
fn give_pick<D: Desk>(
    essential: bool,
    number: u16,
    long: bool,
    page: &mut Page<Put>,
    desk: &mut D,
) -> Result<(), WriteFault>
    requires creating { (D.outside desk.old).creating ≡ true }
    requires number { number < (if long then 2 ^ 15 else 2 ^ 7) }
    ensures { Gives ByPut (D.outside desk.old) page.old (association long (record { essential = essential; index = number })) result (D.outside desk.new) page.new }
{
    if long {
        return page.give(&long_pick(essential, number), desk);
    }
    page.give(&short_pick(essential, number), desk)
}

/// An id of two bytes, and a count.
fn narrow_entry(id: u32, count: usize) -> [u8; 3]
    requires id { id < 256 ^ 2 }
    requires count { count < 256 }
    ensures { result ≡ num id 2 ++ num count 1 }
{
    let mut bytes = [0u8; 3];
    be_put(&mut bytes, 0, 2, u64::from(id));
    be_put(&mut bytes, 2, 1, count as u64);
    bytes
}

/// An id of four bytes, and a count.
fn wide_entry(id: u32, count: usize) -> [u8; 5]
    requires { count < 256 }
    ensures { result ≡ num id 4 ++ num count 1 }
{
    let mut bytes = [0u8; 5];
    be_put(&mut bytes, 0, 4, u64::from(id));
    be_put(&mut bytes, 4, 1, count as u64);
    bytes
}

/// Gives the id of an entry and the count of its associations.
fn give_entry<D: Desk>(
    id: u32,
    count: usize,
    wide: bool,
    page: &mut Page<Put>,
    desk: &mut D,
) -> Result<(), WriteFault>
    requires creating { (D.outside desk.old).creating ≡ true }
    requires id { id < 256 ^ id_width wide }
    requires count { count < 256 }
    ensures { Gives ByPut (D.outside desk.old) page.old (num id (id_width wide) ++ num count 1) result (D.outside desk.new) page.new }
{
    if wide {
        return page.give(&wide_entry(id, count), desk);
    }
    page.give(&narrow_entry(id, count), desk)
}

/// Gives the associations of the item at a place.
fn give_picks<D: Desk>(
    store: &Store<'_>,
    plan: &Plan,
    i: usize,
    long: bool,
    page: &mut Page<Put>,
    desk: &mut D,
) -> Result<(), WriteFault>
    requires creating { (D.outside desk.old).creating ≡ true }
    requires plan { IsPlan store.now plan.now }
    requires long { long ≡ is_long_table (table_of store.now) }
    requires place { i < length store.now.items }
    ensures { (item : Stated) → slice_get store.now.items i ≡ Some item
        → Gives ByPut (D.outside desk.old) page.old (picks_text long (table_of store.now) item) result (D.outside desk.new) page.new }
{
    store.valid();
    let props = &store.at(i).props;
    for j in 0..props.len() {
        let essential = props.get(j).essential;
        give_pick(essential, plan.number(i, j), long, page, desk)?;
    }
    Ok(())
}

/// Gives the entry of the item at a place; one without properties has none.
fn give_assoc<D: Desk>(
    store: &Store<'_>,
    plan: &Plan,
    i: usize,
    long: bool,
    page: &mut Page<Put>,
    desk: &mut D,
) -> Result<(), WriteFault>
    requires creating { (D.outside desk.old).creating ≡ true }
    requires plan { IsPlan store.now plan.now }
    requires long { long ≡ is_long_table (table_of store.now) }
    requires place { i < length store.now.items }
    ensures { (item : Stated) → slice_get store.now.items i ≡ Some item
        → Gives ByPut (D.outside desk.old) page.old (assoc_if_any plan.now.wide long (table_of store.now) item) result (D.outside desk.new) page.new }
{
    store.valid();
    let item = store.at(i);
    let wide = plan.wide();
    let count = item.props.len();
    if count == 0 {
        return Ok(());
    }
    give_entry(item.id, count, wide, page, desk)?;
    give_picks(store, plan, i, long, page, desk)
}

/// Gives the entries of all items that have properties.
fn give_assocs<D: Desk>(
    store: &Store<'_>,
    plan: &Plan,
    long: bool,
    page: &mut Page<Put>,
    desk: &mut D,
) -> Result<(), WriteFault>
    requires creating { (D.outside desk.old).creating ≡ true }
    requires plan { IsPlan store.now plan.now }
    requires long { long ≡ is_long_table (table_of store.now) }
    ensures { Gives ByPut (D.outside desk.old) page.old (flat_map (assoc_if_any plan.now.wide long (table_of store.now)) store.now.items) result (D.outside desk.new) page.new }
{
    for i in 0..store.len() {
        give_assoc(store, plan, i, long, page, desk)?;
    }
    Ok(())
}

/// Flag 1, where associations take two bytes.
fn flag_of(long: bool) -> u8
    ensures { result ≡ bit long }
{
    if long { 1 } else { 0 }
}

/// The version for ids of this width, flag 1 where associations take two bytes, and the count of entries.
fn front_of(wide: bool, long: bool, count: u64) -> [u8; 8]
    requires { count < 256 ^ 4 }
    ensures { result ≡ full_box (id_version wide) (bit long) ++ num count 4 }
{
    let mut bytes = [0u8; 8];
    bytes[0] = version_of(wide);
    bytes[3] = flag_of(long);
    be_put(&mut bytes, 4, 4, count);
    bytes
}

/// Gives a whole `ipma` with the associations of the items of a store, by its plan.
pub(crate) fn give_ipma<D: Desk>(
    store: &Store<'_>,
    plan: &Plan,
    page: &mut Page<Put>,
    desk: &mut D,
) -> Result<(), WriteFault>
    requires creating { (D.outside desk.old).creating ≡ true }
    requires plan { IsPlan store.now plan.now }
    ensures { Gives ByPut (D.outside desk.old) page.old
        (box (four "ipma") (ipma_body plan.now.wide (is_long_table (table_of store.now)) (assocs_of (table_of store.now) store.now.items)))
        result (D.outside desk.new) page.new }
{
    let count = store.counts().holders;
    let wide = plan.wide();
    let long = plan.kinds() > 127;
    give_header(IPMA, plan.sizes().ipma, page, desk)?;
    page.give(&front_of(wide, long, count), desk)?;
    give_assocs(store, plan, long, page, desk)
}
