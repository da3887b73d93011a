//! `iinf`: ItemInfoBox of ISO/IEC 14496-12.

ghost use Rattle.std.specs.Prelude.{◌≡◌, ◌<◌, ◌^◌, ◌++◌, true, false};
ghost use Rattle.std.specs.List.{flat_map};
ghost use Rattle.hf_base.specs.Number.{num};
ghost use Rattle.hf_base.specs.Reading.{full as full_box};
ghost use Rattle.hf_box.specs.Head.{box};
ghost use Rattle.hf_box.specs.Literals.{four};
ghost use Rattle.hf_box.specs.Written.{id_width, id_version};
ghost use Rattle.hf_desk.specs.Outside.{Outside};
ghost use Rattle.hf_desk.specs.Pages.{ByPut, Gives};
ghost use Rattle.hf_info.specs.Infe.{info_of as shown, infe_box};
ghost use Rattle.hf_info.specs.Iinf.{iinf_body};
ghost use Rattle.hf_store.specs.Layout.{is_wide, info_of, infos_of};
ghost use Rattle.hf_store.specs.Seen.{item_of};
ghost use Rattle.hf_plan.specs.Plan.{IsPlan};

use crate::header::give_header;
use hf_base::be_put;
use hf_base::kinds::IINF;
use hf_desk::{Desk, Page, Put, WriteFault};
use hf_info::{Info, give_infe};
use hf_plan::Plan;
use hf_store::{Item, Store};

/// What the entry of an item says.
fn info_in<'a>(item: &Item<'a>) -> Info<'a>
    ensures { shown result ≡ info_of (item_of item.now) }
{
    Info {
        id: item.id,
        kind: item.kind,
        hidden: item.hidden,
        name: item.name,
        content: item.content,
        encoding: item.encoding,
        uri: item.uri,
    }
}

/// Gives the entries of all items to a page.
fn give_infes<D: Desk>(
    store: &Store<'_>,
    wide: bool,
    page: &mut Page<Put>,
    desk: &mut D,
) -> Result<(), WriteFault>
    requires creating { (D.outside desk.old).creating ≡ true }
    requires wide { wide ≡ is_wide store.now.items }
    ensures { Gives ByPut (D.outside desk.old) page.old (flat_map (infe_box wide) (infos_of store.now.items)) result (D.outside desk.new) page.new }
{
    for i in 0..store.len() {
        let info = info_in(store.at(i));
        give_infe(&info, wide, page, desk)?;
    }
    Ok(())
}

/// Version 0, and a count of two bytes.
fn narrow_count(count: u64) -> [u8; 6]
    requires { count < 256 ^ 2 }
    ensures { result ≡ full_box 0 0 ++ num count 2 }
{
    let mut bytes = [0u8; 6];
    be_put(&mut bytes, 4, 2, count);
    bytes
}

/// Version 1, and a count of four bytes.
fn wide_count(count: u64) -> [u8; 8]
    requires { count < 256 ^ 4 }
    ensures { result ≡ full_box 1 0 ++ num count 4 }
{
    let mut bytes = [0u8; 8];
    bytes[0] = 1;
    be_put(&mut bytes, 4, 4, count);
    bytes
}

/// Gives the version and the count of items.
fn give_count<D: Desk>(
    count: u64,
    wide: bool,
    page: &mut Page<Put>,
    desk: &mut D,
) -> Result<(), WriteFault>
    requires creating { (D.outside desk.old).creating ≡ true }
    requires fits { count < 256 ^ id_width wide }
    ensures { Gives ByPut (D.outside desk.old) page.old (full_box (id_version wide) 0 ++ num count (id_width wide)) result (D.outside desk.new) page.new }
{
    if wide {
        return page.give(&wide_count(count), desk);
    }
    page.give(&narrow_count(count), desk)
}

/// Gives a whole `iinf` with the items of a store, by its plan.
pub(crate) fn give_iinf<D: Desk>(
    store: &Store<'_>,
    plan: &Plan,
    page: &mut Page<Put>,
    desk: &mut D,
) -> Result<(), WriteFault>
    requires creating { (D.outside desk.old).creating ≡ true }
    requires plan { IsPlan store.now plan.now }
    ensures { Gives ByPut (D.outside desk.old) page.old (box (four "iinf") (iinf_body (is_wide store.now.items) (infos_of store.now.items)))
        result (D.outside desk.new) page.new }
{
    let count = store.len() as u64;
    let ids = plan.wide();
    give_header(IINF, plan.sizes().iinf, page, desk)?;
    give_count(count, ids, page, desk)?;
    give_infes(store, ids, page, desk)
}
