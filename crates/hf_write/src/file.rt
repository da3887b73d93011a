//! The whole file.

ghost use Rattle.std.specs.Prelude.{◌≡◌, ℕ, List, true};
ghost use Rattle.hf_box.specs.Head.{box};
ghost use Rattle.hf_box.specs.Literals.{four};
ghost use Rattle.hf_desk.specs.Calls.{Puts};
ghost use Rattle.hf_desk.specs.Outside.{Outside};
ghost use Rattle.hf_desk.specs.Pages.{ByPut, Gives};
ghost use Rattle.hf_store.specs.Layout.{own, meta_body};
ghost use Rattle.hf_plan.specs.Canon.{Canon};
ghost use Rattle.hf_loc.specs.Iloc.{offset_width};
ghost use Rattle.hf_plan.specs.Plan.{IsPlan};
ghost use Rattle.hf_write.specs.Entries.{meta_begin, meta_lists, meta_places};

use crate::grpl::give_grpl;
use crate::header::give_header;
use crate::idat::give_idat;
use crate::iinf::give_iinf;
use crate::iloc::give_iloc;
use crate::iprp::give_iprp;
use crate::iref::give_iref;
use crate::mdat::give_mdat;
use hf_base::kinds::META;
use hf_desk::{Desk, Page, Put, WriteFault};
use hf_head::{give_ftyp, give_hdlr, give_pitm};
use hf_plan::Plan;
use hf_store::Store;

/// Gives the header of `meta`, its version and flags, and its boxes up to `pitm`.
fn give_meta_begin<D: Desk>(
    store: &Store<'_>,
    plan: &Plan,
    page: &mut Page<Put>,
    desk: &mut D,
) -> Result<(), WriteFault>
    requires creating { (D.outside desk.old).creating ≡ true }
    requires plan { IsPlan store.now plan.now }
    ensures { Gives ByPut (D.outside desk.old) page.old (meta_begin store.now plan.now) result (D.outside desk.new) page.new }
{
    store.valid();
    let ids = plan.wide();
    let id = store.primary();
    give_header(META, plan.sizes().meta, page, desk)?;
    page.give(&[0, 0, 0, 0], desk)?;
    give_hdlr(page, desk)?;
    give_pitm(id, ids, page, desk)
}

/// Gives the boxes of `meta` behind `pitm` up to `iprp`.
fn give_meta_lists<D: Desk>(
    store: &Store<'_>,
    plan: &Plan,
    page: &mut Page<Put>,
    desk: &mut D,
) -> Result<(), WriteFault>
    requires creating { (D.outside desk.old).creating ≡ true }
    requires plan { IsPlan store.now plan.now }
    ensures { Gives ByPut (D.outside desk.old) page.old (meta_lists store.now plan.now) result (D.outside desk.new) page.new }
{
    give_iinf(store, plan, page, desk)?;
    give_iref(store, plan, page, desk)?;
    give_iprp(store, plan, page, desk)
}

/// Gives the boxes of `meta` behind `iprp`.
fn give_meta_places<D: Desk>(
    store: &Store<'_>,
    plan: &Plan,
    page: &mut Page<Put>,
    desk: &mut D,
) -> Result<(), WriteFault>
    requires creating { (D.outside desk.old).creating ≡ true }
    requires plan { IsPlan store.now plan.now }
    ensures { Gives ByPut (D.outside desk.old) page.old (meta_places store.now plan.now) result (D.outside desk.new) page.new }
{
    give_grpl(store, plan, page, desk)?;
    give_idat(store, plan, page, desk)?;
    give_iloc(store, plan, page, desk)
}

/// Gives a whole `meta` of a store, by its plan.
fn give_meta<D: Desk>(
    store: &Store<'_>,
    plan: &Plan,
    page: &mut Page<Put>,
    desk: &mut D,
) -> Result<(), WriteFault>
    requires creating { (D.outside desk.old).creating ≡ true }
    requires plan { IsPlan store.now plan.now }
    ensures { Gives ByPut (D.outside desk.old) page.old (box (four "meta") (meta_body own (offset_width plan.now.long) plan.now.total store.now))
        result (D.outside desk.new) page.new }
{
    give_meta_begin(store, plan, page, desk)?;
    give_meta_lists(store, plan, page, desk)?;
    give_meta_places(store, plan, page, desk)
}

/// Gives the canonical file of a store, by its plan.
fn give_file<D: Desk>(
    store: &Store<'_>,
    plan: &Plan,
    page: &mut Page<Put>,
    desk: &mut D,
) -> Result<(), WriteFault>
    requires creating { (D.outside desk.old).creating ≡ true }
    requires plan { IsPlan store.now plan.now }
    ensures { (file : List ℕ) → Canon store.now file → Gives ByPut (D.outside desk.old) page.old file result (D.outside desk.new) page.new }
{
    store.valid();
    give_ftyp(&store.brands(), page, desk)?;
    give_meta(store, plan, page, desk)?;
    give_mdat(store, plan, page, desk)
}

/// Appends the canonical file of the store to the file that the desk made; the plan is that of the
/// store. `WriteFault` comes only where `write_faults` rose; then some front of the canonical file
/// was appended. It takes no memory.
pub fn write<D: Desk>(store: &Store<'_>, plan: &Plan, desk: &mut D) -> Result<(), WriteFault>
    requires creating { (D.outside desk.old).creating ≡ true }
    requires plan { IsPlan store.now plan.now }
    ensures { (file : List ℕ) → Canon store.now file → Puts (D.outside desk.old) file result (D.outside desk.new) }
{
    store.valid();
    let mut page = Page::new();
    give_file(store, plan, &mut page, desk)?;
    page.end(desk)
}
