//! `grpl`: GroupsListBox of ISO/IEC 14496-12.

ghost use Rattle.std.specs.Prelude.{◌≡◌, true};
ghost use Rattle.std.specs.List.{flat_map};
ghost use Rattle.hf_box.specs.Literals.{four};
ghost use Rattle.hf_desk.specs.Outside.{Outside};
ghost use Rattle.hf_desk.specs.Pages.{ByPut, Gives};
ghost use Rattle.hf_links.specs.Grpl.{group_box, grpl_body};
ghost use Rattle.hf_store.specs.Layout.{box_if_any};
ghost use Rattle.hf_plan.specs.Plan.{IsPlan};

use crate::header::give_header;
use hf_base::kinds::GRPL;
use hf_desk::{Desk, Page, Put, WriteFault};
use hf_links::give_group;
use hf_plan::Plan;
use hf_store::Store;

/// Gives the boxes of all groups.
fn give_groups<D: Desk>(
    store: &Store<'_>,
    page: &mut Page<Put>,
    desk: &mut D,
) -> Result<(), WriteFault>
    requires creating { (D.outside desk.old).creating ≡ true }
    ensures { Gives ByPut (D.outside desk.old) page.old (flat_map group_box store.now.groups) result (D.outside desk.new) page.new }
{
    store.valid();
    for i in 0..store.group_count() {
        give_group(store.group_at(i), page, desk)?;
    }
    Ok(())
}

/// Gives a whole `grpl` with the groups of a store, by its plan; nothing where there are none.
pub(crate) fn give_grpl<D: Desk>(
    store: &Store<'_>,
    plan: &Plan,
    page: &mut Page<Put>,
    desk: &mut D,
) -> Result<(), WriteFault>
    requires creating { (D.outside desk.old).creating ≡ true }
    requires plan { IsPlan store.now plan.now }
    ensures { Gives ByPut (D.outside desk.old) page.old (box_if_any (four "grpl") grpl_body store.now.groups) result (D.outside desk.new) page.new }
{
    store.valid();
    let size = plan.sizes().grpl;
    if size == 0 {
        return Ok(());
    }
    give_header(GRPL, size, page, desk)?;
    give_groups(store, page, desk)
}
