//! `mdat`: MediaDataBox of ISO/IEC 14496-12.

ghost use Rattle.std.specs.Prelude.{◌≡◌, true};
ghost use Rattle.hf_box.specs.Head.{box};
ghost use Rattle.hf_box.specs.Literals.{four};
ghost use Rattle.hf_desk.specs.Outside.{Outside};
ghost use Rattle.hf_desk.specs.Pages.{ByPut, Gives};
ghost use Rattle.hf_store.specs.Layout.{own, mdat_body};
ghost use Rattle.hf_plan.specs.Plan.{IsPlan};

use crate::bodies::give_bodies;
use crate::header::give_header;
use hf_base::kinds::MDAT;
use hf_desk::{Desk, Page, Put, WriteFault};
use hf_plan::Plan;
use hf_store::Store;

/// Gives a whole `mdat` with the bytes of the items of a store that stand there, by its plan.
pub(crate) fn give_mdat<D: Desk>(
    store: &Store<'_>,
    plan: &Plan,
    page: &mut Page<Put>,
    desk: &mut D,
) -> Result<(), WriteFault>
    requires creating { (D.outside desk.old).creating ≡ true }
    requires plan { IsPlan store.now plan.now }
    ensures { Gives ByPut (D.outside desk.old) page.old (box (four "mdat") (mdat_body own store.now.items)) result (D.outside desk.new) page.new }
{
    store.valid();
    give_header(MDAT, plan.sizes().mdat, page, desk)?;
    give_bodies(store, false, page, desk)
}
