//! `iprp`: ItemPropertiesBox of ISO/IEC 23008-12.

ghost use Rattle.std.specs.Prelude.{◌≡◌, true};
ghost use Rattle.hf_box.specs.Head.{box};
ghost use Rattle.hf_box.specs.Literals.{four};
ghost use Rattle.hf_desk.specs.Outside.{Outside};
ghost use Rattle.hf_desk.specs.Pages.{ByPut, Gives};
ghost use Rattle.hf_prop.specs.Iprp.{iprp_body};
ghost use Rattle.hf_store.specs.Layout.{iprp_of};
ghost use Rattle.hf_plan.specs.Plan.{IsPlan};

use crate::header::give_header;
use crate::ipco::give_ipco;
use crate::ipma::give_ipma;
use hf_base::kinds::IPRP;
use hf_desk::{Desk, Page, Put, WriteFault};
use hf_plan::Plan;
use hf_store::Store;

/// Gives a whole `iprp` with the properties of the items of a store, by its plan.
pub(crate) fn give_iprp<D: Desk>(
    store: &Store<'_>,
    plan: &Plan,
    page: &mut Page<Put>,
    desk: &mut D,
) -> Result<(), WriteFault>
    requires creating { (D.outside desk.old).creating ≡ true }
    requires plan { IsPlan store.now plan.now }
    ensures { Gives ByPut (D.outside desk.old) page.old (box (four "iprp") (iprp_body plan.now.wide (iprp_of store.now))) result (D.outside desk.new) page.new }
{
    store.valid();
    give_header(IPRP, plan.sizes().iprp, page, desk)?;
    give_ipco(store, plan, page, desk)?;
    give_ipma(store, plan, page, desk)
}
