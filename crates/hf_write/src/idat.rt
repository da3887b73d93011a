//! `idat`: ItemDataBox of ISO/IEC 14496-12.

ghost use Rattle.std.specs.Prelude.{◌≡◌, true, filter};
ghost use Rattle.hf_box.specs.Literals.{four};
ghost use Rattle.hf_desk.specs.Outside.{Outside};
ghost use Rattle.hf_desk.specs.Pages.{ByPut, Gives};
ghost use Rattle.hf_store.specs.Layout.{bytes_in, box_if_any, in_idat};
ghost use Rattle.hf_plan.specs.Plan.{IsPlan};

use crate::bodies::give_bodies;
use crate::header::give_header;
use hf_base::kinds::IDAT;
use hf_desk::{Desk, Page, Put, WriteFault};
use hf_plan::Plan;
use hf_store::Store;

/// Gives a whole `idat` with the bytes of the items of a store that stand there, by its plan; nothing
/// where there are none.
pub(crate) fn give_idat<D: Desk>(
    store: &Store<'_>,
    plan: &Plan,
    page: &mut Page<Put>,
    desk: &mut D,
) -> Result<(), WriteFault>
    requires creating { (D.outside desk.old).creating ≡ true }
    requires plan { IsPlan store.now plan.now }
    ensures { Gives ByPut (D.outside desk.old) page.old (box_if_any (four "idat") bytes_in (filter in_idat store.now.items)) result (D.outside desk.new) page.new }
{
    store.valid();
    let size = plan.sizes().idat;
    if size == 0 {
        return Ok(());
    }
    give_header(IDAT, size, page, desk)?;
    give_bodies(store, true, page, desk)
}
