//! `ipco`: ItemPropertyContainerBox of ISO/IEC 23008-12.

ghost use Rattle.std.specs.Prelude.{◌≡◌, ◌≤◌, ◌^◌, length, true};
ghost use Rattle.std.specs.List.{flat_map};
ghost use Rattle.hf_box.specs.Head.{box};
ghost use Rattle.hf_box.specs.Literals.{four};
ghost use Rattle.hf_desk.specs.Outside.{Outside};
ghost use Rattle.hf_desk.specs.Pages.{ByPut, Gives};
ghost use Rattle.hf_prop.specs.Iprp.{ipco_body};
ghost use Rattle.hf_store.specs.Table.{table_of};
ghost use Rattle.hf_plan.specs.Plan.{IsPlan};
ghost use Rattle.hf_write.specs.Entries.{prop_box};

use crate::header::{give_head, give_header};
use hf_base::kinds::IPCO;
use hf_desk::{Desk, Page, Put, WriteFault};
use hf_plan::Plan;
use hf_prop::Prop;
use hf_store::Store;

/// Gives the box of a property.
fn give_prop<D: Desk>(prop: &Prop<'_>, page: &mut Page<Put>, desk: &mut D) -> Result<(), WriteFault>
    requires creating { (D.outside desk.old).creating ≡ true }
    requires few { length prop.now.body ≤ 2 ^ 62 }
    ensures { Gives ByPut (D.outside desk.old) page.old (prop_box prop.now) result (D.outside desk.new) page.new }
{
    let body = prop.body.as_slice();
    give_head(prop.kind, body.len() as u64, page, desk)?;
    page.give(body, desk)
}

/// Gives the boxes of the distinct properties, in the order of their first use.
fn give_props<D: Desk>(
    store: &Store<'_>,
    plan: &Plan,
    page: &mut Page<Put>,
    desk: &mut D,
) -> Result<(), WriteFault>
    requires creating { (D.outside desk.old).creating ≡ true }
    requires plan { IsPlan store.now plan.now }
    ensures { Gives ByPut (D.outside desk.old) page.old (flat_map prop_box (table_of store.now)) result (D.outside desk.new) page.new }
{
    store.valid();
    for k in 0..plan.kinds() {
        let (i, j) = plan.first(k);
        give_prop(&store.at(i).props.get(j).prop, page, desk)?;
    }
    Ok(())
}

/// Gives a whole `ipco` with the distinct properties of a store, by its plan.
pub(crate) fn give_ipco<D: Desk>(
    store: &Store<'_>,
    plan: &Plan,
    page: &mut Page<Put>,
    desk: &mut D,
) -> Result<(), WriteFault>
    requires creating { (D.outside desk.old).creating ≡ true }
    requires plan { IsPlan store.now plan.now }
    ensures { Gives ByPut (D.outside desk.old) page.old (box (four "ipco") (ipco_body (table_of store.now))) result (D.outside desk.new) page.new }
{
    store.valid();
    give_header(IPCO, plan.sizes().ipco, page, desk)?;
    give_props(store, plan, page, desk)
}
