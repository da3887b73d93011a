//! The canonical file of a store, made.

ghost use Rattle.std.specs.Prelude.{◌≡◌, false};
ghost use Rattle.hf_plan.specs.Plan.{IsPlan};
ghost use Rattle.hf_app.specs.Making.{MakesCanon};

use hf_desk::{Desk, Failed, WriteFault};
use hf_plan::Plan;
use hf_store::Store;
use hf_write::write;

/// Makes the canonical file of the store, under a name that is new; the plan is that of the store.
/// `WriteFault` comes only where `write_faults` rose; then nothing was made, or a file that holds
/// some front of the canonical one. It takes no memory.
pub fn make_canonical<D: Desk>(
    store: &Store<'_>,
    plan: &Plan,
    name: &str,
    desk: &mut D,
) -> Result<(), WriteFault>
    requires creating { (D.outside desk.old).creating ≡ false }
    requires plan { IsPlan store.now plan.now }
    ensures { MakesCanon store.now (D.outside desk.old) name.now result (D.outside desk.new) }
{
    store.valid();
    match desk.create(name) {
        Ok(()) => write(store, plan, desk),
        Err(Failed) => Err(WriteFault),
    }
}
