//! The input of a command.

ghost use Rattle.std.specs.Prelude.{◌≡◌, ◌<◌, ◌≤◌, true, length, IfOk, IsErrOf};
ghost use Rattle.hf_base.specs.declared.limits.TheConstants as limits;
ghost use Rattle.hf_desk.specs.Calls.{Rose, ReadsOnly, IfTold, HasFile};

use hf_base::limits::FILE;
use hf_desk::{Desk, ReadStop, read_all};
use std::alloc::Global;

/// The bytes of the file with this name, if they are no more than `FILE`. `Fault` comes only where a
/// read of this file failed: over a steady desk that has it, not at all.
#[tactic(auto, using(hf_desk::proofs::Frames::reads_both, hf_desk::proofs::Frames::told_along, hf_desk::proofs::Frames::has_along))]
pub fn read_input<D: Desk>(alloc: Global, name: &str, desk: &mut D) -> Result<Vec<u8>, ReadStop>
    ensures only { ReadsOnly (D.outside desk.old) (D.outside desk.new) }
    ensures within { IfOk result (λ bytes. length bytes.items ≤ limits.FILE) }
    ensures whole { IfOk result (λ bytes. IfTold (D.outside desk.old) name.now (λ file. bytes.items ≡ file)) }
    ensures too_long { IsErrOf result ReadStop.TooLong → IfTold (D.outside desk.old) name.now (λ file. limits.FILE < length file) }
    ensures fault { IsErrOf result ReadStop.Fault → Rose (D.outside desk.old).read_faults (D.outside desk.new).read_faults }
    ensures steady { (D.outside desk.old).steady ≡ true → HasFile (D.outside desk.old) name.now
        → (IsErrOf result ReadStop.Fault → ⊥) × ((D.outside desk.new).read_faults ≡ (D.outside desk.old).read_faults) }
{
    read_all(alloc, desk, name, FILE)
}
