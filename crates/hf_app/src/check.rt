//! `check IN`: whether a file is the canonical file of the store that it denotes is said.

ghost use Rattle.std.specs.Prelude.{◌≡◌, ◌≤◌, ◌↔◌, ℕ, false, length, IsTrue, MatchResult};
ghost use Rattle.hf_base.specs.declared.limits.TheConstants.{FILE};
ghost use Rattle.hf_plan.specs.Canon.{Canon};
ghost use Rattle.hf_text.specs.Words.{CheckFile};
ghost use Rattle.hf_app.specs.Answers.{Ends, IsQuiet, HasCause, IsSteady, Stays};
ghost use Rattle.hf_app.specs.Opening.{Checks};
ghost use Rattle.hf_app.specs.declared.stopping.Stop.TheVariants.{NoMemory as no_memory};

use crate::input::read_input;
use crate::opening::opened;
use crate::stopping::{Stop, refused, stopped};
use hf_desk::Desk;
use hf_plan::plan;
use hf_store::Store;
use hf_text::{Outcome, say_check};
use hf_write::same;
use std::alloc::Global;

/// Whether a file is the canonical file of this store.
fn is_file_of(alloc: Global, store: &Store<'_>, file: &[u8]) -> Result<bool, Stop>
    ensures { MatchResult result (λ canonical. IsTrue canonical ↔ Canon store.now file.now) (λ why. why ≡ no_memory) }
{
    let plan = plan(alloc, store)?;
    Ok(same(store, &plan, file))
}

/// Whether a file is the canonical file of the store that it denotes.
fn is_canonical(alloc: Global, file: &[u8]) -> Result<bool, Stop>
    requires { length file.now ≤ FILE }
    ensures { Checks file.now result }
{
    let store = opened(alloc, 0, file)?;
    is_file_of(alloc, &store, file)
}

/// Says whether the file with this name is the canonical file of the store that it denotes.
pub fn check_file<D: Desk>(alloc: Global, name: &str, desk: &mut D) -> Outcome
    requires { (D.outside desk.old).creating ≡ false }
    ensures stays { Stays (D.outside desk.old) (D.outside desk.new) }
    ensures cause { HasCause result (D.outside desk.old) (D.outside desk.new) }
    ensures quiet { IsQuiet result (D.outside desk.old) (D.outside desk.new) }
    ensures no_usage { (at : ℕ) → result ≡ Outcome.Usage at → ⊥ }
    ensures ends { Ends (CheckFile name.now) result (D.outside desk.old) (D.outside desk.new) }
    ensures steady { IsSteady (CheckFile name.now) result (D.outside desk.old) }
{
    let file = match read_input(alloc, name, desk) {
        Ok(file) => file,
        Err(why) => return stopped(0, why),
    };
    let canonical = match is_canonical(alloc, &file) {
        Ok(canonical) => canonical,
        Err(why) => return refused(why),
    };
    match say_check(canonical, desk) {
        Ok(()) => Outcome::Done,
        Err(_) => Outcome::WriteFault,
    }
}
