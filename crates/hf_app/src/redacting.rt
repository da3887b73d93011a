//! `redact IN OUT`, and `bare` or not: the canonical file of what a redaction leaves is made.

ghost use Rattle.std.specs.Prelude.{◌≡◌, ◌≤◌, ℕ, false, length};
ghost use Rattle.hf_base.specs.declared.limits.TheConstants.{FILE};
ghost use Rattle.hf_text.specs.Words.{Redact};
ghost use Rattle.hf_app.specs.Answers.{Ends, IsQuiet, HasCause, IsSteady, Stays};
ghost use Rattle.hf_app.specs.Redactions.{Redacts};

use crate::input::read_input;
use crate::making::make_canonical;
use crate::opening::opened;
use crate::stopping::{Stop, refused, stopped};
use hf_deps::redact;
use hf_desk::Desk;
use hf_plan::{Plan, plan};
use hf_store::Store;
use hf_text::Outcome;
use std::alloc::Global;

/// What a redaction leaves of the store that a file denotes, and the plan of its canonical file.
fn redacted<'a>(alloc: Global, file: &'a [u8], bare: bool) -> Result<(Store<'a>, Plan), Stop>
    requires { length file.now ≤ FILE }
    ensures { Redacts file.now bare result }
{
    let mut store = opened(alloc, 0, file)?;
    redact(alloc, &mut store, bare)?;
    store.valid();
    let plan = plan(alloc, &store)?;
    Ok((store, plan))
}

/// Makes the file `out`: the canonical file of what a redaction leaves of the store that the input
/// denotes. All that takes memory comes before the file is created.
pub fn redact_file<D: Desk>(
    alloc: Global,
    input: &str,
    out: &str,
    bare: bool,
    desk: &mut D,
) -> Outcome
    requires { (D.outside desk.old).creating ≡ false }
    ensures stays { Stays (D.outside desk.old) (D.outside desk.new) }
    ensures cause { HasCause result (D.outside desk.old) (D.outside desk.new) }
    ensures quiet { IsQuiet result (D.outside desk.old) (D.outside desk.new) }
    ensures no_usage { (at : ℕ) → result ≡ Outcome.Usage at → ⊥ }
    ensures ends { Ends (Redact input.now out.now bare) result (D.outside desk.old) (D.outside desk.new) }
    ensures steady { IsSteady (Redact input.now out.now bare) result (D.outside desk.old) }
{
    let file = match read_input(alloc, input, desk) {
        Ok(file) => file,
        Err(why) => return stopped(0, why),
    };
    let (store, plan) = match redacted(alloc, &file, bare) {
        Ok(made) => made,
        Err(why) => return refused(why),
    };
    match make_canonical(&store, &plan, out, desk) {
        Ok(()) => Outcome::Done,
        Err(_) => Outcome::WriteFault,
    }
}
