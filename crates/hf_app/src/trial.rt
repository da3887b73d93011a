//! `trial SEED N OUT`: the canonical file of a trial is made, and its numbers are said.

ghost use Rattle.std.specs.Prelude.{◌≡◌, ◌≤◌, ℕ, false, IfOk};
ghost use Rattle.hf_plan.specs.Plan.{IsPlan};
ghost use Rattle.hf_text.specs.Words.{Trial};
ghost use Rattle.hf_trial.specs.Trial.{trial_store_of};
ghost use Rattle.hf_app.specs.Answers.{Ends, IsQuiet, HasCause, IsSteady, Stays};
ghost use Rattle.hf_app.specs.Trials.{AreNumbers, Plans};

use crate::making::make_canonical;
use hf_base::NoMemory;
use hf_deps::redact;
use hf_desk::Desk;
use hf_plan::{Plan, plan};
use hf_store::Store;
use hf_text::{Outcome, TrialNumbers, say_trial};
use hf_trial::{trial_buffer, trial_store};
use std::alloc::Global;

/// The numbers of the trial with this store and its plan. `kept` is a copy of the store, and is
/// redacted.
fn counted(
    alloc: Global,
    seed: u32,
    n: u32,
    store: &Store<'_>,
    whole: &Plan,
    kept: &mut Store<'_>,
) -> Result<TrialNumbers, NoMemory>
    requires store { store.now ≡ trial_store_of seed n }
    requires plan { IsPlan store.now whole.now }
    requires copy { kept.old ≡ store.now }
    ensures { IfOk result (λ numbers. AreNumbers seed n numbers) }
{
    store.valid();
    redact(alloc, kept, false)?;
    kept.valid();
    let plan = plan(alloc, kept)?;
    Ok(TrialNumbers {
        seed,
        n,
        items: store.len() as u64,
        bytes: whole.total(),
        kept_items: kept.len() as u64,
        kept_bytes: plan.total(),
    })
}

/// The numbers of the trial with this store and its plan.
fn numbers(
    alloc: Global,
    seed: u32,
    n: u32,
    store: &Store<'_>,
    whole: &Plan,
) -> Result<TrialNumbers, NoMemory>
    requires store { store.now ≡ trial_store_of seed n }
    requires plan { IsPlan store.now whole.now }
    ensures { IfOk result (λ numbers. AreNumbers seed n numbers) }
{
    let mut kept = store.try_clone()?;
    counted(alloc, seed, n, store, whole, &mut kept)
}

/// The plan of the trial with this store, and its numbers.
fn planned(
    alloc: Global,
    seed: u32,
    n: u32,
    store: &Store<'_>,
) -> Result<(Plan, TrialNumbers), NoMemory>
    requires { store.now ≡ trial_store_of seed n }
    ensures { Plans seed n store.now result }
{
    let plan = plan(alloc, store)?;
    let numbers = numbers(alloc, seed, n, store, &plan)?;
    Ok((plan, numbers))
}

/// Makes the file `out`, the canonical file of the trial with this store, and then says its numbers.
fn make_file<D: Desk>(
    alloc: Global,
    seed: u32,
    n: u32,
    store: &Store<'_>,
    out: &str,
    desk: &mut D,
) -> Outcome
    requires creating { (D.outside desk.old).creating ≡ false }
    requires store { store.now ≡ trial_store_of seed n }
    ensures stays { Stays (D.outside desk.old) (D.outside desk.new) }
    ensures cause { HasCause result (D.outside desk.old) (D.outside desk.new) }
    ensures quiet { IsQuiet result (D.outside desk.old) (D.outside desk.new) }
    ensures no_usage { (at : ℕ) → result ≡ Outcome.Usage at → ⊥ }
    ensures ends { Ends (Trial seed n out.now) result (D.outside desk.old) (D.outside desk.new) }
    ensures steady { IsSteady (Trial seed n out.now) result (D.outside desk.old) }
{
    let Ok((plan, numbers)) = planned(alloc, seed, n, store) else {
        return Outcome::NoMemory;
    };
    let Ok(()) = make_canonical(store, &plan, out, desk) else {
        return Outcome::WriteFault;
    };
    match say_trial(&numbers, desk) {
        Ok(()) => Outcome::Done,
        Err(_) => Outcome::WriteFault,
    }
}

/// Makes the file `out`, the canonical file of the trial of `seed` and `n`, and then says how many
/// items and bytes it has, and how many a redaction leaves. All that takes memory comes before the
/// file is created.
pub fn make_trial<D: Desk>(alloc: Global, seed: u32, n: u32, out: &str, desk: &mut D) -> Outcome
    requires creating { (D.outside desk.old).creating ≡ false }
    requires some { 1 ≤ n }
    requires few { n ≤ 256 }
    ensures stays { Stays (D.outside desk.old) (D.outside desk.new) }
    ensures cause { HasCause result (D.outside desk.old) (D.outside desk.new) }
    ensures quiet { IsQuiet result (D.outside desk.old) (D.outside desk.new) }
    ensures no_usage { (at : ℕ) → result ≡ Outcome.Usage at → ⊥ }
    ensures ends { Ends (Trial seed n out.now) result (D.outside desk.old) (D.outside desk.new) }
    ensures steady { IsSteady (Trial seed n out.now) result (D.outside desk.old) }
{
    let Ok(buffer) = trial_buffer(alloc, seed, n) else {
        return Outcome::NoMemory;
    };
    let Ok(store) = trial_store(alloc, seed, n, &buffer) else {
        return Outcome::NoMemory;
    };
    make_file(alloc, seed, n, &store, out, desk)
}
