//! `boxes IN`: the boxes of a file are said.

ghost use Rattle.std.specs.Prelude.{◌≡◌, ℕ, false};
ghost use Rattle.hf_text.specs.Words.{Boxes};
ghost use Rattle.hf_app.specs.Answers.{Ends, IsQuiet, HasCause, IsSteady, Stays};

use crate::input::read_input;
use crate::stopping::stopped;
use hf_base::OpenFault;
use hf_box::walk;
use hf_desk::Desk;
use hf_text::{Outcome, say_rows};
use std::alloc::Global;

/// Says the rows of the file with this name.
pub fn say_boxes<D: Desk>(alloc: Global, name: &str, desk: &mut D) -> Outcome
    requires { (D.outside desk.old).creating ≡ false }
    ensures stays { Stays (D.outside desk.old) (D.outside desk.new) }
    ensures cause { HasCause result (D.outside desk.old) (D.outside desk.new) }
    ensures quiet { IsQuiet result (D.outside desk.old) (D.outside desk.new) }
    ensures no_usage { (at : ℕ) → result ≡ Outcome.Usage at → ⊥ }
    ensures ends { Ends (Boxes name.now) result (D.outside desk.old) (D.outside desk.new) }
    ensures steady { IsSteady (Boxes name.now) result (D.outside desk.old) }
{
    let file = match read_input(alloc, name, desk) {
        Ok(file) => file,
        Err(why) => return stopped(0, why),
    };
    let rows = match walk(alloc, &file) {
        Ok(rows) => rows,
        Err(OpenFault::Unfit(why)) => return Outcome::Unfit { source: 0, why },
        Err(OpenFault::NoMemory) => return Outcome::NoMemory,
    };
    match say_rows(&rows, desk) {
        Ok(()) => Outcome::Done,
        Err(_) => Outcome::WriteFault,
    }
}
