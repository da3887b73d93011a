//! `list IN`: the items of a file are said.

ghost use Rattle.std.specs.Prelude.{◌≡◌, ℕ, false};
ghost use Rattle.hf_text.specs.Words.{ListFile};
ghost use Rattle.hf_app.specs.Answers.{Ends, IsQuiet, HasCause, IsSteady, Stays};

use crate::input::read_input;
use crate::opening::opened;
use crate::stopping::{refused, stopped};
use hf_desk::Desk;
use hf_text::{Outcome, say_list};
use std::alloc::Global;

/// Says the listing of the store that the file with this name denotes.
pub fn say_items<D: Desk>(alloc: Global, name: &str, desk: &mut D) -> Outcome
    requires { (D.outside desk.old).creating ≡ false }
    ensures stays { Stays (D.outside desk.old) (D.outside desk.new) }
    ensures cause { HasCause result (D.outside desk.old) (D.outside desk.new) }
    ensures quiet { IsQuiet result (D.outside desk.old) (D.outside desk.new) }
    ensures no_usage { (at : ℕ) → result ≡ Outcome.Usage at → ⊥ }
    ensures ends { Ends (ListFile name.now) result (D.outside desk.old) (D.outside desk.new) }
    ensures steady { IsSteady (ListFile name.now) result (D.outside desk.old) }
{
    let file = match read_input(alloc, name, desk) {
        Ok(file) => file,
        Err(why) => return stopped(0, why),
    };
    let store = match opened(alloc, 0, &file) {
        Ok(store) => store,
        Err(why) => return refused(why),
    };
    match say_list(&store, desk) {
        Ok(()) => Outcome::Done,
        Err(_) => Outcome::WriteFault,
    }
}
