//! `extract IN ID OUT`: a file of the bytes of an item is made.

ghost use Rattle.std.specs.Prelude.{◌≡◌, ℕ, false};
ghost use Rattle.hf_desk.specs.Making.{Makes};
ghost use Rattle.hf_pieces.specs.Bytes.{joined};
ghost use Rattle.hf_text.specs.Words.{Extract};
ghost use Rattle.hf_app.specs.Answers.{Ends, IsQuiet, HasCause, IsSteady, Stays};

use crate::input::read_input;
use crate::opening::opened;
use crate::stopping::{refused, stopped};
use hf_desk::{Desk, Failed, WriteFault};
use hf_pieces::Pieces;
use hf_text::Outcome;
use hf_write::put_pieces;
use std::alloc::Global;

/// Makes a file of these pieces, under a name that is new.
fn make_pieces<D: Desk>(pieces: &Pieces<'_>, name: &str, desk: &mut D) -> Result<(), WriteFault>
    requires { (D.outside desk.old).creating ≡ false }
    ensures { Makes (D.outside desk.old) name.now (joined pieces.now) result (D.outside desk.new) }
{
    match desk.create(name) {
        Ok(()) => put_pieces(pieces, desk),
        Err(Failed) => Err(WriteFault),
    }
}

/// Makes the file `out`: the bytes of the item with this id, as the input has them. All that takes
/// memory comes before the file is created.
pub fn extract_item<D: Desk>(
    alloc: Global,
    input: &str,
    id: u32,
    out: &str,
    desk: &mut D,
) -> Outcome
    requires { (D.outside desk.old).creating ≡ false }
    ensures stays { Stays (D.outside desk.old) (D.outside desk.new) }
    ensures cause { HasCause result (D.outside desk.old) (D.outside desk.new) }
    ensures quiet { IsQuiet result (D.outside desk.old) (D.outside desk.new) }
    ensures no_usage { (at : ℕ) → result ≡ Outcome.Usage at → ⊥ }
    ensures ends { Ends (Extract input.now id out.now) result (D.outside desk.old) (D.outside desk.new) }
    ensures steady { IsSteady (Extract input.now id out.now) result (D.outside desk.old) }
{
    let file = match read_input(alloc, input, desk) {
        Ok(file) => file,
        Err(why) => return stopped(0, why),
    };
    let store = match opened(alloc, 0, &file) {
        Ok(store) => store,
        Err(why) => return refused(why),
    };
    let Some(item) = store.item(id) else {
        return Outcome::NoSuchItem { id };
    };
    match make_pieces(&item.body, out, desk) {
        Ok(()) => Outcome::Done,
        Err(_) => Outcome::WriteFault,
    }
}
