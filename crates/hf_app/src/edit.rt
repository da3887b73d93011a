//! `edit IN OUT`, then edits: the canonical file of the store after all edits is made.

ghost use Rattle.std.specs.Prelude.{◌≡◌, ◌≤◌, ℕ, false, length, map, string_bytes};
ghost use Rattle.std.specs.List.{All};
ghost use Rattle.hf_base.specs.declared.limits.TheConstants.{EDITS};
ghost use Rattle.hf_text.specs.Words.{EditFile};
ghost use Rattle.hf_text.specs.Commands.{EditNamesWords, edit_of};
ghost use Rattle.hf_app.specs.Answers.{Ends, IsQuiet, HasCause, IsSteady, Stays};

use crate::editing::edited;
use crate::input::read_input;
use crate::making::make_canonical;
use crate::sources::read_sources;
use crate::stopping::{refused, stopped};
use hf_desk::Desk;
use hf_text::{EditWord, Outcome};
use std::alloc::Global;

/// Makes the file `out`: the canonical file of the store that the input denotes, after these edits
/// in order. All files are read whole, in the order of the words, before the input is opened. All
/// that takes memory comes before the file is created.
pub fn edit_file<D: Desk>(
    alloc: Global,
    words: &[String],
    input: &str,
    out: &str,
    edits: &[EditWord],
    desk: &mut D,
) -> Outcome
    requires creating { (D.outside desk.old).creating ≡ false }
    requires few { length edits.now ≤ EDITS }
    requires names { All (EditNamesWords (map string_bytes words.now)) edits.now }
    ensures stays { Stays (D.outside desk.old) (D.outside desk.new) }
    ensures cause { HasCause result (D.outside desk.old) (D.outside desk.new) }
    ensures quiet { IsQuiet result (D.outside desk.old) (D.outside desk.new) }
    ensures no_usage { (at : ℕ) → result ≡ Outcome.Usage at → ⊥ }
    ensures ends { Ends (EditFile input.now out.now (map (edit_of (map string_bytes words.now)) edits.now)) result (D.outside desk.old) (D.outside desk.new) }
    ensures steady { IsSteady (EditFile input.now out.now (map (edit_of (map string_bytes words.now)) edits.now)) result (D.outside desk.old) }
{
    let file = match read_input(alloc, input, desk) {
        Ok(file) => file,
        Err(why) => return stopped(0, why),
    };
    let files = match read_sources(alloc, words, edits, desk) {
        Ok(files) => files,
        Err(unread) => return stopped(unread.source, unread.why),
    };
    let (store, plan) = match edited(alloc, &file, edits, &files) {
        Ok(made) => made,
        Err(why) => return refused(why),
    };
    match make_canonical(&store, &plan, out, desk) {
        Ok(()) => Outcome::Done,
        Err(_) => Outcome::WriteFault,
    }
}
