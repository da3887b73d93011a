//! The top call.

ghost use Rattle.std.specs.Prelude.{◌≡◌, ◌↔◌, ℕ, true, false, Ok, Err, map, string_bytes};
ghost use Rattle.hf_desk.specs.Calls.{Rose};
ghost use Rattle.hf_text.specs.Commands.{NamesWords, command_of};
ghost use Rattle.hf_text.specs.Words.{Command as Words, IsCommand, command_read};
ghost use Rattle.hf_app.specs.Answers.{Answers, Ends, ForDue, IsQuiet, HasCause, IsDueOrNoMemory, IsSteady, OutIsFree, Stays};

use crate::boxes::say_boxes;
use crate::check::check_file;
use crate::edit::edit_file;
use crate::extract::extract_item;
use crate::list::say_items;
use crate::redacting::redact_file;
use crate::trial::make_trial;
use crate::words::word;
use hf_desk::Desk;
use hf_text::{Command, Outcome, WordsFault, read_words};
use std::alloc::Global;

/// Does what a command asks for.
fn answer<D: Desk>(alloc: Global, words: &[String], command: &Command, desk: &mut D) -> Outcome
    requires creating { (D.outside desk.old).creating ≡ false }
    requires names { NamesWords (map string_bytes words.now) command.now }
    requires few { IsCommand (command_of (map string_bytes words.now) command.now) }
    ensures stays { Stays (D.outside desk.old) (D.outside desk.new) }
    ensures cause { HasCause result (D.outside desk.old) (D.outside desk.new) }
    ensures quiet { IsQuiet result (D.outside desk.old) (D.outside desk.new) }
    ensures no_usage { (at : ℕ) → result ≡ Outcome.Usage at → ⊥ }
    ensures ends { Ends (command_of (map string_bytes words.now) command.now) result (D.outside desk.old) (D.outside desk.new) }
    ensures steady { IsSteady (command_of (map string_bytes words.now) command.now) result (D.outside desk.old) }
{
    match command {
        Command::Boxes { input } => say_boxes(alloc, word(words, *input), desk),
        Command::List { input } => say_items(alloc, word(words, *input), desk),
        Command::Check { input } => check_file(alloc, word(words, *input), desk),
        Command::Extract { input, id, out } => {
            extract_item(alloc, word(words, *input), *id, word(words, *out), desk)
        }
        Command::Edit { input, out, edits } => edit_file(
            alloc,
            words,
            word(words, *input),
            word(words, *out),
            edits,
            desk,
        ),
        Command::Redact { input, out, bare } => {
            redact_file(alloc, word(words, *input), word(words, *out), *bare, desk)
        }
        Command::Trial { seed, n, out } => make_trial(alloc, *seed, *n, word(words, *out), desk),
    }
}

/// Does all that the program does: `words` are those of the command line without the program's
/// name.
pub fn run<D: Desk>(alloc: Global, words: &[String], desk: &mut D) -> Outcome
    requires { (D.outside desk.old).creating ≡ false }
    ensures stays { Stays (D.outside desk.old) (D.outside desk.new) }
    // A fault is answered only where its count rose in this call.
    ensures cause { HasCause result (D.outside desk.old) (D.outside desk.new) }
    // With every answer other than Done and WriteFault nothing was made and nothing was said.
    ensures quiet { IsQuiet result (D.outside desk.old) (D.outside desk.new) }
    // Over every desk, Usage comes exactly where no command reads.
    ensures usage { (at : ℕ) → (result ≡ Outcome.Usage at) ↔ (command_read (map string_bytes words.now) ≡ Err at) }
    // Whatever the command: with every answer but ReadFault and NoMemory the files that it reads are
    // there, where they are told, up to one that is too long, and the answer is due of them. For
    // `edit` that answers Done: the input denotes a store, and the file made is the one canonical file
    // of that store after all edits in order, and denotes it. For `redact` it is that of the redacted
    // store, and for `trial` that of the trial, whose numbers were said. The laws say so of each command.
    ensures headline { (command : Words) → command_read (map string_bytes words.now) ≡ Ok command
        → Ends command result (D.outside desk.old) (D.outside desk.new) }
    // Where something is due, it is the answer; Done made and said all of it, WriteFault a front.
    ensures due { ForDue (command_read (map string_bytes words.now)) (D.outside desk.old)
        (λ Is. Answers Is result (D.outside desk.old) (D.outside desk.new)) }
    // Over a steady desk what is due is answered, or memory was refused.
    ensures steady { (D.outside desk.old).steady ≡ true → OutIsFree (command_read (map string_bytes words.now)) (D.outside desk.old)
        → ForDue (command_read (map string_bytes words.now)) (D.outside desk.old) (λ Is. IsDueOrNoMemory Is result) }
    // So it is over every desk where no count rises in this call.
    ensures complete { ¬ Rose (D.outside desk.old).read_faults (D.outside desk.new).read_faults
        → ¬ Rose (D.outside desk.old).write_faults (D.outside desk.new).write_faults
        → ForDue (command_read (map string_bytes words.now)) (D.outside desk.old) (λ Is. IsDueOrNoMemory Is result) }
{
    match read_words(alloc, words) {
        Ok(command) => answer(alloc, words, &command, desk),
        Err(WordsFault::Usage { at }) => Outcome::Usage { at },
        Err(WordsFault::NoMemory) => Outcome::NoMemory,
    }
}
