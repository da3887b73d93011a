//! The words of the command line, read from left to right.

ghost use Rattle.std.specs.Prelude.{◌≡◌, ◌≤◌, length, map, string_bytes, IfOk};
ghost use Rattle.hf_text.specs.Words.{command_read, edit_form, extract_form, form_read, redact_form, short_forms, trial_form};
ghost use Rattle.hf_text.specs.declared.words.WordsFault.TheVariants.{NoMemory as no_memory};
ghost use Rattle.hf_text.specs.Commands.{IsRead, IsShortRead, NamesWords};

use crate::edits::{EditWord, read_edits};
use crate::places::{read_bare, read_count, read_end, read_name, read_number};
use hf_base::NoMemory;
use std::alloc::Global;

/// A command. Each file is named by the place of its word, from 0.
#[derive(Drop)]
pub enum Command {
    /// Says the boxes of the file `input`.
    Boxes {
        input: usize,
    },
    /// Says the items of the file `input`.
    List {
        input: usize,
    },
    /// Says whether the file `input` is canonical.
    Check {
        input: usize,
    },
    /// Makes the file `out`: the bytes of the item of the file `input` with this id.
    Extract {
        input: usize,
        id: u32,
        out: usize,
    },
    /// Makes the file `out`: the file `input` after these edits, in order.
    Edit {
        input: usize,
        out: usize,
        edits: Vec<EditWord>,
    },
    /// Makes the file `out`: the redacted file `input`, without thumbnails and auxiliary pictures
    /// where it is `bare`.
    Redact {
        input: usize,
        out: usize,
        bare: bool,
    },
    /// Makes the file `out`: the trial of a seed, with `n` rows of tiles, 1 to 256.
    Trial {
        seed: u32,
        n: u32,
        out: usize,
    },
}

/// Why words are not read.
#[derive(Clone, Copy)]
pub enum WordsFault {
    /// The words are no command: `at` is the place, from 0, of the first word that no command has
    /// there after the words before it, or the number of words where they end too early.
    Usage { at: usize },
    /// Memory was refused.
    NoMemory,
}

impl From<NoMemory> for WordsFault {
    ghost from_gives = { λ _ fault. fault ≡ no_memory };

    fn from(_e: NoMemory) -> WordsFault {
        WordsFault::NoMemory
    }
}

/// The words of `extract`.
fn read_extract(words: &[String]) -> Result<Command, usize>
    ensures read { IsShortRead (map string_bytes words.now) (extract_form.read 0 (map string_bytes words.now)) result }
    ensures names { IfOk result (λ command. NamesWords (map string_bytes words.now) command) }
{
    let input = read_name(words, 0, 1)?;
    let id = read_number(words, 0, 2)?;
    let out = read_name(words, 0, 3)?;
    read_end(words, 0, 4)?;
    Ok(Command::Extract { input, id, out })
}

/// The words of `redact`.
fn read_redact(words: &[String]) -> Result<Command, usize>
    ensures read { IsShortRead (map string_bytes words.now) (redact_form.read 0 (map string_bytes words.now)) result }
    ensures names { IfOk result (λ command. NamesWords (map string_bytes words.now) command) }
{
    let input = read_name(words, 0, 1)?;
    let out = read_name(words, 0, 2)?;
    let mut bare = false;
    if words.len() > 3 {
        bare = read_bare(words, 0, 3)?;
        read_end(words, 0, 4)?;
    }
    Ok(Command::Redact { input, out, bare })
}

/// The words of `trial`.
fn read_trial(words: &[String]) -> Result<Command, usize>
    ensures read { IsShortRead (map string_bytes words.now) (trial_form.read 0 (map string_bytes words.now)) result }
    ensures names { IfOk result (λ command. NamesWords (map string_bytes words.now) command) }
{
    let seed = read_number(words, 0, 1)?;
    let n = read_count(words, 0, 2)?;
    let out = read_name(words, 0, 3)?;
    read_end(words, 0, 4)?;
    Ok(Command::Trial { seed, n, out })
}

/// The command with this name, other than `edit`.
fn read_short(name: &str, words: &[String]) -> Result<Command, usize>
    ensures read { IsShortRead (map string_bytes words.now) (form_read short_forms 0 name.now (map string_bytes words.now)) result }
    ensures names { IfOk result (λ command. NamesWords (map string_bytes words.now) command) }
{
    match name {
        "boxes" => {
            let input = read_name(words, 0, 1)?;
            read_end(words, 0, 2)?;
            Ok(Command::Boxes { input })
        }
        "list" => {
            let input = read_name(words, 0, 1)?;
            read_end(words, 0, 2)?;
            Ok(Command::List { input })
        }
        "check" => {
            let input = read_name(words, 0, 1)?;
            read_end(words, 0, 2)?;
            Ok(Command::Check { input })
        }
        "extract" => read_extract(words),
        "redact" => read_redact(words),
        "trial" => read_trial(words),
        _ => Err(0),
    }
}

/// The command where the first word is `edit`.
fn read_edit_file(alloc: Global, words: &[String]) -> Result<Command, WordsFault>
    requires { 1 ≤ length words.now }
    ensures read { IsRead (map string_bytes words.now) (edit_form.read 0 (map string_bytes words.now)) result }
    ensures names { IfOk result (λ command. NamesWords (map string_bytes words.now) command) }
{
    if words.len() < 3 {
        return Err(WordsFault::Usage { at: words.len() });
    }
    let edits = read_edits(alloc, words)?;
    Ok(Command::Edit {
        input: 1,
        out: 2,
        edits,
    })
}

/// The command that the words are, without the program's name among them.
pub fn read_words(alloc: Global, words: &[String]) -> Result<Command, WordsFault>
    // The command, or the one place of usage; memory is refused only where a command reads.
    ensures read { IsRead (map string_bytes words.now) (command_read (map string_bytes words.now)) result }
    // A word stands at each place that the command names, those of its edits too.
    ensures names { IfOk result (λ command. NamesWords (map string_bytes words.now) command) }
{
    let Some(name) = words.first() else {
        return Err(WordsFault::Usage { at: 0 });
    };
    if name.as_str() == "edit" {
        return read_edit_file(alloc, words);
    }
    match read_short(name.as_str(), words) {
        Ok(command) => Ok(command),
        Err(at) => Err(WordsFault::Usage { at }),
    }
}
