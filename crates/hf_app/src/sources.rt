//! The files that edits read.

ghost use Rattle.std.specs.Prelude.{◌≡◌, ◌≤◌, length, map, string_bytes, IfOk};
ghost use Rattle.std.specs.List.{All};
ghost use Rattle.hf_base.specs.declared.limits.TheConstants.{EDITS as MOST, FILE as LONGEST};
ghost use Rattle.hf_desk.specs.Calls.{ReadsOnly};
ghost use Rattle.hf_text.specs.Commands.{EditNamesWords, edit_of};
ghost use Rattle.hf_app.specs.Reads.{AreRead, ReadSteadily};
ghost use Rattle.hf_app.specs.Sources.{content_of, source_of, sources_from};

use crate::input::read_input;
use crate::words::word;
use hf_desk::{Desk, ReadStop};
use hf_text::EditWord;
use std::alloc::Global;

/// Why the file of an edit was not read whole.
#[derive(Clone, Copy)]
pub struct Unread {
    /// The number of the edit, from 1.
    pub source: u32,
    /// Why it was not.
    pub why: ReadStop,
}

/// The bytes of the file that the edit with this number reads; none where it reads none.
fn read_source<D: Desk>(
    alloc: Global,
    words: &[String],
    number: u32,
    edit: &EditWord,
    desk: &mut D,
) -> Result<Vec<u8>, Unread>
    requires { EditNamesWords (map string_bytes words.now) edit.now }
    ensures only { ReadsOnly (D.outside desk.old) (D.outside desk.new) }
    ensures within { IfOk result (λ bytes. length bytes.items ≤ LONGEST) }
    ensures read { let w = edit_of (map string_bytes words.now) edit.now in
        AreRead (D.outside desk.old) (source_of number w) (λ files bytes. bytes.items ≡ content_of (Some files) w) result (D.outside desk.new) }
    ensures steady { ReadSteadily (D.outside desk.old) (source_of number (edit_of (map string_bytes words.now) edit.now)) result }
{
    let file = match *edit {
        EditWord::Exif { file, .. } => file,
        EditWord::Xmp { file, .. } => file,
        EditWord::Thumb { file, .. } => file,
        _ => return Ok(Vec::new(alloc)),
    };
    match read_input(alloc, word(words, file), desk) {
        Ok(bytes) => Ok(bytes),
        Err(why) => Err(Unread {
            source: number,
            why,
        }),
    }
}

/// The bytes of the file of each edit, in the order of the edits.
pub fn read_sources<D: Desk>(
    alloc: Global,
    words: &[String],
    edits: &[EditWord],
    desk: &mut D,
) -> Result<Vec<Vec<u8>>, Unread>
    requires few { length edits.now ≤ MOST }
    requires names { All (EditNamesWords (map string_bytes words.now)) edits.now }
    ensures only { ReadsOnly (D.outside desk.old) (D.outside desk.new) }
    ensures within { IfOk result (λ files. All (λ file. length file.items ≤ LONGEST) files.items) }
    ensures count { IfOk result (λ files. length files.items ≡ length edits.now) }
    ensures read { let ws = map (edit_of (map string_bytes words.now)) edits.now in
        AreRead (D.outside desk.old) (sources_from 1 ws)
        (λ told files. map (λ file. file.items) files.items ≡ map (content_of (Some told)) ws) result (D.outside desk.new) }
    ensures steady { ReadSteadily (D.outside desk.old) (sources_from 1 (map (edit_of (map string_bytes words.now)) edits.now)) result }
{
    let mut files = Vec::new(alloc);
    let mut number = 1;
    for edit in edits {
        let file = read_source(alloc, words, number, edit, desk)?;
        if files.push(file).is_err() {
            return Err(Unread {
                source: number,
                why: ReadStop::NoMemory,
            });
        }
        number += 1;
    }
    Ok(files)
}
