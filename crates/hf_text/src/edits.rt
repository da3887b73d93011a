//! The words of edits, read from left to right.

ghost use Rattle.std.specs.Prelude.{◌≡◌, ◌<◌, ◌≤◌, ℕ, List, Ok, length, drop, map, string_bytes, IfOk};
ghost use Rattle.std.specs.List.{All};
ghost use Rattle.hf_base.specs.declared.limits.TheConstants.{EDITS as MOST};
ghost use Rattle.hf_text.specs.Words.{edit_forms, edit_read, edits_read, form_read, number_in, words_of_edit};
ghost use Rattle.hf_text.specs.declared.edits.EditName.TheVariants.{Crop as crop};
ghost use Rattle.hf_text.specs.Commands.{AreRead, EditNamesWords, IsEditRead, IsPushed, edit_of, form_of, named_read};

use crate::places::{read_kind, read_name, read_number};
use crate::words::WordsFault;
use hf_base::limits::EDITS;
use hf_base::{FourCc, NoMemory};
use std::alloc::Global;

/// A change of a file's items. A file is named by the place of its word, from 0.
#[derive(Clone, Copy)]
pub enum EditWord {
    /// Takes an item out.
    Remove {
        id: u32,
    },
    /// Gives an item the Exif metadata in a file.
    Exif {
        id: u32,
        file: usize,
    },
    /// Gives an item the XMP metadata in a file.
    Xmp {
        id: u32,
        file: usize,
    },
    /// Gives an item the primary picture of a file as its thumbnail.
    Thumb {
        id: u32,
        file: usize,
    },
    /// Makes an item the primary.
    Primary {
        id: u32,
    },
    /// Turns an item anticlockwise by quarters of a turn.
    Rotate {
        id: u32,
        quarters: u32,
    },
    /// Mirrors an item about an axis.
    Mirror {
        id: u32,
        axis: u32,
    },
    /// Cuts an item to a part of its picture, in pixels.
    Crop {
        id: u32,
        x: u32,
        y: u32,
        w: u32,
        h: u32,
    },
    /// Hides an item.
    Hide {
        id: u32,
    },
    /// Shows an item.
    Show {
        id: u32,
    },
    /// Takes the properties of a type from an item.
    Drop {
        id: u32,
        kind: FourCc,
    },
}

impl EditWord {
    /// How many words an edit has.
    fn words(&self) -> usize
        ensures { (words : List (List ℕ)) → result ≡ length (words_of_edit (edit_of words self.now)) }
    {
        match self {
            EditWord::Remove { .. }
            | EditWord::Primary { .. }
            | EditWord::Hide { .. }
            | EditWord::Show { .. } => 2,
            EditWord::Crop { .. } => 6,
            _ => 3,
        }
    }
}

/// The name of an edit, which stands first of its words.
#[derive(Clone, Copy)]
enum EditName {
    Remove,
    Exif,
    Xmp,
    Thumb,
    Primary,
    Rotate,
    Mirror,
    Crop,
    Hide,
    Show,
    Drop,
}

/// The name that a word is.
fn name_of(word: &str) -> Option<EditName>
    ensures { (at : ℕ) (words : List (List ℕ)) → form_read edit_forms at word.now words ≡ named_read result at words }
{
    match word {
        "remove" => Some(EditName::Remove),
        "exif" => Some(EditName::Exif),
        "xmp" => Some(EditName::Xmp),
        "thumb" => Some(EditName::Thumb),
        "primary" => Some(EditName::Primary),
        "rotate" => Some(EditName::Rotate),
        "mirror" => Some(EditName::Mirror),
        "crop" => Some(EditName::Crop),
        "hide" => Some(EditName::Hide),
        "show" => Some(EditName::Show),
        "drop" => Some(EditName::Drop),
        _ => None,
    }
}

/// The cut of an item whose first word stands at this place, or the place of the first word that no
/// cut has there.
fn read_crop(id: u32, words: &[String], at: usize) -> Result<EditWord, usize>
    requires within { at < length words.now }
    requires id { number_in at (drop at (map string_bytes words.now)) 1 ≡ Ok id }
    ensures read { IsEditRead (map string_bytes words.now) ((form_of crop).read at (drop at (map string_bytes words.now))) result }
    ensures names { IfOk result (λ edit. EditNamesWords (map string_bytes words.now) edit) }
{
    let x = read_number(words, at, 2)?;
    let y = read_number(words, at, 3)?;
    let w = read_number(words, at, 4)?;
    let h = read_number(words, at, 5)?;
    Ok(EditWord::Crop { id, x, y, w, h })
}

/// The edit with this name, which stands at this place, or the place of the first word that no edit
/// of this name has there.
fn read_named(name: EditName, words: &[String], at: usize) -> Result<EditWord, usize>
    requires { at < length words.now }
    ensures read { IsEditRead (map string_bytes words.now) ((form_of name).read at (drop at (map string_bytes words.now))) result }
    ensures names { IfOk result (λ edit. EditNamesWords (map string_bytes words.now) edit) }
{
    let id = read_number(words, at, 1)?;
    match name {
        EditName::Remove => Ok(EditWord::Remove { id }),
        EditName::Exif => Ok(EditWord::Exif {
            id,
            file: read_name(words, at, 2)?,
        }),
        EditName::Xmp => Ok(EditWord::Xmp {
            id,
            file: read_name(words, at, 2)?,
        }),
        EditName::Thumb => Ok(EditWord::Thumb {
            id,
            file: read_name(words, at, 2)?,
        }),
        EditName::Primary => Ok(EditWord::Primary { id }),
        EditName::Rotate => Ok(EditWord::Rotate {
            id,
            quarters: read_number(words, at, 2)?,
        }),
        EditName::Mirror => Ok(EditWord::Mirror {
            id,
            axis: read_number(words, at, 2)?,
        }),
        EditName::Crop => read_crop(id, words, at),
        EditName::Hide => Ok(EditWord::Hide { id }),
        EditName::Show => Ok(EditWord::Show { id }),
        EditName::Drop => Ok(EditWord::Drop {
            id,
            kind: read_kind(words, at, 2)?,
        }),
    }
}

/// The edit that begins at this place, or the place of the first word that no edit has there.
fn read_edit(words: &[String], at: usize) -> Result<EditWord, usize>
    requires { at < length words.now }
    ensures read { IsEditRead (map string_bytes words.now) (edit_read at (drop at (map string_bytes words.now))) result }
    ensures names { IfOk result (λ edit. EditNamesWords (map string_bytes words.now) edit) }
{
    match name_of(words[at].as_str()) {
        Some(name) => read_named(name, words, at),
        None => Err(at),
    }
}

/// One more edit, unless memory was refused before.
fn with_edit(
    edits: Result<Vec<EditWord>, NoMemory>,
    edit: EditWord,
) -> Result<Vec<EditWord>, NoMemory>
    ensures { IsPushed edits edit result }
{
    let mut edits = edits?;
    edits.push(edit)?;
    Ok(edits)
}

/// The edits behind the three words `edit IN OUT`. A refusal of memory is answered only once all
/// words are read, so that words that are no command are told in every case.
pub fn read_edits(alloc: Global, words: &[String]) -> Result<Vec<EditWord>, WordsFault>
    requires { 3 ≤ length words.now }
    ensures read { AreRead (map string_bytes words.now) (edits_read MOST 3 (drop 3 (map string_bytes words.now))) result }
    ensures names { IfOk result (λ edits. All (EditNamesWords (map string_bytes words.now)) edits.items) }
{
    let mut edits = Ok(Vec::new(alloc));
    let mut at = 3;
    let mut count = 0;
    while at < words.len() {
        if count == EDITS {
            return Err(WordsFault::Usage { at });
        }
        let edit = match read_edit(words, at) {
            Ok(edit) => edit,
            Err(at) => return Err(WordsFault::Usage { at }),
        };
        at += edit.words();
        count += 1;
        edits = with_edit(edits, edit);
    }
    Ok(edits?)
}
