//! A file after edits: its store, and the plan of the canonical file.

ghost use Rattle.std.specs.Prelude.{◌≡◌, ◌≤◌, List, ℕ, length};
ghost use Rattle.std.specs.List.{All};
ghost use Rattle.hf_base.specs.declared.limits.TheConstants.{FILE, EDITS as MOST};
ghost use Rattle.hf_edit.specs.Seen.{edit_of as edit_seen};
ghost use Rattle.hf_text.specs.Commands.{edit_of};
ghost use Rattle.hf_app.specs.Edits.{Edits, Makes, MakesMeant, Means, Steps, with_files};

use crate::opening::opened;
use crate::stopping::Stop;
use hf_edit::{Edit, EditFault};
use hf_plan::{Plan, plan};
use hf_store::Store;
use hf_text::EditWord;
use std::alloc::Global;

/// The edit that is meant, with the bytes of the file that it reads.
fn edit_meant<'a>(
    alloc: Global,
    number: u32,
    word: &EditWord,
    file: &'a [u8],
) -> Result<Edit<'a>, Stop>
    requires { length file.now ≤ FILE }
    ensures { (words : List (List ℕ)) → Means number (edit_of words word.now) file.now result }
{
    match *word {
        EditWord::Remove { id } => Ok(Edit::Remove { id }),
        EditWord::Exif { id, .. } => Ok(Edit::AddExif { id, tiff: file }),
        EditWord::Xmp { id, .. } => Ok(Edit::AddXmp { id, text: file }),
        EditWord::Thumb { id, .. } => {
            let donor = opened(alloc, number, file)?;
            Ok(Edit::Thumb { id, donor })
        }
        EditWord::Primary { id } => Ok(Edit::Primary { id }),
        EditWord::Rotate { id, quarters } => Ok(Edit::Rotate { id, quarters }),
        EditWord::Mirror { id, axis } => Ok(Edit::Mirror { id, axis }),
        EditWord::Crop { id, x, y, w, h } => Ok(Edit::Crop { id, x, y, w, h }),
        EditWord::Hide { id } => Ok(Edit::Hide { id }),
        EditWord::Show { id } => Ok(Edit::Show { id }),
        EditWord::Drop { id, kind } => Ok(Edit::Drop { id, kind }),
    }
}

/// Makes this edit, which has this number, unless there is a reason against it.
fn apply_meant<'a>(
    alloc: Global,
    store: &mut Store<'a>,
    number: u32,
    edit: &Edit<'a>,
) -> Result<(), Stop>
    ensures { MakesMeant number store.old (edit_seen edit.now) result store.new }
{
    match hf_edit::apply(alloc, store, edit) {
        Ok(()) => Ok(()),
        Err(EditFault::Refused(why)) => Err(Stop::Refused { edit: number, why }),
        Err(EditFault::NoMemory) => Err(Stop::NoMemory),
    }
}

/// Makes the edit with this number, unless its file has a fault or there is a reason against it. A
/// fault of its file is told before any reason.
fn apply<'a>(
    alloc: Global,
    store: &mut Store<'a>,
    number: u32,
    word: &EditWord,
    file: &'a [u8],
) -> Result<(), Stop>
    requires { length file.now ≤ FILE }
    ensures { (words : List (List ℕ)) → Makes number store.old (edit_of words word.now) file.now result store.new }
{
    let edit = edit_meant(alloc, number, word, file)?;
    apply_meant(alloc, store, number, &edit)
}

/// Makes the edits in order, each with the bytes of its file, up to the first that is not made.
fn apply_all<'a>(
    alloc: Global,
    store: &mut Store<'a>,
    edits: &[EditWord],
    files: &'a [Vec<u8>],
) -> Result<(), Stop>
    requires few { length edits.now ≤ MOST }
    requires count { length files.now ≡ length edits.now }
    requires within { All (λ file. length file.items ≤ FILE) files.now }
    ensures { (words : List (List ℕ)) → Steps store.old (with_files words edits.now files.now) result store.new }
{
    let mut number = 1;
    let mut place = 0;
    for edit in edits {
        apply(alloc, store, number, edit, &files[place])?;
        number += 1;
        place += 1;
    }
    Ok(())
}

/// The store that a file denotes, after these edits in order, each with the bytes of its file, and the
/// plan of its canonical file.
pub fn edited<'a>(
    alloc: Global,
    file: &'a [u8],
    edits: &[EditWord],
    files: &'a [Vec<u8>],
) -> Result<(Store<'a>, Plan), Stop>
    requires file { length file.now ≤ FILE }
    requires few { length edits.now ≤ MOST }
    requires count { length files.now ≡ length edits.now }
    requires within { All (λ file. length file.items ≤ FILE) files.now }
    ensures { (words : List (List ℕ)) → Edits file.now (with_files words edits.now files.now) result }
{
    let mut store = opened(alloc, 0, file)?;
    apply_all(alloc, &mut store, edits, files)?;
    store.valid();
    let plan = plan(alloc, &store)?;
    Ok((store, plan))
}
