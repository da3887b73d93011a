//! Worked words. Each theorem is the contract of a function that does nothing.

ghost use Rattle.std.specs.Prelude.{◌≡◌, ◌∷◌, ◌++◌, [], Ok, Err, true, false, codes};
ghost use Rattle.hf_box.specs.Literals.{hex_of};
ghost use Rattle.hf_text.specs.Words.{Boxes, ListFile, CheckFile, Extract, EditFile, Redact, Trial, command_read, edits_read};
ghost use Rattle.hf_text.specs.WorkedWords.{each_edit, each_edit_words, many_edits, spaced};

/// Words that are no command, and the place of the first that no command has there.
pub fn usage_is_told()
    ensures none { command_read [] ≡ Err 0 }
    ensures name { command_read (spaced (codes "show a")) ≡ Err 0 }
    ensures boxes { command_read (spaced (codes "boxes")) ≡ Err 1 }
    ensures list { command_read (spaced (codes "list a b")) ≡ Err 2 }
    ensures check { command_read (spaced (codes "check a b")) ≡ Err 2 }
    ensures out { command_read (spaced (codes "redact a")) ≡ Err 2 }
    ensures extract { command_read (spaced (codes "extract A x b")) ≡ Err 2 }
    ensures longer { command_read (spaced (codes "extract A 1 b c")) ≡ Err 4 }
    ensures redact { command_read (spaced (codes "redact a b c")) ≡ Err 3 }
    ensures bare { command_read (spaced (codes "redact a b bare x")) ≡ Err 4 }
    ensures few { command_read (spaced (codes "trial 1 0 b")) ≡ Err 2 }
    ensures many { command_read (spaced (codes "trial 1 257 b")) ≡ Err 2 }
    ensures seed { command_read (spaced (codes "trial 4294967296 1 b")) ≡ Err 1 }
{}

/// Words of edits that are none.
pub fn usage_of_edits_is_told()
    ensures out { command_read (spaced (codes "edit a")) ≡ Err 2 }
    ensures name { command_read (spaced (codes "edit a b turn 1 1")) ≡ Err 3 }
    ensures missing { command_read (spaced (codes "edit a b remove")) ≡ Err 4 }
    ensures sign { command_read (spaced (codes "edit a b remove +1")) ≡ Err 4 }
    ensures wide { command_read (spaced (codes "edit a b remove 4294967296")) ≡ Err 4 }
    ensures letter { command_read (spaced (codes "edit a b primary x")) ≡ Err 4 }
    ensures second { command_read (spaced (codes "edit a b remove 1 remove 01")) ≡ Err 6 }
    ensures zero { command_read (spaced (codes "edit a b rotate 1 01")) ≡ Err 5 }
    ensures large { command_read (spaced (codes "edit a b mirror 1 4294967296")) ≡ Err 5 }
    ensures short { command_read (spaced (codes "edit a b crop 1 2 3 4")) ≡ Err 8 }
    ensures file { command_read (spaced (codes "edit a b thumb 1")) ≡ Err 5 }
    ensures text { command_read (spaced (codes "edit a b xmp 1")) ≡ Err 5 }
    ensures kind { command_read (spaced (codes "edit a b hide 1 drop 1 irots")) ≡ Err 7 }
    ensures bytes { command_read (spaced (codes "edit a b drop 1 isp" ++ hex_of "c3a9")) ≡ Err 5 }
    ensures many { command_read (many_edits 257) ≡ Err 515 }
{}

/// The words of each command, and of each edit.
pub fn commands_are_read()
    ensures boxes { command_read (spaced (codes "boxes a")) ≡ Ok (Boxes (codes "a")) }
    ensures list { command_read (spaced (codes "list ")) ≡ Ok (ListFile []) }
    ensures check { command_read (spaced (codes "check check")) ≡ Ok (CheckFile (codes "check")) }
    ensures extract { command_read (spaced (codes "extract a 7 b")) ≡ Ok (Extract (codes "a") 7 (codes "b")) }
    ensures redact { command_read (spaced (codes "redact a bare")) ≡ Ok (Redact (codes "a") (codes "bare") false) }
    ensures bare { command_read (spaced (codes "redact a b bare")) ≡ Ok (Redact (codes "a") (codes "b") true) }
    ensures trial { command_read (spaced (codes "trial 4294967295 256 b")) ≡ Ok (Trial 4294967295 256 (codes "b")) }
    ensures none { command_read (spaced (codes "edit a b")) ≡ Ok (EditFile (codes "a") (codes "b") []) }
    ensures edits { edits_read 11 0 each_edit_words ≡ Ok each_edit }
{}
