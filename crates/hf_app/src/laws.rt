//! Laws of the definitions. Each is the contract of a function that does nothing.

ghost use Rattle.std.specs.Prelude.{◌≡◌, ◌⊎◌, ℕ, Bool, true, false, List, Option as Stated, None, Some, Result, map};
ghost use Rattle.hf_base.specs.Number.{IsBytes};
ghost use Rattle.hf_desk.specs.Outside.{Outside, Files, file_of};
ghost use Rattle.hf_desk.specs.Calls.{IfTold, Said};
ghost use Rattle.hf_desk.specs.Making.{IsMade, IsUnmade};
ghost use Rattle.hf_deps.specs.Redacted.{redacted};
ghost use Rattle.hf_edit.specs.Edits.{Edit, step, why};
ghost use Rattle.hf_plan.specs.Canon.{Canon};
ghost use Rattle.hf_read.specs.Denotes.{Denotes};
ghost use Rattle.hf_store.specs.Lists.{IsIn};
ghost use Rattle.hf_store.specs.Store.{Item, ItemStore};
ghost use Rattle.hf_app.specs.Answers.{Ends};
ghost use Rattle.hf_app.specs.Due.{Due, IsDefined, IsDue};
ghost use Rattle.hf_app.specs.Edits.{IsEdited};
ghost use Rattle.hf_app.specs.Opening.{IsOpened};
ghost use Rattle.hf_app.specs.Redactions.{IsForgotten, IsRedacted};
ghost use Rattle.hf_app.specs.Sources.{Sourced, Whole, read_of, sourced, sources_of};
ghost use Rattle.hf_app.specs.Trials.{AreTrialFiles, numbers_of};
ghost use Rattle.hf_text.specs.Answers.{check_text, trial_text};
ghost use Rattle.hf_text.specs.Listing.{listing_text};
ghost use Rattle.hf_text.specs.declared.outcome.Outcome.TheVariants.{Done};
ghost use Rattle.hf_text.specs.Words.{Command, CheckFile, Extract, ListFile, EditFile, EditWord, Redact, Trial, command_read};

/// Whatever is due of words and files, nothing else is.
pub fn one_thing_is_due()
    ensures { (read : Result Command ℕ) (files : Stated Files) (some other : Due) → IsDue read files some → IsDue read files other → some ≡ other }
{}

/// Something is due wherever the words are no command, or no file that the command reads is missing
/// before one is too long, whatever bytes the files have.
pub fn something_is_due()
    ensures { (words : List (List ℕ)) (files : Stated Files)
        → ((told : Files) (name file : List ℕ) → files ≡ Some told → file_of told name ≡ Some file → IsBytes file)
        → IsDefined (command_read words) files → (d : Due) × IsDue (command_read words) files d }
{}

/// Where `list` ends `Done` and the files are told, the input is there and denotes a store, and what
/// was said is the listing of that store.
pub fn list_says_the_listing()
    ensures { (input : List ℕ) (old new : Outside) → Ends (ListFile input) Done old new
        → IfTold old input (λ file. (s : ItemStore) × IsOpened file s × IsUnmade old new × Said old (listing_text s) new) }
{}

/// Where `check` ends `Done` and the files are told, the input is there and denotes a store, and what
/// was said is `canonical` exactly where the input is the canonical file of that store.
pub fn check_tells_canonical_files()
    ensures { (input : List ℕ) (old new : Outside) → Ends (CheckFile input) Done old new
        → IfTold old input (λ file. (s : ItemStore) × IsOpened file s × IsUnmade old new
        × ((Canon s file × Said old (check_text true) new) ⊎ ((Canon s file → ⊥) × Said old (check_text false) new))) }
{}

/// Where `extract` ends `Done` and the files are told, the input is there and denotes a store, and the
/// file made has the bytes of the item of that store with the id.
pub fn extract_makes_the_bytes()
    ensures { (input : List ℕ) (id : ℕ) (out : List ℕ) (old new : Outside) → Ends (Extract input id out) Done old new
        → IfTold old input (λ file. (s : ItemStore) × IsOpened file s × ((i : Item) × IsIn i s.items × (i.id ≡ id) × IsMade old out i.bytes new)) }
{}

/// Two runs whose stores after their edits are equal make equal bytes.
pub fn equal_stores_make_equal_bytes()
    ensures { (some other : List ℕ) (edits others : List Sourced) (bytes more : List ℕ) (a : IsEdited some edits bytes) (b : IsEdited other others more) → a.after ≡ b.after → bytes ≡ more }
{}

/// Where `edit` ends `Done` and the files are told, all files that it reads are there, the input
/// denotes a store, and the file made is the one canonical file of that store after all edits in
/// order, and denotes it.
pub fn edit_makes_the_one_canonical_file()
    ensures { (input out : List ℕ) (edits : List EditWord) (old new : Outside) → Ends (EditFile input out edits) Done old new
        → IfTold old input (λ file. (bytes : List ℕ) × (read_of old.files (sources_of (EditFile input out edits)) ≡ Whole)
        × IsEdited file (map (sourced old.files) edits) bytes × IsMade old out bytes new) }
{}

/// Where `redact` ends `Done` and the files are told, the input is there and denotes a store, and the
/// file made is the one canonical file of that store redacted, and denotes it.
pub fn redact_makes_the_one_canonical_file()
    ensures { (input out : List ℕ) (bare : Bool) (old new : Outside) → Ends (Redact input out bare) Done old new
        → IfTold old input (λ file. (bytes : List ℕ) × IsRedacted file bare bytes × IsMade old out bytes new) }
{}

/// Where `trial` ends `Done`, the file made is the one canonical file of the trial, and denotes it, and
/// what was said are its numbers and those of what a redaction leaves of it.
pub fn trial_makes_the_trial()
    ensures { (seed n : ℕ) (out : List ℕ) (old new : Outside) → Ends (Trial seed n out) Done old new
        → (file : List ℕ) × (kept : List ℕ) × AreTrialFiles seed n file kept × IsMade old out file new
        × Said old (trial_text (numbers_of seed n file kept)) new }
{}

/// Of a redacted file nothing tells of an edit that the redaction forgets: two inputs, of which one
/// denotes a store and the other one that store after the edit, are redacted to equal bytes.
pub fn redactions_forget_edits()
    ensures { (s : ItemStore) (e : Edit) (bare : Bool) (some other bytes more : List ℕ)
        → why s e ≡ None → IsForgotten s bare e → Denotes some s → Denotes other (step s e)
        → IsRedacted some bare bytes → IsRedacted other bare more → bytes ≡ more }
{}

/// And equal redacted stores are made to equal bytes.
pub fn equal_redacted_stores_make_equal_bytes()
    ensures { (some other : List ℕ) (bare : Bool) (bytes more : List ℕ) (a : IsRedacted some bare bytes) (b : IsRedacted other bare more)
        → redacted bare a.store ≡ redacted bare b.store → bytes ≡ more }
{}
