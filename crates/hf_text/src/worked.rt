//! Worked listings, lines and answers. Each is the contract of a function that does nothing.

ghost use Rattle.std.specs.Prelude.{◌≡◌, ◌∷◌, [], true, false, codes};
ghost use Rattle.hf_store.specs.declared.reason.Reason.TheVariants.{Needed, MetaFull};
ghost use Rattle.hf_text.specs.Answers.{check_text, trial_text};
ghost use Rattle.hf_text.specs.Lines.{line_text, status_of};
ghost use Rattle.hf_text.specs.Listing.{brand_fields, listing_text, string_text};
ghost use Rattle.hf_text.specs.declared.outcome.Outcome.TheVariants.{NoSuchItem, Refused};
ghost use Rattle.hf_text.specs.WorkedListings.{linked, linked_lines, picture_and_text, picture_and_text_lines};

/// A string that is empty, and the string that would print as it.
pub fn strings_are_told_apart()
    ensures empty { string_text [] ≡ codes "-" }
    ensures hyphen { string_text (codes "-") ≡ codes "\\x2d" }
    ensures hyphens { string_text (codes "--") ≡ codes "--" }
    ensures after { string_text (codes "a-") ≡ codes "a-" }
{}

/// The bytes that print as themselves, from the first to the last and with those beside them.
pub fn bytes_print_as_themselves_where_they_can_be_seen()
    ensures first { string_text (32 ∷ 33 ∷ []) ≡ codes "\\x20!" }
    ensures last { string_text (126 ∷ 127 ∷ []) ≡ codes "~\\x7f" }
    ensures backslash { string_text (91 ∷ 92 ∷ 93 ∷ []) ≡ codes "[\\x5c]" }
    ensures digits { string_text (9 ∷ 10 ∷ 0 ∷ 255 ∷ []) ≡ codes "\\x09\\x0a\\x00\\xff" }
{}

/// Brands of four bytes each.
pub fn brands_are_told_by_fours()
    ensures none { brand_fields [] ≡ [] }
    ensures two { brand_fields (codes "mif1avif") ≡ codes " mif1 avif" }
    ensures space { brand_fields (codes "av 1") ≡ codes " av\\x201" }
{}

/// Whole listings: properties before references, groups behind all items.
pub fn stores_are_listed()
    ensures text { listing_text picture_and_text ≡ picture_and_text_lines }
    ensures links { listing_text linked ≡ linked_lines }
{}

/// Lines of an item that is not there, and of edits that are refused.
pub fn outcomes_are_told()
    ensures item { line_text (NoSuchItem 7) ≡ codes "heif: no item 7\n" }
    ensures needed { line_text (Refused 2 (Needed 49)) ≡ codes "heif: edit 2: Needed 49\n" }
    ensures full { line_text (Refused 256 MetaFull) ≡ codes "heif: edit 256: MetaFull\n" }
    ensures status { status_of (NoSuchItem 7) ≡ 5 }
{}

/// What `check` and `trial` say.
pub fn answers_are_told()
    ensures yes { check_text true ≡ codes "canonical\n" }
    ensures no { check_text false ≡ codes "not canonical\n" }
    ensures trial { trial_text (record { seed = 2; n = 1; items = 18; bytes = 1217; kept_items = 17; kept_bytes = 1142 })
        ≡ codes "trial 2 1: 18 items, 1217 bytes; redacted 17 items, 1142 bytes\n" }
{}
