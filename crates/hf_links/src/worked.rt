//! Worked boxes, and what reading them gives. Each is the contract of a function that does nothing.

ghost use Rattle.std.specs.Prelude.{◌≡◌, ◌∷◌, [], Ok, Err, true, false};
ghost use Rattle.hf_base.specs.declared.fault.ReadRefusal.TheVariants.{BadRecord, BadVersion, DoubleGroup, Short, TooLarge};
ghost use Rattle.hf_base.specs.declared.kinds.TheConstants.{GRPL, IREF};
ghost use Rattle.hf_links.specs.Grpl.{grpl_at, grpl_body};
ghost use Rattle.hf_links.specs.Iref.{iref_at, iref_body, ref_box_at};
ghost use Rattle.hf_links.specs.Kinds.{is_minor, is_need};
ghost use Rattle.hf_box.specs.Literals.{four};
ghost use Rattle.hf_links.specs.Worked.{two_lists, narrow_lists, wide_lists, free_bytes, no_lists, three_bytes, version_2, cut_box, short_count, short_ids, one_link, cut_link, references, two_groups, groups_box, no_groups, cut_groups, short_fields, short_entities, one_id_twice, many_entities, fewer_entities};

/// References with ids of two bytes and of four, in file order, and as they are written.
pub fn references_are_read()
    ensures narrow { iref_at narrow_lists ≡ Ok two_lists }
    ensures wide { iref_at wide_lists ≡ Ok two_lists }
    ensures free { iref_at free_bytes ≡ Ok (references "thmb" 2 (1 ∷ []) ∷ []) }
    ensures none { iref_at no_lists ≡ Ok [] }
    ensures written { narrow_lists.body ≡ iref_body false two_lists }
    ensures written_wide { wide_lists.body ≡ iref_body true two_lists }
{}

/// The faults of an `iref`: those of its own fields have its place, the others that of an inner box.
pub fn references_are_refused()
    ensures head { iref_at three_bytes ≡ Err (BadRecord IREF 36) }
    ensures version { iref_at version_2 ≡ Err (BadVersion IREF 36) }
    ensures framing { iref_at cut_box ≡ Err (Short 57) }
    ensures count { iref_at short_count ≡ Err (BadRecord IREF 62) }
    ensures ids { iref_at short_ids ≡ Err (BadRecord IREF 62) }
{}

/// An inner box and its ids are within the limit of rows, or it is told before the ids are read.
pub fn references_are_counted()
    ensures last { ref_box_at 2 4194302 one_link ≡ Ok (references "thmb" 2 (1 ∷ [])) }
    ensures one_more { ref_box_at 2 4194303 one_link ≡ Err (TooLarge IREF 48) }
    ensures ids { ref_box_at 2 4194302 cut_link ≡ Err (BadRecord IREF 48) }
    ensures first { ref_box_at 2 4194303 cut_link ≡ Err (TooLarge IREF 48) }
{}

/// Groups with their versions, flags and tails, in file order, and as they are written.
pub fn groups_are_read()
    ensures two { grpl_at groups_box ≡ Ok two_groups }
    ensures none { grpl_at no_groups ≡ Ok [] }
    ensures written { groups_box.body ≡ grpl_body two_groups }
{}

/// The faults of a `grpl`, which have the place of an inner box.
pub fn groups_are_refused()
    ensures framing { grpl_at cut_groups ≡ Err (Short 53) }
    ensures fields { grpl_at short_fields ≡ Err (BadRecord GRPL 64) }
    ensures entities { grpl_at short_entities ≡ Err (BadRecord GRPL 64) }
    ensures twice { grpl_at one_id_twice ≡ Err (DoubleGroup 9) }
    ensures rows { grpl_at many_entities ≡ Err (TooLarge GRPL 44) }
    ensures fewer { grpl_at fewer_entities ≡ Err (BadRecord GRPL 44) }
{}

/// A picture needs what it has `dimg`, `tbas` and `prem` references to, and is a minor one by those of
/// type `thmb` and `auxl`; metadata has references of type `cdsc`.
pub fn kinds_of_references()
    ensures parts { is_need (four "dimg") ≡ true }
    ensures prediction { is_need (four "tbas") ≡ true }
    ensures colours { is_need (four "prem") ≡ true }
    ensures thumbnail_needs { is_need (four "thmb") ≡ false }
    ensures description_needs { is_need (four "cdsc") ≡ false }
    ensures thumbnail { is_minor (four "thmb") ≡ true }
    ensures auxiliary { is_minor (four "auxl") ≡ true }
    ensures parts_minor { is_minor (four "dimg") ≡ false }
    ensures description_minor { is_minor (four "cdsc") ≡ false }
{}
