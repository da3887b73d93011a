//! Worked needs and redactions. Each is the contract of a function that does nothing.

ghost use Rattle.std.specs.Prelude.{◌≡◌, None, Some, false, true, [], ◌∷◌};
ghost use Rattle.std.specs.List.{range_with_len};
ghost use Rattle.hf_worked.specs.WorkedChanges.{needed_by_three, third_refers, third_to_second};
ghost use Rattle.hf_worked.specs.WorkedStores.{photograph, photograph_bare, photograph_redacted, references};
ghost use Rattle.hf_deps.specs.Kept.{kept_ids};
ghost use Rattle.hf_deps.specs.Needs.{Needs, needed_by};
ghost use Rattle.hf_deps.specs.Redacted.{redacted};
ghost use Rattle.hf_deps.specs.WorkedRedactions.{bare_chain, described_chain, redacted_chain};

/// A reference of type `dimg`, `tbas` or `prem` needs its item, and no other: it counts in
/// whichever list and at whichever place it stands, but not where an item leads to itself.
pub fn some_references_need_their_item()
    ensures dimg { needed_by 2 (third_to_second "dimg").items ≡ Some 3 }
    ensures tbas { needed_by 2 (third_to_second "tbas").items ≡ Some 3 }
    ensures prem { needed_by 2 (third_to_second "prem").items ≡ Some 3 }
    ensures thmb { needed_by 2 (third_to_second "thmb").items ≡ None }
    ensures cdsc { needed_by 2 (third_to_second "cdsc").items ≡ None }
    ensures auxl { needed_by 2 (third_to_second "auxl").items ≡ None }
    ensures later_list { needed_by 2 (third_refers (references "auxl" (1 ∷ []) ∷ references "dimg" (1 ∷ []) ∷ references "prem" (1 ∷ 1 ∷ 2 ∷ []) ∷ [])).items ≡ Some 3 }
    ensures another_id { needed_by 2 (third_refers (references "dimg" (1 ∷ []) ∷ [])).items ≡ None }
    ensures itself { needed_by 3 (third_refers (references "prem" (3 ∷ []) ∷ [])).items ≡ None }
    ensures the_other_way { needed_by 3 (third_to_second "tbas").items ≡ None }
    ensures least { needed_by 2 needed_by_three.items ≡ Some 4 }
    ensures third_needs_second { Needs (third_to_second "tbas") 3 2 }
    ensures second_needs_no_third { Needs (third_to_second "tbas") 2 3 → ⊥ }
{}

/// Chains are followed from item to item: along what an item needs, and from a picture to its thumbnails
/// and auxiliary pictures. What metadata refers to is not kept, nor is what needs a kept item.
pub fn chains_are_kept()
    ensures all { kept_ids false described_chain ≡ 1 ∷ 2 ∷ 3 ∷ 4 ∷ 5 ∷ [] }
    ensures bare { kept_ids true described_chain ≡ 1 ∷ 3 ∷ 5 ∷ [] }
    ensures photograph { kept_ids false photograph ≡ range_with_len 1 50 }
    ensures bare_photograph { kept_ids true photograph ≡ range_with_len 1 49 }
{}

/// The other items go as by removals, and with them names and descriptions that are not essential.
pub fn chains_are_redacted()
    ensures all { redacted false described_chain ≡ redacted_chain }
    ensures bare { redacted true described_chain ≡ bare_chain }
    ensures photograph { redacted false photograph ≡ photograph_redacted }
    ensures bare_photograph { redacted true photograph ≡ photograph_bare }
{}
