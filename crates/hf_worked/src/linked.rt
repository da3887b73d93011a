//! Worked references and associations, also such as no canonical file has. Each is the contract of a function that does nothing.

ghost use Rattle.std.specs.Prelude.{◌≡◌, true, false, List, [], ◌∷◌};
ghost use Rattle.hf_box.specs.Literals.{hex_of};
ghost use Rattle.hf_store.specs.Picks.{Selects};
ghost use Rattle.hf_store.specs.References.{is_id, KeepsRefs};
ghost use Rattle.hf_store.specs.Store.{Held};
ghost use Rattle.hf_worked.specs.WorkedChanges.{second_in_all};
ghost use Rattle.hf_worked.specs.WorkedLinks.{pick, scattered_boxes, three_boxes};
ghost use Rattle.hf_worked.specs.WorkedStores.{essential, optional, photograph, references};

/// A store keeps of the boxes of an item one list a type, by rising type, with the ids of items in
/// the order of the file, and nothing of type `iloc`.
pub fn references_are_kept()
    ensures third { KeepsRefs (is_id second_in_all.items) scattered_boxes 3 (references "cdsc" (2 ∷ 1 ∷ 4 ∷ 2 ∷ []) ∷ references "thmb" (1 ∷ []) ∷ []) }
    ensures fourth { KeepsRefs (is_id second_in_all.items) scattered_boxes 4 (references "cdsc" (3 ∷ []) ∷ []) }
    ensures second { KeepsRefs (is_id second_in_all.items) scattered_boxes 2 [] }
    ensures first_id { is_id photograph.items 1 ≡ true }
    ensures last_id { is_id photograph.items 52 ≡ true }
    ensures no_id { is_id photograph.items 53 ≡ false }
{}

/// An association selects the box of its number, counted from 1, with its own mark, number 0
/// selects nothing, and a number past the boxes has no answer.
pub fn associations_select()
    ensures some { Selects three_boxes (pick true 2 ∷ pick false 0 ∷ pick false 1 ∷ pick true 3 ∷ pick true 0 ∷ []) (essential "imir" (hex_of "00") ∷ optional "irot" (hex_of "01") ∷ essential "irot" (hex_of "01") ∷ []) }
    ensures none { Selects three_boxes [] [] }
    ensures past { (held : List Held) → Selects three_boxes (pick false 4 ∷ []) held → ⊥ }
{}
