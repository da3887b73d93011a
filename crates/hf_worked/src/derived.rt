//! Worked inputs of derived items (ISO/IEC 23008-12). Each is the contract of a function that does nothing.

ghost use Rattle.std.specs.Prelude.{◌≡◌, ℕ, [], ◌∷◌, map};
ghost use Rattle.std.specs.List.{range_with_len};
ghost use Rattle.hf_store.specs.Derived.{input_pairs, inputs, IsEndless};
ghost use Rattle.hf_worked.specs.WorkedDerived.{there_and_back};
ghost use Rattle.hf_worked.specs.WorkedStores.{every_feature, photograph, references};

/// An item is made of what its first list of type `dimg` leads to, and of nothing else.
pub fn inputs_are_those_of_dimg()
    ensures no_list { inputs [] ≡ [] }
    ensures no_dimg { inputs (references "auxl" (1 ∷ []) ∷ references "thmb" (2 ∷ []) ∷ []) ≡ [] }
    ensures dimg { inputs (references "auxl" (1 ∷ []) ∷ references "dimg" (3 ∷ 2 ∷ 3 ∷ []) ∷ references "thmb" (4 ∷ []) ∷ []) ≡ 3 ∷ 2 ∷ 3 ∷ [] }
    ensures first { inputs (references "dimg" (1 ∷ []) ∷ references "dimg" (2 ∷ []) ∷ []) ≡ 1 ∷ [] }
    ensures first_empty { inputs (references "dimg" [] ∷ references "dimg" (2 ∷ []) ∷ []) ≡ [] }
    ensures pairs { input_pairs every_feature.items ≡ (3, 1) ∷ (3, 2) ∷ (9, 2) ∷ [] }
    ensures tiles { input_pairs photograph.items ≡ map (λ to. (49, to)) (range_with_len 1 48) }
{}

/// A walk that goes there and back never ends; one that only goes on does.
pub fn walks_end()
    ensures endless { IsEndless ((1, 2) ∷ (2, 1) ∷ []) there_and_back }
    ensures only_on { (walk : ℕ → ℕ) → IsEndless ((1, 2) ∷ (2, 3) ∷ []) walk → ⊥ }
    ensures other_pairs { IsEndless ((1, 2) ∷ []) there_and_back → ⊥ }
{}
