//! Worked numbers and fields. Each is the contract of a function that does nothing.

ghost use Rattle.std.specs.Prelude.{◌≡◌, ◌∷◌, [], Ok, Err};
ghost use Rattle.hf_base.specs.Number.{num, number, number_at};
ghost use Rattle.hf_base.specs.Reading.{four_at, front, front_bytes, front_four, front_full, full, times};
ghost use Rattle.hf_base.specs.declared.fault.ReadRefusal.{ReadRefusal};

/// Numbers of one, two, four and eight bytes as they are written, the highest byte first.
pub fn numbers_are_written()
    ensures one { num 171 1 ≡ 171 ∷ [] }
    ensures two { num 258 2 ≡ 1 ∷ 2 ∷ [] }
    ensures three { num 66051 3 ≡ 1 ∷ 2 ∷ 3 ∷ [] }
    ensures four { num 16909060 4 ≡ 1 ∷ 2 ∷ 3 ∷ 4 ∷ [] }
    ensures eight { num 72623859790382856 8 ≡ 1 ∷ 2 ∷ 3 ∷ 4 ∷ 5 ∷ 6 ∷ 7 ∷ 8 ∷ [] }
    ensures greatest { num 4294967295 4 ≡ 255 ∷ 255 ∷ 255 ∷ 255 ∷ [] }
    ensures version { full 1 131844 ≡ 1 ∷ 2 ∷ 3 ∷ 4 ∷ [] }
{}

/// The same as they are read: those bytes alone count, and those from the place on.
pub fn numbers_are_read()
    ensures one { number 1 (171 ∷ 9 ∷ []) ≡ 171 }
    ensures two { number 2 (1 ∷ 2 ∷ 9 ∷ []) ≡ 258 }
    ensures four { number 4 (1 ∷ 2 ∷ 3 ∷ 4 ∷ 9 ∷ []) ≡ 16909060 }
    ensures eight { number 8 (1 ∷ 2 ∷ 3 ∷ 4 ∷ 5 ∷ 6 ∷ 7 ∷ 8 ∷ 9 ∷ []) ≡ 72623859790382856 }
    ensures at { number_at 2 1 (9 ∷ 1 ∷ 2 ∷ 9 ∷ []) ≡ 258 }
    ensures kind { four_at 1 (9 ∷ 1 ∷ 2 ∷ 3 ∷ 4 ∷ 9 ∷ []) ≡ record { 0 = 1 ∷ 2 ∷ 3 ∷ 4 ∷ [] } }
{}

/// A field is its value and the bytes behind it. Where it is not whole the refusal is told.
pub fn fields_are_read()
    ensures whole { (short : ReadRefusal) → front 2 short (1 ∷ 2 ∷ 9 ∷ []) ≡ Ok (258, 9 ∷ []) }
    ensures last { (short : ReadRefusal) → front 2 short (1 ∷ 2 ∷ []) ≡ Ok (258, []) }
    ensures cut { (short : ReadRefusal) → front 2 short (1 ∷ []) ≡ Err short }
    ensures bytes { (short : ReadRefusal) → front_bytes 2 short (1 ∷ 2 ∷ 9 ∷ []) ≡ Ok (1 ∷ 2 ∷ [], 9 ∷ []) }
    ensures bytes_last { (short : ReadRefusal) → front_bytes 2 short (1 ∷ 2 ∷ []) ≡ Ok (1 ∷ 2 ∷ [], []) }
    ensures bytes_cut { (short : ReadRefusal) → front_bytes 2 short (1 ∷ []) ≡ Err short }
    ensures kind { (short : ReadRefusal) → front_four short (1 ∷ 2 ∷ 3 ∷ 4 ∷ 9 ∷ []) ≡ Ok (record { 0 = 1 ∷ 2 ∷ 3 ∷ 4 ∷ [] }, 9 ∷ []) }
    ensures kind_last { (short : ReadRefusal) → front_four short (1 ∷ 2 ∷ 3 ∷ 4 ∷ []) ≡ Ok (record { 0 = 1 ∷ 2 ∷ 3 ∷ 4 ∷ [] }, []) }
    ensures kind_cut { (short : ReadRefusal) → front_four short (1 ∷ 2 ∷ 3 ∷ []) ≡ Err short }
    ensures version { (short : ReadRefusal) → front_full short (1 ∷ 2 ∷ 3 ∷ 4 ∷ 9 ∷ []) ≡ Ok ((1, 131844), 9 ∷ []) }
    ensures version_cut { (short : ReadRefusal) → front_full short (1 ∷ 2 ∷ 3 ∷ []) ≡ Err short }
{}

/// So many fields one behind the other.
pub fn tables_are_read()
    ensures none { (short : ReadRefusal) → times (front 2 short) 0 (9 ∷ []) ≡ Ok ([], 9 ∷ []) }
    ensures two { (short : ReadRefusal) → times (front 2 short) 2 (1 ∷ 2 ∷ 3 ∷ 4 ∷ 9 ∷ []) ≡ Ok (258 ∷ 772 ∷ [], 9 ∷ []) }
    ensures cut { (short : ReadRefusal) → times (front 2 short) 2 (1 ∷ 2 ∷ 3 ∷ []) ≡ Err short }
{}
