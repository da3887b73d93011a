//! Laws of trials. Each is the contract of a function that does nothing.

ghost use Rattle.std.specs.Prelude.{◌≡◌, ◌+◌, ◌*◌, ◌≤◌, ℕ, length};
ghost use Rattle.hf_store.specs.Valid.{Valid};
ghost use Rattle.hf_trial.specs.Bytes.{trial_bytes};
ghost use Rattle.hf_trial.specs.Trial.{trial_store_of};

/// Each trial is a valid store.
pub fn trial_stores_are_valid()
    ensures { (seed n : ℕ) → 1 ≤ n → n ≤ 256 → Valid (trial_store_of seed n) }
{}

/// A trial has 16 items for each row and two more, and less than 270,000,000 bytes.
pub fn trials_are_counted()
    ensures items { (seed n : ℕ) → length (trial_store_of seed n).items ≡ 16 * n + 2 }
    ensures bytes { (seed n : ℕ) → n ≤ 256 → length (trial_bytes seed n) ≤ 268374072 }
{}
