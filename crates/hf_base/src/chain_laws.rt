//! Laws of chains in which each item takes its bytes twice from the one before it. Each is the contract
//! of a function that does nothing.

ghost use Rattle.std.specs.Prelude.{◌≡◌, ◌+◌, ◌-◌, ◌^◌, ◌<◌, ◌≤◌, ℕ, suc, Bool, true, false, List, Option, Ok, Err, Some, None, if◌then◌else◌, length, map, min, nat_lt, sum, []};
ghost use Rattle.hf_base.specs.Counts.{leaves_of};
ghost use Rattle.hf_base.specs.Doubling.{doubled, doubled_item, doubled_entries, doubled_links, first_ids};
ghost use Rattle.hf_base.specs.Located.{located_items};
ghost use Rattle.hf_base.specs.LocationFaults.{locations_fault};
ghost use Rattle.hf_base.specs.declared.fault.ReadRefusal.TheVariants.{OutOfIdat, TooScattered};
ghost use Rattle.hf_base.specs.declared.limits.TheConstants.{PIECES};

/// The chain is that of ids, entries and references as a file has them.
pub fn a_file_may_have_the_chain()
    ensures { (inner : Bool) (long : ℕ → ℕ) (n : ℕ) → located_items (first_ids (suc n)) (doubled_entries inner long (suc n)) (doubled_links n) ≡ doubled inner long (suc n) }
{}

/// The leaves double with each item, so n items have 2^n - 1 of them.
pub fn leaves_double()
    ensures item { (inner : Bool) (long : ℕ → ℕ) (n k : ℕ) → k < n → leaves_of (doubled inner long n) (doubled_item inner long k) ≡ 2 ^ k }
    ensures all { (inner : Bool) (long : ℕ → ℕ) (n : ℕ) → sum (map (leaves_of (doubled inner long n)) (doubled inner long n)) + 1 ≡ 2 ^ n }
{}

/// A chain with more than `PIECES` leaves is refused, whatever its extents state, and its leaves are
/// told, or 2^64 - 1.
pub fn long_chains_are_too_scattered()
    ensures in_file { (F : List ℕ) (idat : Option (List ℕ)) (long : ℕ → ℕ) (n : ℕ) → 1 ≤ length F → ((k : ℕ) → 0 < long k) → PIECES < 2 ^ n - 1 →
        locations_fault F idat (doubled false long n) ≡ Err (TooScattered (min (2 ^ n - 1) (2 ^ 64 - 1))) }
    ensures in_idat { (F inner : List ℕ) (long : ℕ → ℕ) (n : ℕ) → 1 ≤ length inner → ((k : ℕ) → 0 < long k) → PIECES < 2 ^ n - 1 →
        locations_fault F (Some inner) (doubled true long n) ≡ Err (TooScattered (min (2 ^ n - 1) (2 ^ 64 - 1))) }
    ensures out_of_idat { (F : List ℕ) (long : ℕ → ℕ) (n : ℕ) → ((k : ℕ) → 0 < long k) → locations_fault F (Some []) (doubled true long (suc n)) ≡ Err (OutOfIdat 1) }
{}

/// A chain with at most `PIECES` leaves, each extent of which is as long as the item before it, is
/// taken.
pub fn short_chains_are_taken()
    ensures { (F : List ℕ) (idat : Option (List ℕ)) (n : ℕ) → 1 ≤ length F → 2 ^ n - 1 ≤ PIECES → locations_fault F idat (doubled false (λ k. 2 ^ k) n) ≡ Ok tt }
{}

/// Chains of 20, 21, 25 and 70 items. In the last one the extents of the items above 40 are of one byte.
pub fn numbers_of_chains()
    ensures twenty { (F : List ℕ) → 1 ≤ length F → locations_fault F None (doubled false (λ k. 2 ^ k) 20) ≡ Ok tt }
    ensures twenty_one { (F : List ℕ) → 1 ≤ length F → locations_fault F None (doubled false (λ k. 2 ^ k) 21) ≡ Err (TooScattered 2097151) }
    ensures twenty_five { (F : List ℕ) → 1 ≤ length F → locations_fault F None (doubled false (λ k. 2 ^ k) 25) ≡ Err (TooScattered 33554431) }
    ensures seventy { (F : List ℕ) → 1 ≤ length F → locations_fault F None (doubled false (λ k. if nat_lt k 39 then 2 ^ k else 1) 70) ≡ Err (TooScattered 18446744073709551615) }
    // leaves are counted before an extent is found to pass the end of its source
    ensures past_its_source { (F : List ℕ) → 1 ≤ length F → locations_fault F None (doubled false (λ k. 18446744073709551615) 21) ≡ Err (TooScattered 2097151) }
    // and after one is found to pass the end of `idat`
    ensures past_idat { (F : List ℕ) → locations_fault F (Some []) (doubled true (λ k. 2 ^ k) 21) ≡ Err (OutOfIdat 1) }
{}
