//! The bytes of a property.

ghost use Rattle.std.specs.Prelude.{◌≡◌, ◌≤◌, take};
ghost use Rattle.std.specs.Cmp.Rules.{comparing, hashing};
ghost use Rattle.std.specs.Cmp.{partial_order_from_own_ties};
ghost use Rattle.std.specs.Ordering.{nat_cmp, as_partial_cmp};
ghost use Rattle.std.specs.Cmp.Lexicographic.{slice_cmp};
ghost use Rattle.std.specs.Str.{bytes_eq};
ghost use Rattle.std.specs.Hash as fed;
ghost use Rattle.std.proofs.Common.{rules};

use std::cmp::Ordering;
use std::hash::{Hash, Hasher};
use std::marker::Model;

/// Where the bytes are.
#[derive(Drop)]
enum Kept<'a> {
    /// In a file.
    Lent(&'a [u8]),
    /// Here, so many from the first one on.
    Small([u8; 32], u8),
}

/// The bytes of a property: those of a file, which are lent, or at most 32 of its own. Equality, order and
/// hash look at the bytes alone.
#[derive(Drop)]
pub struct Body<'a> {
    kept: Kept<'a>,
}

impl<'a> Model for Body<'a> {
    ghost use Rattle.std.specs.Prelude.{ℕ, List};
    ghost use Rattle.hf_prop.specs.Kept.{bytes_of, IsWithin};

    ghost Value = { List ℕ };

    ghost view = { λ b. bytes_of b.kept };

    ghost invariant = { λ b. IsWithin b.kept };
}

impl<'a> Body<'a> {
    /// Bytes that are lent.
    pub fn lent(bytes: &'a [u8]) -> Body<'a>
        ensures { result ≡ bytes.now }
    {
        Body {
            kept: Kept::Lent(bytes),
        }
    }

    /// The first `len` of these bytes.
    pub fn small(bytes: [u8; 32], len: u8) -> Body<'a>
        requires { len ≤ 32 }
        ensures { result ≡ take len bytes }
    {
        Body {
            kept: Kept::Small(bytes, len),
        }
    }

    /// The bytes.
    pub fn as_slice(&self) -> &[u8]
        ensures { result.now ≡ self.now }
    {
        match &self.kept {
            Kept::Lent(bytes) => bytes,
            Kept::Small(bytes, len) => &bytes[..*len as usize],
        }
    }

    /// The same bytes, without memory.
    pub fn copy(&self) -> Body<'a>
        ensures { result ≡ self.now }
    {
        match &self.kept {
            Kept::Lent(bytes) => Body {
                kept: Kept::Lent(bytes),
            },
            Kept::Small(bytes, len) => Body {
                kept: Kept::Small(*bytes, *len),
            },
        }
    }
}

impl<'a> PartialEq for Body<'a> {
    ghost eq = { bytes_eq };

    ghost laws = { Prim.search (comparing, rules) };

    fn eq(&self, other: &Body<'a>) -> bool {
        self.as_slice() == other.as_slice()
    }
}

impl<'a> Eq for Body<'a> {
    ghost laws = { Prim.search (comparing, rules) };
}

impl<'a> Ord for Body<'a> {
    ghost cmp = { slice_cmp nat_cmp };

    ghost total = { Prim.search (comparing, rules) };

    ghost matches_partial_cmp = { Prim.search (comparing, rules) };

    ghost matches_eq = { Prim.search (comparing, rules) };

    fn cmp(&self, other: &Body<'a>) -> Ordering {
        self.as_slice().cmp(other.as_slice())
    }
}

impl<'a> PartialOrd for Body<'a> {
    ghost partial_cmp = { as_partial_cmp (slice_cmp nat_cmp) };

    ghost laws = { partial_order_from_own_ties (Prim.search (comparing, rules)) (Prim.search (comparing, rules)) };

    fn partial_cmp(&self, other: &Body<'a>) -> Option<Ordering> {
        Some(self.cmp(other))
    }
}

impl<'a> Hash for Body<'a> {
    ghost hash_input = { λ a. fed.slice fed.u8 a };

    ghost respects_eq = { Prim.search (hashing, rules) };

    fn hash<H: Hasher>(&self, state: &mut H) {
        self.as_slice().hash(state);
    }
}
