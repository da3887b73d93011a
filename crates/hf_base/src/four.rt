ghost use Rattle.std.specs.Prelude.{◌≡◌, ◌↔◌, ◌+◌, ◌≤◌, length, IsTrue};
ghost use Rattle.hf_base.specs.Reading.{four_at as four_is};

/// A type, brand or handler of four bytes, compared and ordered by its bytes.
#[derive(Clone, Copy, Debug, PartialEq, Eq, PartialOrd, Ord, Hash)]
pub struct FourCc(pub [u8; 4]);

/// The type in the four bytes from `at` on, a place counted from 0.
pub fn four_at(bytes: &[u8], at: usize) -> FourCc
    requires { at + 4 ≤ length bytes.now }
    ensures { result ≡ four_is at bytes.now }
{
    FourCc([bytes[at], bytes[at + 1], bytes[at + 2], bytes[at + 3]])
}

impl FourCc {
    /// Whether it is the other one.
    pub fn is(self, other: FourCc) -> bool
        ensures { IsTrue result ↔ (self ≡ other) }
    {
        self == other
    }
}
