//! A property.

ghost use Rattle.std.specs.Prelude.{◌≡◌};

use crate::body::Body;
use hf_base::{FourCc, NoMemory, Series, TryClone};

/// A property: a box of `ipco` (ItemPropertyContainerBox of ISO/IEC 23008-12).
#[derive(PartialEq, Eq, PartialOrd, Ord, Hash, Drop)]
pub struct Prop<'a> {
    /// The type of the box.
    pub kind: FourCc,
    /// The bytes behind its header.
    pub body: Body<'a>,
}

impl<'a> Prop<'a> {
    /// The same property, without memory.
    pub fn copy(&self) -> Prop<'a>
        ensures { result ≡ self.now }
    {
        Prop {
            kind: self.kind,
            body: self.body.copy(),
        }
    }
}

impl<'a> TryClone for Prop<'a> {
    fn try_clone(&self) -> Result<Prop<'a>, NoMemory> {
        Ok(self.copy())
    }
}

/// The properties of a table, in order; their numbers count from 1.
pub type PropList<'a> = Series<Prop<'a>>;
