//! Which properties an item has: the entries of `ipma` (ItemPropertyAssociationBox of
//! ISO/IEC 23008-12).

use hf_base::{NoMemory, Series, TryClone};

/// An association: a property of an item.
#[derive(Clone, Copy, PartialEq, Eq)]
pub struct Pick {
    /// Whether a reader that does not know the property may not show the item.
    pub essential: bool,
    /// The number of the property, counted from 1, or 0 for none.
    pub index: u16,
}

impl TryClone for Pick {
    fn try_clone(&self) -> Result<Pick, NoMemory> {
        Ok(*self)
    }
}

/// The associations of an item, in order.
pub type Picks = Series<Pick>;

/// An entry of `ipma`: an item, and its associations.
#[derive(Drop)]
pub struct Assoc {
    /// The id of the item.
    pub item: u32,
    /// Its associations, in their order.
    pub picks: Picks,
}

impl TryClone for Assoc {
    fn try_clone(&self) -> Result<Assoc, NoMemory> {
        Ok(Assoc {
            item: self.item,
            picks: self.picks.try_clone()?,
        })
    }
}

/// The entries of all `ipma` boxes, in file order.
pub type AssocList = Series<Assoc>;
