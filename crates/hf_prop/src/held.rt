//! A property as an item holds it.

use crate::prop::Prop;
use hf_base::{NoMemory, TryClone};

/// A property as an item holds it, with the essential mark of its association
/// (ItemPropertyAssociationBox of ISO/IEC 23008-12).
#[derive(Drop)]
pub struct Held<'a> {
    /// Whether a reader that does not know the property may not show the item.
    pub essential: bool,
    /// The property.
    pub prop: Prop<'a>,
}

impl<'a> TryClone for Held<'a> {
    fn try_clone(&self) -> Result<Held<'a>, NoMemory> {
        Ok(Held {
            essential: self.essential,
            prop: self.prop.copy(),
        })
    }
}
