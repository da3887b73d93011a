//! Where the bytes of items lie: entries of `iloc` and boxes of `iref` (ISO/IEC 14496-12).

use crate::fault::NoMemory;
use crate::four::FourCc;
use crate::ids::Ids;
use crate::series::{Series, TryClone};

/// A part of an item: so many bytes of its source from a place on, or the whole source where the
/// length is 0.
#[derive(Clone, Copy, Debug, PartialEq, Eq)]
pub struct Extent {
    /// With construction method 2 the source: a place among the item's `iloc` references, counted
    /// from 1.
    pub index: u64,
    /// The place in the source, in bytes from the base of the entry.
    pub offset: u64,
    /// How many bytes, or 0 for the whole source.
    pub length: u64,
}

impl TryClone for Extent {
    fn try_clone(&self) -> Result<Extent, NoMemory> {
        Ok(*self)
    }
}

/// The extents of an entry, in order.
pub type Extents = Series<Extent>;

/// An entry of `iloc` (ItemLocationBox of ISO/IEC 14496-12): where the bytes of an item lie.
#[derive(Drop)]
pub struct Loc {
    /// The id of the item.
    pub id: u32,
    /// The construction method: 0 for the file, 1 for `idat`, 2 for other items.
    pub method: u8,
    /// The data reference index, which is 0 for this file.
    pub dref: u16,
    /// What each offset counts from, in bytes of the source.
    pub base: u64,
    /// The parts of the item, in their order.
    pub extents: Extents,
}

/// A box of `iref` (SingleItemTypeReferenceBox of ISO/IEC 14496-12): references of one type from an
/// item.
#[derive(Drop)]
pub struct RefBox {
    /// The type of the references.
    pub kind: FourCc,
    /// The id of the item that has them.
    pub from: u32,
    /// The ids that they lead to.
    pub to: Ids,
}
