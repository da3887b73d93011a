//! Why a file is not read.

ghost use Rattle.std.specs.Prelude.{◌≡◌};
ghost use Rattle.hf_base.specs.declared.fault.OpenFault.TheVariants.{NoMemory as no_memory, Unfit};

use crate::four::FourCc;
use std::alloc::{AllocError, AllocFailed};

/// Memory was refused.
#[derive(Clone, Copy, Debug, PartialEq, Eq)]
pub struct NoMemory;

impl From<AllocError> for NoMemory {
    fn from(_e: AllocError) -> NoMemory {
        NoMemory
    }
}

impl<T: Drop> From<AllocFailed<T>> for NoMemory {
    fn from(_e: AllocFailed<T>) -> NoMemory {
        NoMemory
    }
}

/// Why a file is refused. `at` is the place of a box in the file, in bytes from 0, `kind` its
/// type, and `id` an item or group. Which files are refused, and the order of the reasons, is this
/// project's own rule.
#[derive(Clone, Copy)]
pub enum ReadRefusal {
    /// 1 to 7 bytes are left where a box begins, or its size is 1 and fewer than 16 are left.
    Short { at: u64 },
    /// The size is 2 to 7, or a 64-bit size is below 16, or the box passes the end of what
    /// encloses it.
    BadSize { at: u64 },
    /// The size is 0, which reaches the end of the file, inside another box.
    OpenSize { at: u64 },
    /// A box begins after `BOXES` boxes of its list.
    TooManyBoxes { at: u64 },
    /// The first box is not `ftyp`, or there is none.
    NoFtyp,
    /// `mif1` is neither the major nor a compatible brand.
    NotMif1,
    /// A `moov` or `moof` at the top level.
    Movie { at: u64 },
    /// No `meta` at the top level.
    NoMeta,
    /// A second box of a type that may stand once.
    Double { kind: FourCc, at: u64 },
    /// An `ipro` in `meta`.
    ProtectionBox { at: u64 },
    /// An `xml ` or `bxml` in `meta`.
    Xml { at: u64 },
    /// `meta` lacks a box that it must have.
    Missing { kind: FourCc },
    /// The body is too short for its fields, or a count does not fit.
    BadRecord { kind: FourCc, at: u64 },
    /// A version that this box does not have.
    BadVersion { kind: FourCc, at: u64 },
    /// The handler is not `pict`.
    NotPicture,
    /// An item with id 0.
    ZeroId { at: u64 },
    /// An item with a protection index.
    Protected { id: u32 },
    /// A second item with the id.
    DoubleItem { id: u32 },
    /// `pitm` names no item.
    NoPrimary { id: u32 },
    /// A width in `iloc` other than 0, 4 or 8.
    BadWidth { at: u64 },
    /// A table has more than `ROWS` rows.
    TooLarge { kind: FourCc, at: u64 },
    /// A second `iloc` entry with the id.
    DoubleLocation { id: u32 },
    /// A reference that the item needs names no item.
    DanglingNeed { id: u32 },
    /// A second `ipma` entry with the id.
    DoubleAssoc { id: u32 },
    /// An association of the item is past the end of `ipco`.
    BadProperty { id: u32 },
    /// A second group with the id.
    DoubleGroup { id: u32 },
    /// The bytes of the item lie in another file.
    External { id: u32 },
    /// A construction method above 2.
    BadMethod { id: u32 },
    /// An extent of length 0 where that could mean nothing or the whole source.
    ZeroLength { id: u32 },
    /// The bytes of the item lie in an `idat` that is not there.
    NoIdat { id: u32 },
    /// An extent's index names no source.
    BadIndex { id: u32 },
    /// The bytes of the item are located in itself.
    LocCycle { id: u32 },
    /// An extent passes the end of the file.
    OutOfFile { id: u32 },
    /// An extent passes the end of `idat`.
    OutOfIdat { id: u32 },
    /// All items have more than `PIECES` leaves; `count` is their number, or 2^64 - 1.
    TooScattered { count: u64 },
    /// An extent passes the end of its source item.
    OutOfItem { id: u32 },
    /// All items have more than `BODY` bytes; `sum` is their number, or 2^64 - 1.
    TooManyBytes { sum: u64 },
    /// The payload of a derived item does not fit its inputs.
    BadDerived { id: u32 },
    /// The item is made of itself.
    DeriveCycle { id: u32 },
    /// More than `ITEMS` items.
    TooManyItems { count: u64 },
    /// A reference list of the item has more than `LINKS` ids.
    TooManyLinks { id: u32 },
    /// `meta` would have more than `META` bytes; `size` is their number, or 2^64 - 1.
    MetaTooLong { size: u64 },
}

/// Why a file is not opened.
#[derive(Clone, Copy)]
pub enum OpenFault {
    /// The file is refused.
    Unfit(ReadRefusal),
    /// Memory was refused.
    NoMemory,
}

impl From<NoMemory> for OpenFault {
    ghost from_gives = { λ _ e. e ≡ no_memory };

    fn from(_e: NoMemory) -> OpenFault {
        OpenFault::NoMemory
    }
}

impl From<AllocError> for OpenFault {
    ghost from_gives = { λ _ e. e ≡ no_memory };

    fn from(_e: AllocError) -> OpenFault {
        OpenFault::NoMemory
    }
}

impl<T: Drop> From<AllocFailed<T>> for OpenFault {
    ghost from_gives = { λ _ e. e ≡ no_memory };

    fn from(_e: AllocFailed<T>) -> OpenFault {
        OpenFault::NoMemory
    }
}

impl From<ReadRefusal> for OpenFault {
    ghost from_gives = { λ r e. e ≡ Unfit r };

    fn from(r: ReadRefusal) -> OpenFault {
        OpenFault::Unfit(r)
    }
}
