//! The edits, and why one is not made.

ghost use Rattle.std.specs.Prelude.{◌≡◌};
ghost use Rattle.hf_edit.specs.Edits.{named};
ghost use Rattle.hf_edit.specs.Seen.{edit_of};
ghost use Rattle.hf_edit.specs.declared.edit.EditFault.TheVariants.{NoMemory as no_memory, Refused as refused};

use hf_base::{FourCc, NoMemory};
use hf_store::{Reason, Store};

/// An edit of a store. Each names an item by its id.
#[derive(Drop)]
pub enum Edit<'a> {
    /// The item goes, and its id from all references and groups.
    Remove {
        id: u32,
    },
    /// An item with Exif metadata comes that describes the item: its bytes are four of 0, and then these,
    /// which begin with the header of TIFF (ISO/IEC 23008-12, annex A).
    AddExif {
        id: u32,
        tiff: &'a [u8],
    },
    /// An item with this text as XMP metadata comes that describes the item (ISO/IEC 23008-12).
    AddXmp {
        id: u32,
        text: &'a [u8],
    },
    /// A thumbnail of the item comes: the primary item of another store, with its bytes and
    /// properties.
    Thumb {
        id: u32,
        donor: Store<'a>,
    },
    /// The item becomes the primary.
    Primary {
        id: u32,
    },
    /// The item is turned by so many quarters, anticlockwise (ImageRotation of ISO/IEC 23008-12).
    Rotate {
        id: u32,
        quarters: u32,
    },
    /// The item is mirrored at an axis, 0 or 1 (ImageMirror of ISO/IEC 23008-12).
    Mirror {
        id: u32,
        axis: u32,
    },
    /// A window of the item is shown (CleanApertureBox of ISO/IEC 14496-12): its first column is `x` and
    /// its first row `y`, counted from 0, and it is `w` by `h`.
    Crop {
        id: u32,
        x: u32,
        y: u32,
        w: u32,
        h: u32,
    },
    /// The item is hidden (ISO/IEC 23008-12): it is not to be shown by itself.
    Hide {
        id: u32,
    },
    /// The item is no longer hidden.
    Show {
        id: u32,
    },
    /// The item's properties of a type go.
    Drop {
        id: u32,
        kind: FourCc,
    },
}

impl Edit<'_> {
    /// The id of the item that the edit names.
    pub fn id(&self) -> u32
        ensures { result ≡ named (edit_of self.now) }
    {
        match self {
            Edit::Remove { id }
            | Edit::AddExif { id, .. }
            | Edit::AddXmp { id, .. }
            | Edit::Thumb { id, .. }
            | Edit::Primary { id }
            | Edit::Rotate { id, .. }
            | Edit::Mirror { id, .. }
            | Edit::Crop { id, .. }
            | Edit::Hide { id }
            | Edit::Show { id }
            | Edit::Drop { id, .. } => *id,
        }
    }
}

/// Why an edit is not made.
#[derive(Clone, Copy)]
pub enum EditFault {
    /// There is a reason against it.
    Refused(Reason),
    /// Memory was refused.
    NoMemory,
}

impl From<Reason> for EditFault {
    ghost from_gives = { λ reason fault. fault ≡ refused reason };

    fn from(reason: Reason) -> EditFault {
        EditFault::Refused(reason)
    }
}

impl From<NoMemory> for EditFault {
    ghost from_gives = { λ _ fault. fault ≡ no_memory };

    fn from(_e: NoMemory) -> EditFault {
        EditFault::NoMemory
    }
}
