//! The limits of this project. They are its own rule, and no statement of a standard.

/// Bytes of each file that is read.
pub const FILE: u64 = 1_073_741_824;

/// Boxes in one list of boxes.
pub const BOXES: usize = 4_194_304;

/// Rows of one record table: for `iloc` entries and extents, for `iref` inner boxes and to-ids,
/// for `ipma` entries and associations over all `ipma` boxes, for `grpl` groups and entities.
pub const ROWS: usize = 4_194_304;

/// Items of a store.
pub const ITEMS: usize = 65_536;

/// Leaves of all items: an extent in the file or in `idat` is one, and an extent in another item
/// has those of that item.
pub const PIECES: u64 = 1_048_576;

/// Bytes of all items of a store, counted as often as items have them.
pub const BODY: u64 = 1_099_511_627_776;

/// Bytes of the `meta` box, as it is written with offsets of eight bytes.
pub const META: u64 = 1_073_741_824;

/// Properties of an item.
pub const PROPS: usize = 255;

/// Distinct properties of a store, told apart by type and body.
pub const KINDS: usize = 32_767;

/// Ids in one reference list.
pub const LINKS: usize = 65_535;

/// Edits of one command.
pub const EDITS: usize = 256;
