//! Why an edit is refused.

/// Why an edit of a store is refused. Where several reasons hold, the one that stands first here is
/// given. The reasons and their order are this project's own rule.
#[derive(Clone, Copy, PartialEq, Eq)]
pub enum Reason {
    /// No item has the id.
    NoItem,
    /// The item is the primary.
    IsPrimary,
    /// Another item needs it: it has a reference of type `dimg`, `tbas` or `prem` to the item.
    /// `by` is the least id of these.
    Needed { by: u32 },
    /// The item, or the primary item of the store that is given, is metadata.
    NotImage,
    /// The item is hidden.
    IsHidden,
    /// The item has a reference of type `thmb` or `auxl`.
    IsMinor,
    /// The primary item of the store that is given needs other items, or is a derived item.
    DonorDerived,
    /// The size of the item's picture is not known.
    NoSize,
    /// A side of the window is 0, or the window reaches beyond the picture.
    OutsidePicture,
    /// The quarters of the turn are not 1, 2 or 3.
    BadTurn,
    /// The axis is neither 0 nor 1.
    BadAxis,
    /// The item has no property of the kind.
    NoProperty,
    /// A property of the kind is essential.
    IsEssential,
    /// The item would have more than PROPS properties.
    PropsFull,
    /// The store would have more than KINDS distinct properties.
    KindsFull,
    /// The store would have more than ITEMS items.
    ItemsFull,
    /// No id is left for the item that would be added.
    IdsFull,
    /// The items would have more than BODY bytes.
    BodyFull,
    /// The `meta` box would have more than META bytes.
    MetaFull,
}
