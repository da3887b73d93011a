//! Items that edits add.

ghost use Rattle.std.specs.Prelude.{◌≡◌, ◌+◌, ◌<◌, ◌≤◌, ◌^◌, ◌++◌, ℕ, [], false, IfOk, length};
ghost use Rattle.hf_box.specs.Walk.{is_kind};
ghost use Rattle.hf_box.specs.Written.{bit as stated_bit};
ghost use Rattle.hf_pieces.specs.Bytes.{joined};
ghost use Rattle.hf_store.specs.Counts.{counts_of_item, strings_of};
ghost use Rattle.hf_store.specs.Layout.{in_idat as stands_in_idat};
ghost use Rattle.hf_store.specs.Seen.{item_of};
ghost use Rattle.hf_store.specs.Valid.{IsFour};
ghost use Rattle.hf_edit.specs.Additions.{description, greatest_id as greatest_id_stated, next_id_of, one_reference as one_reference_stated, thumbnail_item};
ghost use Rattle.hf_edit.specs.Seen.{draft_of};

use hf_base::kinds::{CDSC, EXIF, MIME, THMB, URI};
use hf_base::{FourCc, Ids, NoMemory, Series};
use hf_pieces::Pieces;
use hf_prop::Held;
use hf_store::{Counts, Item, Props, RefList, Refs, Store, in_idat};
use std::alloc::Global;

/// What stands before the bytes of Exif metadata: they begin with their header (ISO/IEC 23008-12, annex A).
const HEADER_FIRST: &[u8] = &[0, 0, 0, 0];

/// The content type of XMP metadata.
const XMP: &[u8] = b"application/rdf+xml";

/// The greatest id of an item or a group.
fn greatest_id(store: &Store<'_>) -> u32
    ensures { result ≡ greatest_id_stated store.now }
{
    let items = store.len();
    let groups = store.group_count();
    let item = store.at(items - 1).id;
    if groups > 0 {
        item.max(store.group_at(groups - 1).id)
    } else {
        item
    }
}

/// The id that an added item has: one more than the greatest of an item or a group. `None` exactly where
/// that is 2^32 - 1.
pub fn next_id(store: &Store<'_>) -> Option<u32>
    ensures { result ≡ next_id_of store.now }
{
    greatest_id(store).checked_add(1)
}

/// An item that is to be added, without its id and the item that it is of.
#[derive(Clone, Copy)]
pub(crate) enum Draft<'b, 'a> {
    /// Exif metadata with these bytes.
    Exif(&'a [u8]),
    /// XMP metadata with this text.
    Xmp(&'a [u8]),
    /// A thumbnail with the type, bytes and properties of this item.
    Thumb(&'b Item<'a>),
}

/// A mark as a number.
fn bit(is_set: bool) -> u64
    ensures { result ≡ stated_bit is_set }
{
    if is_set { 1 } else { 0 }
}

/// 1 for a type that is the other one.
fn one_of(kind: FourCc, other: FourCc) -> u64
    ensures bit { result ≡ stated_bit (is_kind kind other) }
    ensures four { IsFour kind }
{
    if kind == other { 1 } else { 0 }
}

impl<'b, 'a> Draft<'b, 'a> {
    /// How many bytes the item has.
    pub(crate) fn len(&self) -> u64
        ensures count { (of id : ℕ) → result ≡ length (draft_of self.now of id).bytes }
        ensures few { result < 2 ^ 63 + 4 }
    {
        match self {
            Draft::Exif(tiff) => tiff.len() as u64 + 4,
            Draft::Xmp(text) => text.len() as u64,
            Draft::Thumb(picture) => picture.body.len(),
        }
    }

    /// The properties of the item.
    pub(crate) fn props(&self) -> &[Held<'a>]
        ensures { (of id : ℕ) → result.now ≡ (draft_of self.now of id).props }
    {
        match self {
            Draft::Exif(_) | Draft::Xmp(_) => &[],
            Draft::Thumb(picture) => picture.props.as_slice(),
        }
    }

    /// The bytes of the strings of the item's `infe`, with the zero bytes that end them.
    fn strings(&self) -> u64
        ensures bytes { (of id : ℕ) → result ≡ strings_of (draft_of self.now of id) }
        ensures four { (of id : ℕ) → IsFour (draft_of self.now of id).kind }
    {
        match self {
            Draft::Exif(_) => 1,
            Draft::Xmp(_) => 21,
            Draft::Thumb(picture) => 1 + one_of(picture.kind, MIME) + one_of(picture.kind, URI),
        }
    }

    /// Whether the bytes of the item stand in `idat`.
    fn in_idat(&self) -> bool
        ensures { (of id : ℕ) → result ≡ stands_in_idat (draft_of self.now of id) }
    {
        match self {
            Draft::Exif(_) | Draft::Xmp(_) => false,
            Draft::Thumb(picture) => in_idat(picture),
        }
    }

    /// What is counted of the item, given its id.
    pub(crate) fn counts(&self, id: u32) -> Counts
        ensures value { (of : ℕ) → result ≡ counts_of_item (draft_of self.now of id) }
        ensures four { (of : ℕ) → IsFour (draft_of self.now of id).kind }
    {
        let len = self.len();
        let props = self.props().len() as u64;
        let in_idat = self.in_idat();
        Counts {
            items: 1,
            located: bit(len > 0),
            wide: bit(id >= 65_536),
            strings: self.strings(),
            links: 1,
            targets: 1,
            holders: bit(props > 0),
            picks: props,
            idat: if in_idat { len } else { 0 },
            mdat: if in_idat { 0 } else { len },
            groups: 0,
            entities: 0,
            tails: 0,
        }
    }

    /// The item, of the item with the id `of`. `NoMemory` comes where memory was refused.
    pub(crate) fn item(&self, alloc: Global, of: u32, id: u32) -> Result<Item<'a>, NoMemory>
        requires { length (draft_of self.now of id).bytes ≤ 2 ^ 62 }
        ensures { IfOk result (λ item. item_of item ≡ draft_of self.now of id) }
    {
        match self {
            Draft::Exif(tiff) => metadata(alloc, EXIF, b"", HEADER_FIRST, tiff, of, id),
            Draft::Xmp(text) => metadata(alloc, MIME, XMP, b"", text, of, id),
            Draft::Thumb(picture) => thumbnail(alloc, picture, of, id),
        }
    }
}

/// An item that is not hidden and has no name, no encoding and no URI.
fn plain_item<'a>(
    id: u32,
    kind: FourCc,
    content: &'a [u8],
    body: Pieces<'a>,
    props: Props<'a>,
    refs: Refs,
) -> Item<'a>
    ensures { item_of result ≡ record { id = id; kind = kind; hidden = false; name = []; content = content.entry.now; encoding = []; uri = []; bytes = joined body.entry; props = props.entry; refs = refs } }
{
    Item {
        id,
        kind,
        hidden: false,
        name: b"",
        content,
        encoding: b"",
        uri: b"",
        body,
        props,
        refs,
    }
}

/// Metadata of a type that describes the item with the id `of`: its bytes are `front`, and then `back`.
fn metadata<'a>(
    alloc: Global,
    kind: FourCc,
    content: &'a [u8],
    front: &'a [u8],
    back: &'a [u8],
    of: u32,
    id: u32,
) -> Result<Item<'a>, NoMemory>
    requires { length (front.now ++ back.now) ≤ 2 ^ 62 }
    ensures { IfOk result (λ item. item_of item ≡ description kind content.entry.now (front.entry.now ++ back.entry.now) of id) }
{
    let body = lent(alloc, front, back)?;
    let refs = one_reference(alloc, CDSC, of)?;
    Ok(plain_item(id, kind, content, body, Series::new(alloc), refs))
}

/// A thumbnail of the item with the id `of`, with the type, bytes and properties of a picture.
fn thumbnail<'a>(alloc: Global, picture: &Item<'a>, of: u32, id: u32) -> Result<Item<'a>, NoMemory>
    ensures { IfOk result (λ item. item_of item ≡ thumbnail_item (item_of picture.now) of id) }
{
    let body = picture.body.try_clone()?;
    let props = picture.props.try_clone()?;
    let refs = one_reference(alloc, THMB, of)?;
    Ok(plain_item(id, picture.kind, b"", body, props, refs))
}

/// Two slices, one behind the other.
fn lent<'a>(alloc: Global, front: &'a [u8], back: &'a [u8]) -> Result<Pieces<'a>, NoMemory>
    requires { length (front.now ++ back.now) ≤ 2 ^ 62 }
    ensures { IfOk result (λ pieces. joined pieces ≡ front.entry.now ++ back.entry.now) }
{
    let mut pieces = Pieces::new(alloc);
    pieces.push(front)?;
    pieces.push(back)?;
    Ok(pieces)
}

/// A reference of a type to one item.
fn one_reference(alloc: Global, kind: FourCc, to: u32) -> Result<Refs, NoMemory>
    ensures { IfOk result (λ refs. refs ≡ one_reference_stated kind to) }
{
    let mut ids = Ids::new(alloc);
    ids.push(to)?;
    let mut refs = Series::new(alloc);
    refs.push(RefList { kind, to: ids })?;
    Ok(refs)
}
