//! The reasons against an edit, in their order.

ghost use Rattle.std.specs.Prelude.{◌≡◌, ◌<◌, ◌==◌, ◌||◌, ℕ, option_map, length, nat_lt, not, slice_get, IfOk, OnOk, IfErr, None, Some};
ghost use Rattle.std.specs.Option.{is_none};
ghost use Rattle.std.specs.List.{list_any};
ghost use Rattle.hf_links.specs.Kinds.{is_need};
ghost use Rattle.hf_store.specs.Seen.{item_of};
ghost use Rattle.hf_store.specs.Store.{Item as StatedItem, ids_of};
ghost use Rattle.hf_store.specs.Valid.{Valid};
ghost use Rattle.hf_store.specs.declared.item.RefList.{RefList};
ghost use Rattle.hf_deps.specs.Needs.{needed_by as needed_by_stated};
ghost use Rattle.hf_edit.specs.Additions.{primary_item, thumbnail_item};
ghost use Rattle.hf_edit.specs.Edits.{◌or_else◌, named, when, why};
ghost use Rattle.hf_edit.specs.Edits.{has_essential as has_essential_stated, has_kind as has_kind_stated};
ghost use Rattle.hf_edit.specs.Edits.{is_derived as is_derived_stated, is_metadata as is_metadata_stated, is_minor as is_minor_stated};
ghost use Rattle.hf_edit.specs.Pictures.{cropped, is_outside as is_outside_stated, mirrored, picture_size_of, rotated};
ghost use Rattle.hf_edit.specs.Room.{why_not_added, why_not_held};
ghost use Rattle.hf_edit.specs.Seen.{draft_of, edit_of};

use crate::additions::Draft;
use crate::changing::{cropping, mirroring, rotation};
use crate::edit::Edit;
use crate::pictures::{is_outside, picture_size};
use crate::room::{against_change, against_draft};
use hf_base::FourCc;
use hf_base::kinds::{EXIF, GRID, IDEN, IOVL, MIME, URI};
use hf_deps::needed_by;
use hf_links::{is_minor_kind, is_need_kind};
use hf_store::{Item, Reason, Store};

/// Whether an item is metadata.
fn is_metadata(item: &Item<'_>) -> bool
    ensures { result ≡ is_metadata_stated (item_of item.now) }
{
    let kind = item.kind;
    kind == EXIF || kind == MIME || kind == URI
}

/// Whether an item is a thumbnail or an auxiliary picture.
fn is_minor(item: &Item<'_>) -> bool
    ensures { result ≡ is_minor_stated (item_of item.now) }
{
    item.refs
        .as_slice()
        .iter()
        .any(|list| is_minor_kind(list.kind))
}

/// Whether an item needs others.
fn has_need(item: &Item<'_>) -> bool
    ensures { result ≡ list_any (λ (r : RefList). is_need r.kind) (item_of item.now).refs }
{
    item.refs
        .as_slice()
        .iter()
        .any(|list| is_need_kind(list.kind))
}

/// Whether an item needs others, or is a picture made of others.
fn is_derived(item: &Item<'_>) -> bool
    ensures { result ≡ is_derived_stated (item_of item.now) }
{
    let kind = item.kind;
    has_need(item) || kind == GRID || kind == IOVL || kind == IDEN
}

/// Whether an item has a property of a type.
fn has_kind(item: &Item<'_>, kind: FourCc) -> bool
    ensures { result ≡ has_kind_stated kind (item_of item.now) }
{
    item.props
        .as_slice()
        .iter()
        .any(|held| held.prop.kind == kind)
}

/// Whether an item has an essential property of a type.
fn has_essential(item: &Item<'_>, kind: FourCc) -> bool
    ensures { result ≡ has_essential_stated kind (item_of item.now) }
{
    item.props
        .as_slice()
        .iter()
        .any(|held| held.prop.kind == kind && held.essential)
}

/// The primary item.
pub(crate) fn primary_of<'b, 'a>(store: &'b Store<'a>) -> &'b Item<'a>
    ensures item { primary_item store.entry.now ≡ Some (item_of result.now) }
    ensures valid { Valid store.entry.now }
{
    let i = store.position(store.primary()).unwrap();
    store.at(i)
}

/// The first reason why an item does not go.
fn against_removal(store: &Store<'_>, id: u32) -> Option<Reason>
    ensures { let needer = needed_by_stated id store.now.items in
        result ≡ (when (store.now.primary == id) Reason.IsPrimary or_else option_map (λ by. Reason.Needed by) needer or_else None) }
{
    if id == store.primary() {
        return Some(Reason::IsPrimary);
    }
    let by = needed_by(store, id)?;
    Some(Reason::Needed { by })
}

/// The first reason why metadata of an item does not come.
fn against_metadata<'a>(store: &Store<'a>, item: &Item<'a>, draft: &Draft<'_, 'a>) -> Option<Reason>
    ensures { (of : ℕ) → result ≡ (when (is_metadata_stated (item_of item.now)) Reason.NotImage or_else why_not_added (draft_of draft.now of) store.now) }
{
    if is_metadata(item) {
        return Some(Reason::NotImage);
    }
    against_draft(store, draft)
}

/// The first reason why a thumbnail of an item does not come, which is a picture of another store.
fn against_thumbnail<'a>(store: &Store<'a>, item: &Item<'a>, picture: &Item<'a>) -> Option<Reason>
    ensures { let i = item_of item.now in let p = item_of picture.now in
        (of : ℕ) → result ≡ (when (is_metadata_stated i || is_metadata_stated p) Reason.NotImage or_else when (is_minor_stated i) Reason.IsMinor or_else when (is_derived_stated p) Reason.DonorDerived or_else why_not_added (thumbnail_item p of) store.now) }
{
    if is_metadata(item) || is_metadata(picture) {
        return Some(Reason::NotImage);
    }
    if is_minor(item) {
        return Some(Reason::IsMinor);
    }
    if is_derived(picture) {
        return Some(Reason::DonorDerived);
    }
    against_draft(store, &Draft::Thumb(picture))
}

/// The first reason why an item does not become the primary.
fn against_primary(item: &Item<'_>) -> Option<Reason>
    ensures { let i = item_of item.now in
        result ≡ (when (is_metadata_stated i) Reason.NotImage or_else when i.hidden Reason.IsHidden or_else when (is_minor_stated i) Reason.IsMinor or_else None) }
{
    if is_metadata(item) {
        return Some(Reason::NotImage);
    }
    if item.hidden {
        return Some(Reason::IsHidden);
    }
    if is_minor(item) {
        return Some(Reason::IsMinor);
    }
    None
}

/// The first reason why the item at a place is not turned.
fn against_rotation(store: &Store<'_>, i: usize, quarters: u32) -> Option<Reason>
    requires { i < length store.now.items }
    ensures { (item : StatedItem) → slice_get store.now.items i ≡ Some item → result ≡ (when (is_metadata_stated item) Reason.NotImage or_else when ((quarters == 0) || nat_lt 3 quarters) Reason.BadTurn or_else why_not_held i (rotated quarters item.props) store.now) }
{
    let item = store.at(i);
    if is_metadata(item) {
        return Some(Reason::NotImage);
    }
    if quarters == 0 || quarters > 3 {
        return Some(Reason::BadTurn);
    }
    against_change(store, i, &rotation(item.props.as_slice(), quarters))
}

/// The first reason why the item at a place is not mirrored.
fn against_mirroring(store: &Store<'_>, i: usize, axis: u32) -> Option<Reason>
    requires { i < length store.now.items }
    ensures { (item : StatedItem) → slice_get store.now.items i ≡ Some item → result ≡ (when (is_metadata_stated item) Reason.NotImage or_else when (nat_lt 1 axis) Reason.BadAxis or_else why_not_held i (mirrored axis item.props) store.now) }
{
    let item = store.at(i);
    if is_metadata(item) {
        return Some(Reason::NotImage);
    }
    if axis > 1 {
        return Some(Reason::BadAxis);
    }
    against_change(store, i, &mirroring(item.props.as_slice(), axis))
}

/// The first reason why no window is cut out of the item at a place.
fn against_cropping(store: &Store<'_>, i: usize, x: u32, y: u32, w: u32, h: u32) -> Option<Reason>
    requires { i < length store.now.items }
    ensures { (item : StatedItem) → slice_get store.now.items i ≡ Some item → result ≡ (when (is_metadata_stated item) Reason.NotImage or_else when (is_none (picture_size_of item)) Reason.NoSize or_else when (is_outside_stated x y w h (picture_size_of item)) Reason.OutsidePicture or_else why_not_held i (cropped x y w h item) store.now) }
{
    let item = store.at(i);
    if is_metadata(item) {
        return Some(Reason::NotImage);
    }
    let Some(size) = picture_size(item) else {
        return Some(Reason::NoSize);
    };
    if is_outside(x, y, w, h, size) {
        return Some(Reason::OutsidePicture);
    }
    against_change(store, i, &cropping(item, x, y, w, h))
}

/// The reason why an item is not hidden.
fn against_hiding(store: &Store<'_>, id: u32) -> Option<Reason>
    ensures { result ≡ (when (store.now.primary == id) Reason.IsPrimary or_else None) }
{
    (id == store.primary()).then_some(Reason::IsPrimary)
}

/// The first reason why properties do not go from an item.
fn against_dropping(item: &Item<'_>, kind: FourCc) -> Option<Reason>
    ensures { let i = item_of item.now in
        result ≡ (when (not (has_kind_stated kind i)) Reason.NoProperty or_else when (has_essential_stated kind i) Reason.IsEssential or_else None) }
{
    if !has_kind(item, kind) {
        return Some(Reason::NoProperty);
    }
    if has_essential(item, kind) {
        return Some(Reason::IsEssential);
    }
    None
}

/// The first reason against an edit of the item at a place.
fn against<'a>(store: &Store<'a>, i: usize, edit: &Edit<'a>) -> Option<Reason>
    requires place { slice_get (ids_of store.now.items) i ≡ Some (named (edit_of edit.now)) }
    requires valid { Valid store.now }
    ensures { result ≡ why store.now (edit_of edit.now) }
{
    let item = store.at(i);
    match edit {
        Edit::Remove { id } => against_removal(store, *id),
        Edit::AddExif { tiff, .. } => against_metadata(store, item, &Draft::Exif(tiff)),
        Edit::AddXmp { text, .. } => against_metadata(store, item, &Draft::Xmp(text)),
        Edit::Thumb { donor, .. } => against_thumbnail(store, item, primary_of(donor)),
        Edit::Primary { .. } => against_primary(item),
        Edit::Rotate { quarters, .. } => against_rotation(store, i, *quarters),
        Edit::Mirror { axis, .. } => against_mirroring(store, i, *axis),
        Edit::Crop { x, y, w, h, .. } => against_cropping(store, i, *x, *y, *w, *h),
        Edit::Hide { id } => against_hiding(store, *id),
        Edit::Show { .. } => None,
        Edit::Drop { kind, .. } => against_dropping(item, *kind),
    }
}

/// The place of the item that an edit names, or the first reason against the edit.
pub(crate) fn place_of<'a>(store: &Store<'a>, edit: &Edit<'a>) -> Result<usize, Reason>
    ensures place { IfOk result (λ i. slice_get (ids_of store.now.items) i ≡ Some (named (edit_of edit.now))) }
    ensures free { OnOk result (why store.now (edit_of edit.now) ≡ None) }
    ensures reason { IfErr result (λ reason. why store.now (edit_of edit.now) ≡ Some reason) }
    ensures valid { Valid store.now }
{
    let Some(i) = store.position(edit.id()) else {
        return Err(Reason::NoItem);
    };
    match against(store, i, edit) {
        Some(reason) => Err(reason),
        None => Ok(i),
    }
}
