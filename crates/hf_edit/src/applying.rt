//! The making of an edit.

ghost use Rattle.std.specs.Prelude.{◌≡◌, ◌<◌, false, length, slice_get, IfOk, OnOk, OnErr, IfErr, IsTrue, None, Some};
ghost use Rattle.hf_store.specs.Changes.{with_props};
ghost use Rattle.hf_store.specs.Room.{props_at};
ghost use Rattle.hf_store.specs.Store.{ItemStore, ids_of};
ghost use Rattle.hf_store.specs.Valid.{Valid};
ghost use Rattle.hf_edit.specs.Additions.{with_next};
ghost use Rattle.hf_edit.specs.Edits.{adds, named, reshapes, step, why};
ghost use Rattle.hf_edit.specs.Faults.{IsFault, takes_memory};
ghost use Rattle.hf_edit.specs.Left.{IsGoodEdit};
ghost use Rattle.hf_edit.specs.Room.{why_not_added};
ghost use Rattle.hf_edit.specs.Seen.{changed_by, draft_of, edit_of};

use crate::additions::{Draft, next_id};
use crate::changing::{Change, cropping, mirroring, rotation};
use crate::edit::{Edit, EditFault};
use crate::reasons::{place_of, primary_of};
use hf_base::{NoMemory, Series};
use hf_prop::Held;
use hf_store::{Props, Reason, Store};
use std::alloc::Global;

/// The first reason against an edit, in the order of `Reason`. It takes no memory.
pub fn refusal<'a>(store: &Store<'a>, edit: &Edit<'a>) -> Option<Reason>
    ensures { result ≡ why store.now (edit_of edit.now) }
{
    place_of(store, edit).err()
}

/// The properties that a change leaves of these. `NoMemory` comes where memory was refused.
fn changed<'a>(props: &Props<'a>, change: &Change<'a>) -> Result<Props<'a>, NoMemory>
    ensures { IfOk result (λ left. left ≡ changed_by change.now props.now) }
{
    let mut left = props.try_clone()?.into_vec();
    left.truncate(change.kept);
    match &change.more {
        None => Ok(Series::from_vec(left)),
        Some(prop) => {
            left.push(Held {
                essential: true,
                prop: prop.copy(),
            })?;
            Ok(Series::from_vec(left))
        }
    }
}

/// Changes the properties of the item at a place. After `NoMemory` the store is as before.
fn reshape<'a>(store: &mut Store<'a>, i: usize, change: &Change<'a>) -> Result<(), NoMemory>
    requires place { i < length store.old.items }
    requires valid { Valid (with_props i (changed_by change.now (props_at i store.old.items)) store.old) }
    ensures set { OnOk result (store.new ≡ with_props i (changed_by change.now (props_at i store.old.items)) store.old) }
    ensures unchanged { OnErr result (store.new ≡ store.old) }
{
    let props = changed(&store.at(i).props, change)?;
    store.set_props(i, props)
}

/// Adds an item, of the one with the id `of`. After `NoMemory` the store is as before.
fn add<'a>(
    alloc: Global,
    store: &mut Store<'a>,
    of: u32,
    draft: &Draft<'_, 'a>,
) -> Result<(), NoMemory>
    requires free { why_not_added (draft_of draft.now of) store.old ≡ None }
    requires valid { Valid (with_next (draft_of draft.now of) store.old) }
    ensures added { OnOk result (store.new ≡ with_next (draft_of draft.now of) store.old) }
    ensures unchanged { OnErr result (store.new ≡ store.old) }
{
    let id = next_id(store).unwrap();
    let item = draft.item(alloc, of, id)?;
    store.add(item)
}

/// The item that comes by an edit that adds one.
fn draft_in<'b, 'a>(edit: &'b Edit<'a>) -> Draft<'b, 'a>
    requires adds { IsTrue (adds (edit_of edit.now)) }
    ensures added { (s : ItemStore) → with_next (draft_of result (named (edit_of edit.entry.now))) s ≡ step s (edit_of edit.entry.now) }
    ensures free { (s : ItemStore) → why s (edit_of edit.entry.now) ≡ None → why_not_added (draft_of result (named (edit_of edit.entry.now))) s ≡ None }
    ensures good { IsGoodEdit (edit_of edit.entry.now) }
{
    match edit {
        Edit::AddExif { tiff, .. } => Draft::Exif(tiff),
        Edit::AddXmp { text, .. } => Draft::Xmp(text),
        Edit::Thumb { donor, .. } => Draft::Thumb(primary_of(donor)),
        _ => unreachable!(),
    }
}

/// The change that an edit makes of the properties of the item at a place, where it turns, mirrors or
/// crops that and there is no reason against it.
fn change_of<'a>(store: &Store<'a>, i: usize, edit: &Edit<'a>) -> Change<'a>
    requires place { slice_get (ids_of store.now.items) i ≡ Some (named (edit_of edit.now)) }
    requires valid { Valid store.now }
    requires free { why store.now (edit_of edit.now) ≡ None }
    requires reshapes { IsTrue (reshapes (edit_of edit.now)) }
    ensures made { with_props i (changed_by result (props_at i store.now.items)) store.now ≡ step store.now (edit_of edit.now) }
    ensures good { IsGoodEdit (edit_of edit.now) }
{
    let item = store.at(i);
    match edit {
        Edit::Rotate { quarters, .. } => rotation(item.props.as_slice(), *quarters),
        Edit::Mirror { axis, .. } => mirroring(item.props.as_slice(), *axis),
        Edit::Crop { x, y, w, h, .. } => cropping(item, *x, *y, *w, *h),
        _ => unreachable!(),
    }
}

/// Makes an edit that takes no memory, of the item at a place, against which there is no reason.
fn make_in_place<'a>(store: &mut Store<'a>, i: usize, edit: &Edit<'a>)
    requires place { slice_get (ids_of store.old.items) i ≡ Some (named (edit_of edit.now)) }
    requires valid { Valid store.old }
    requires free { why store.old (edit_of edit.now) ≡ None }
    requires memory { takes_memory (edit_of edit.now) ≡ false }
    ensures { store.new ≡ step store.old (edit_of edit.now) }
{
    match edit {
        Edit::Remove { .. } => store.remove(i),
        Edit::Primary { id } => store.set_primary(*id),
        Edit::Hide { .. } => store.set_hidden(i, true),
        Edit::Show { .. } => store.set_hidden(i, false),
        Edit::Drop { kind, .. } => store.drop_props(i, *kind),
        _ => unreachable!(),
    }
}

/// Makes an edit of the item at a place, against which there is no reason. After `NoMemory` the store is
/// as before.
fn make<'a>(alloc: Global, store: &mut Store<'a>, i: usize, edit: &Edit<'a>) -> Result<(), NoMemory>
    requires place { slice_get (ids_of store.old.items) i ≡ Some (named (edit_of edit.now)) }
    requires valid { Valid store.old }
    requires free { why store.old (edit_of edit.now) ≡ None }
    ensures made { OnOk result (store.new ≡ step store.old (edit_of edit.now)) }
    ensures memory { OnErr result (IsTrue (takes_memory (edit_of edit.now))) }
    ensures stays { OnErr result (store.new ≡ store.old) }
{
    match edit {
        Edit::AddExif { .. } | Edit::AddXmp { .. } | Edit::Thumb { .. } => {
            add(alloc, store, edit.id(), &draft_in(edit))
        }
        Edit::Rotate { .. } | Edit::Mirror { .. } | Edit::Crop { .. } => {
            let change = change_of(store, i, edit);
            reshape(store, i, &change)
        }
        Edit::Remove { .. }
        | Edit::Primary { .. }
        | Edit::Hide { .. }
        | Edit::Show { .. }
        | Edit::Drop { .. } => {
            make_in_place(store, i, edit);
            Ok(())
        }
    }
}

/// Makes an edit, where nothing speaks against it. `Refused` has the first reason against it, in the
/// order of `Reason`. `NoMemory` comes where memory was refused, and only of an edit that adds an item,
/// turns, mirrors or crops. After a fault the store is as before.
pub fn apply<'a>(alloc: Global, store: &mut Store<'a>, edit: &Edit<'a>) -> Result<(), EditFault>
    ensures free { OnOk result (why store.old (edit_of edit.now) ≡ None) }
    ensures made { OnOk result (store.new ≡ step store.old (edit_of edit.now)) }
    ensures fault { IfErr result (λ fault. IsFault store.old (edit_of edit.now) fault) }
    ensures stays { OnErr result (store.new ≡ store.old) }
{
    let i = place_of(store, edit)?;
    make(alloc, store, i, edit)?;
    Ok(())
}
