//! The reasons against changes that make a store fuller. They speak of the store after the change, which is never made
//! for it.

ghost use Rattle.std.specs.Prelude.{◌≡◌, ◌<◌, ℕ, length};
ghost use Rattle.hf_store.specs.Room.{props_at, props_with};
ghost use Rattle.hf_edit.specs.Room.{why_not_added, why_not_held};
ghost use Rattle.hf_edit.specs.Seen.{changed_by, draft_of};

use crate::additions::{Draft, next_id};
use crate::changing::Change;
use hf_base::limits::{BODY, ITEMS, KINDS, PROPS};
use hf_prop::Held;
use hf_store::{Reason, Store};

/// The first reason against these properties behind the first `kept` ones of the item at a place.
fn against_props<'a>(store: &Store<'a>, i: usize, kept: usize, more: &[Held<'a>]) -> Option<Reason>
    requires place { i < length store.now.items }
    requires few { length more.now < 2 }
    ensures { result ≡ why_not_held i (props_with kept more.now i store.now) store.now }
{
    let left = kept.min(store.at(i).props.len());
    let most = PROPS - more.len();
    if left > most {
        return Some(Reason::PropsFull);
    }
    if store.kinds_with(i, kept, more) > KINDS {
        return Some(Reason::KindsFull);
    }
    if !store.fits_meta_with(i, kept, more) {
        return Some(Reason::MetaFull);
    }
    None
}

/// The first reason against a change of the properties of the item at a place.
pub(crate) fn against_change<'a>(store: &Store<'a>, i: usize, change: &Change<'a>) -> Option<Reason>
    requires { i < length store.now.items }
    ensures { result ≡ why_not_held i (changed_by change.now (props_at i store.now.items)) store.now }
{
    match &change.more {
        None => against_props(store, i, change.kept, &[]),
        Some(prop) => {
            let held = Held {
                essential: true,
                prop: prop.copy(),
            };
            against_props(store, i, change.kept, &[held])
        }
    }
}

/// The first reason against one more item.
pub(crate) fn against_draft<'a>(store: &Store<'a>, draft: &Draft<'_, 'a>) -> Option<Reason>
    ensures { (of : ℕ) → result ≡ why_not_added (draft_of draft.now of) store.now }
{
    let props = draft.props();
    if store.kinds_added(props) > KINDS {
        return Some(Reason::KindsFull);
    }
    if store.len() >= ITEMS {
        return Some(Reason::ItemsFull);
    }
    let Some(id) = next_id(store) else {
        return Some(Reason::IdsFull);
    };
    if store.body_sum() + draft.len() > BODY {
        return Some(Reason::BodyFull);
    }
    if !store.fits_meta_added(&draft.counts(id), props) {
        return Some(Reason::MetaFull);
    }
    None
}
