//! The items without which others cannot be shown.

ghost use Rattle.std.specs.Prelude.{◌≡◌, ◌==◌, ◌&&◌, not};
ghost use Rattle.std.specs.List.{list_any};
ghost use Rattle.hf_links.specs.Kinds.{is_need};
ghost use Rattle.hf_store.specs.Seen.{item_of};
ghost use Rattle.hf_deps.specs.Needs.{needed_by as needed_by_stated, needs as needs_stated};

use hf_links::is_need_kind;
use hf_store::{Item, RefList, Store};

/// Whether an id is one of these.
fn leads_to(ids: &[u32], id: u32) -> bool
    ensures { result ≡ list_any (λ to. to == id) ids.now }
{
    ids.iter().any(|to| *to == id)
}

/// Whether these references need the item with this id.
fn list_needs(list: &RefList, id: u32) -> bool
    ensures { result ≡ (is_need list.now.kind && list_any (λ to. to == id) list.now.to) }
{
    is_need_kind(list.kind) && leads_to(list.to.as_slice(), id)
}

/// Whether an item needs the one with this id.
fn needs(item: &Item<'_>, id: u32) -> bool
    ensures { result ≡ needs_stated id (item_of item.now) }
{
    let refs = item.refs.as_slice();
    for list in refs {
        if list_needs(list, id) {
            return true;
        }
    }
    false
}

/// Whether an item is another one than that with this id, and needs it.
fn is_needer(item: &Item<'_>, id: u32) -> bool
    ensures { result ≡ (not (item.now.id == id) && needs_stated id (item_of item.now)) }
{
    item.id != id && needs(item, id)
}

/// The least id of another item that needs the one with this id: it has a reference of type `dimg`,
/// `tbas` or `prem` to it. No item is looked at where the store knows that no reference leads to it.
pub fn needed_by(store: &Store<'_>, id: u32) -> Option<u32>
    ensures { result ≡ needed_by_stated id store.now.items }
{
    if !store.may_be_referred_to(id) {
        return None;
    }
    for i in 0..store.len() {
        let item = store.at(i);
        if is_needer(item, id) {
            return Some(item.id);
        }
    }
    None
}
