//! The redaction of a store.

ghost use Rattle.std.specs.Prelude.{◌≡◌, ◌<◌, length, OnOk, OnErr};
ghost use Rattle.hf_store.specs.Changes.{changed_at, without_optionals};
ghost use Rattle.hf_deps.specs.Redacted.{all_bared, all_undescribed, redacted, undescribed};

use crate::keeping::kept;
use hf_base::kinds::{CRTT, MDFT, UDES};
use hf_base::{FourCc, NoMemory};
use hf_store::Store;
use std::alloc::Global;

/// Drops the properties of one type that are not essential, of the item at a place.
fn drop_kind(store: &mut Store<'_>, i: usize, kind: FourCc)
    requires { i < length store.old.items }
    ensures { store.new ≡ without_optionals i kind store.old }
{
    store.valid();
    store.drop_optional(i, kind);
}

/// Drops the descriptions of the item at a place.
fn undescribe(store: &mut Store<'_>, i: usize)
    requires { i < length store.old.items }
    ensures { store.new ≡ record store.old { items = changed_at undescribed i store.old.items } }
{
    drop_kind(store, i, UDES);
    drop_kind(store, i, CRTT);
    drop_kind(store, i, MDFT);
}

/// Drops the descriptions of all items.
fn undescribe_all(store: &mut Store<'_>)
    ensures { store.new ≡ all_undescribed store.old }
{
    for i in 0..store.len() {
        undescribe(store, i);
    }
}

/// Takes the names and descriptions of all items away.
#[tactic(auto, using(crate::proofs::Undescribing::bared_is))]
fn bare_all(store: &mut Store<'_>)
    ensures { store.new ≡ all_bared store.old }
{
    store.clear_names();
    undescribe_all(store);
}

/// Removes the items that a redaction does not keep, the names of the others, and their properties of
/// type `udes`, `crtt` or `mdft` that are not essential. After `NoMemory` the store is as before.
pub fn redact<'a>(alloc: Global, store: &mut Store<'a>, bare: bool) -> Result<(), NoMemory>
    ensures redacted { OnOk result (store.new ≡ redacted bare store.old) }
    ensures unchanged { OnErr result (store.new ≡ store.old) }
{
    store.valid();
    let keep = kept(alloc, store, bare)?;
    store.keep_only(&keep);
    bare_all(store);
    Ok(())
}
