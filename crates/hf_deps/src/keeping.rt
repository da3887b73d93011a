//! Which items a redaction keeps.

ghost use Rattle.std.specs.Prelude.{◌≡◌, ◌↔◌, ℕ, IfOk};
ghost use Rattle.hf_deps.specs.Kept.{Kept, kept_ids};
ghost use Rattle.hf_store.specs.Lists.{IsIn};

use crate::pairs::by_keeper;
use crate::reach::{marked_ids, reach};
use hf_base::{Ids, NoMemory};
use hf_store::Store;
use std::alloc::Global;

/// The ids of the items that a redaction keeps, by rising id: the primary item, each item that a kept
/// one needs and, unless `bare`, each item that has a reference of type `thmb` or `auxl` to a kept
/// one. `NoMemory` comes where memory was refused.
///
/// n references take time that grows as n log n, however long the chains of items are.
pub fn kept(alloc: Global, store: &Store<'_>, bare: bool) -> Result<Ids, NoMemory>
    ensures told { IfOk result (λ ids. ids ≡ kept_ids bare store.now) }
    ensures kept { IfOk result (λ ids. (id : ℕ) → IsIn id ids ↔ Kept store.now bare id) }
{
    store.valid();
    let pairs = by_keeper(alloc, store, bare)?;
    let reached = reach(alloc, store, &pairs)?;
    marked_ids(alloc, store, &reached.marks)
}
