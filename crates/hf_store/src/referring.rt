//! The ids that references lead to.

ghost use Rattle.std.specs.Prelude.{◌≡◌, ◌↔◌, [], IfOk, OnOk, IsTrue};
ghost use Rattle.hf_store.specs.Lists.{IsIn};
ghost use Rattle.hf_store.specs.Referred.{HasAll, all_targets, targets_by};
ghost use Rattle.hf_store.specs.Seen.{items_of};

use crate::Item;
use crate::item::RefList;
use hf_base::NoMemory;
use std::alloc::Global;
use std::collections::BTreeSet;
use std::marker::Model;

/// Ids that references lead to, each kept once and looked up in time that grows with the logarithm
/// of their number.
#[derive(Drop)]
pub(crate) struct Referred {
    ids: BTreeSet<u32>,
}

impl Model for Referred {
    ghost use Rattle.std.specs.Prelude.{ℕ, List};

    ghost Value = { List ℕ };

    ghost view = { λ r. r.ids.keys };
}

impl Referred {
    /// No ids.
    fn new(alloc: Global) -> Referred
        ensures { result ≡ [] }
    {
        Referred {
            ids: BTreeSet::new(alloc),
        }
    }

    /// Whether an id is one of them.
    pub(crate) fn has(&self, id: u32) -> bool
        ensures { IsTrue result ↔ IsIn id self.now }
    {
        self.ids.contains(&id)
    }

    /// One more id, unless it is there.
    fn add(&mut self, id: u32) -> Result<(), NoMemory>
        ensures kept { HasAll self.new self.old }
        ensures added { OnOk result (IsIn id self.new) }
    {
        self.ids.insert(id)?;
        Ok(())
    }

    /// These ids too. After `NoMemory` some of them may be there.
    fn add_ids(&mut self, ids: &[u32]) -> Result<(), NoMemory>
        ensures kept { HasAll self.new self.old }
        ensures added { OnOk result (HasAll self.new ids.now) }
    {
        for id in ids {
            self.add(*id)?;
        }
        Ok(())
    }

    /// The ids of these references too. After `NoMemory` some of them may be there.
    pub(crate) fn add_refs(&mut self, refs: &[RefList]) -> Result<(), NoMemory>
        ensures kept { HasAll self.new self.old }
        ensures added { OnOk result (HasAll self.new (targets_by refs.now)) }
    {
        for list in refs {
            self.add_ids(list.to.as_slice())?;
        }
        Ok(())
    }
}

/// The ids that the references of items lead to. `NoMemory` comes where memory was refused.
pub(crate) fn referred_of(alloc: Global, items: &[Item<'_>]) -> Result<Referred, NoMemory>
    ensures { IfOk result (λ referred. HasAll referred (all_targets (items_of items.now))) }
{
    let mut referred = Referred::new(alloc);
    for item in items {
        referred.add_refs(item.refs.as_slice())?;
    }
    Ok(referred)
}
