//! Ids that were met in a table.

ghost use Rattle.std.specs.Prelude.{◌≡◌, ◌==◌, ◌||◌, ℕ, [], not, IfOk, OnOk};
ghost use Rattle.hf_base.specs.Entries.{has_id};

use crate::fault::NoMemory;
use std::alloc::Global;
use std::collections::BTreeSet;
use std::marker::Model;

/// The ids that were met in a table so far; each is looked up in time that grows with the logarithm
/// of their number.
#[derive(Drop)]
pub struct SeenIds {
    ids: BTreeSet<u32>,
}

impl Model for SeenIds {
    ghost use Rattle.std.specs.Prelude.{ℕ, List};

    ghost Value = { List ℕ };

    ghost view = { λ s. s.ids.keys };
}

impl SeenIds {
    /// No ids.
    pub fn new(alloc: Global) -> SeenIds
        ensures { result ≡ [] }
    {
        SeenIds {
            ids: BTreeSet::new(alloc),
        }
    }

    /// Meets an id, and says whether it is met for the first time.
    pub fn meet(&mut self, id: u32) -> Result<bool, NoMemory>
        ensures first { IfOk result (λ first. first ≡ not (has_id id self.old)) }
        ensures met { OnOk result ((other : ℕ) → has_id other self.new ≡ (id == other) || has_id other self.old) }
    {
        Ok(self.ids.insert(id)?)
    }
}
