//! A list of ids of items or groups.

ghost use Rattle.std.specs.Prelude.{◌≡◌, ◌<◌, ◌++◌, ◌∷◌, [], List, ℕ, length, slice_get, Some, IfOk, OnOk, OnErr};
ghost use Rattle.std.specs.Fn.{CalledAt};
ghost use Rattle.std.specs.List.Retain.{IsFiltered};

use crate::fault::NoMemory;
use std::alloc::Global;
use std::marker::Model;

/// Ids of items or groups, in order. It keeps its allocator.
#[derive(Drop)]
pub struct Ids {
    list: Vec<u32>,
}

impl Model for Ids {
    ghost Value = { List ℕ };

    ghost view = { λ i. i.list.items };
}

impl Ids {
    /// No ids.
    pub fn new(alloc: Global) -> Ids
        ensures { result ≡ [] }
    {
        Ids {
            list: Vec::new(alloc),
        }
    }

    /// No ids, and room for so many. `NoMemory` comes where memory was refused.
    pub fn with_capacity(alloc: Global, capacity: usize) -> Result<Ids, NoMemory>
        ensures { IfOk result (λ i. i ≡ []) }
    {
        Ok(Ids {
            list: Vec::with_capacity(alloc, capacity)?,
        })
    }

    /// One more id at the end. After `NoMemory` the list is as before.
    pub fn push(&mut self, id: u32) -> Result<(), NoMemory>
        ensures pushed { OnOk result (self.new ≡ self.old ++ id ∷ []) }
        ensures unchanged { OnErr result (self.new ≡ self.old) }
    {
        self.list.push(id)?;
        Ok(())
    }

    /// How many ids there are.
    pub fn len(&self) -> usize
        ensures { result ≡ length self.now }
    {
        self.list.len()
    }

    /// The id at a place, counted from 0.
    pub fn get(&self, i: usize) -> u32
        requires { i < length self.now }
        ensures { slice_get self.now i ≡ Some result }
    {
        self.list[i]
    }

    /// The ids, where they lie.
    pub fn as_slice(&self) -> &[u32]
        ensures { result.now ≡ self.now }
    {
        self.list.as_slice()
    }

    /// Leaves the ids alone that pass a test.
    pub fn retain<F: FnMut(&u32) -> bool>(&mut self, test: F)
        requires { F.IsAlwaysCallable test }
        ensures { IsFiltered (CalledAt F.FnMut) test self.old self.new }
    {
        self.list.retain(test);
    }

    /// The same ids again. `NoMemory` comes where memory was refused.
    pub fn try_clone(&self) -> Result<Ids, NoMemory>
        ensures { IfOk result (λ i. i ≡ self.now) }
    {
        Ok(Ids {
            list: self.list.clone()?,
        })
    }
}
