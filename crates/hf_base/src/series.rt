//! Lists inside records, which contracts see as the list of their elements.

ghost use Rattle.std.specs.Prelude.{◌≡◌, [], ◌∷◌, ◌++◌, ◌<◌, length, slice_get, Some, IfOk, OnOk, OnErr};
ghost use Rattle.std.specs.Fn.{CalledAt};
ghost use Rattle.std.specs.List.Retain.{IsFiltered};

use crate::fault::NoMemory;
use std::alloc::Global;
use std::marker::Model;

/// A value that is copied where there is memory.
pub trait TryClone: Sized {
    /// The same value again. `NoMemory` comes where memory was refused.
    fn try_clone(&self) -> Result<Self, NoMemory>
        ensures { IfOk result (λ copy. copy ≡ self.now) };
}

/// A list inside a record. It keeps its allocator.
#[derive(Drop)]
pub struct Series<T> {
    elements: Vec<T>,
}

impl<T> Model for Series<T> {
    ghost use Rattle.std.specs.Prelude.{List as list};
    ghost use Rattle.std.specs.Coded.{coded_list};

    ghost Value = { list T };

    ghost coded = { coded_list T.code };

    ghost view = { λ a. a.elements.items };
}

impl<T> Series<T> {
    /// No elements.
    pub fn new(alloc: Global) -> Series<T>
        ensures { result ≡ [] }
    {
        Series {
            elements: Vec::new(alloc),
        }
    }

    /// No elements, and room for so many. `NoMemory` comes where memory was refused.
    pub fn with_capacity(alloc: Global, capacity: usize) -> Result<Series<T>, NoMemory>
        ensures { IfOk result (λ list. list ≡ []) }
    {
        Ok(Series {
            elements: Vec::with_capacity(alloc, capacity)?,
        })
    }

    /// How many elements there are.
    pub fn len(&self) -> usize
        ensures { result ≡ length self.now }
    {
        self.elements.len()
    }

    /// The element at a place, counted from 0.
    pub fn get(&self, i: usize) -> &T
        requires { i < length self.now }
        ensures { slice_get self.now i ≡ Some result.now }
    {
        &self.elements[i]
    }

    /// The elements, where they lie.
    pub fn as_slice(&self) -> &[T]
        ensures { result.now ≡ self.now }
    {
        self.elements.as_slice()
    }

    /// The elements, in a list that can be changed.
    pub fn into_vec(self) -> Vec<T>
        ensures { result.items ≡ self }
    {
        self.elements
    }

    /// The list of these elements.
    pub fn from_vec(elements: Vec<T>) -> Series<T>
        ensures { result ≡ elements.items }
    {
        Series { elements }
    }
}

impl<T: Drop> Series<T> {
    /// One more element at the end; it is spent in every case. After `NoMemory` the list is as before.
    pub fn push(&mut self, element: T) -> Result<(), NoMemory>
        ensures pushed { OnOk result (self.new ≡ self.old ++ element ∷ []) }
        ensures unchanged { OnErr result (self.new ≡ self.old) }
    {
        self.elements.push(element)?;
        Ok(())
    }

    /// Leaves the elements alone that pass a test.
    pub fn retain<F: FnMut(&T) -> bool>(&mut self, test: F)
        requires { F.IsAlwaysCallable test }
        ensures { IsFiltered (CalledAt F.FnMut) test self.old self.new }
    {
        self.elements.retain(test);
    }
}

impl<T: TryClone + Drop> Series<T> {
    /// The same list again. `NoMemory` comes where memory was refused.
    pub fn try_clone(&self) -> Result<Series<T>, NoMemory>
        ensures { IfOk result (λ copy. copy ≡ self.now) }
    {
        let mut elements = Vec::new(*self.elements.allocator());
        for element in &self.elements {
            elements.push(element.try_clone()?)?;
        }
        Ok(Series { elements })
    }
}
