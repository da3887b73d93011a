//! The distinct properties that are held, with the number of holders of each.

ghost use Rattle.std.specs.Prelude.{◌≡◌, ◌+◌, ◌≤◌, ◌<◌, ◌^◌, ◌↔◌, [], ◌∷◌, List, length, false, None, IsTrue, IsOk, OnOk, OnErr};
ghost use Rattle.std.specs.Map.{keys_of, lookup};
ghost use Rattle.hf_prop.specs.declared.prop.Prop.{Prop as StatedProp};
ghost use Rattle.hf_table.specs.Table.{same_prop, table, prop_size, size_sum};
ghost use Rattle.hf_table.specs.Uses.{holders_in, Gains, IsCount, KeepsKinds, Tallies};

use hf_base::NoMemory;
use hf_prop::Prop;
use indexmap::IndexMap;
use std::alloc::Global;
use std::marker::Model;

/// The distinct properties that are held, with the number of holders of each: the places at which the
/// property lists of items have it. Contracts see a list of properties with these numbers.
#[derive(Drop)]
pub struct Uses<'a> {
    places: IndexMap<Prop<'a>, usize>,
    size: u64,
}

impl<'a> Model for Uses<'a> {
    ghost use Rattle.std.specs.Prelude.{◌≡◌, List};
    ghost use Rattle.std.specs.Map.{keys_of};
    ghost use Rattle.hf_table.specs.Table.{size_sum};
    ghost use Rattle.hf_table.specs.Uses.{Use, IsCount};

    ghost Value = { List Use };

    ghost view = { λ u. u.places.entries };

    ghost invariant = { λ u. IsCount u.places.entries × (u.size ≡ size_sum (keys_of u.places.entries)) };
}

/// The bytes of a property's box.
fn size_of(prop: &Prop<'_>) -> u64
    ensures { result ≡ prop_size prop.now }
{
    8 + prop.body.as_slice().len() as u64
}

impl<'a> Uses<'a> {
    /// No property is held.
    pub fn new(alloc: Global) -> Uses<'a>
        ensures value { result ≡ [] }
        ensures tallies { Tallies result [] }
    {
        Uses {
            places: IndexMap::new(alloc),
            size: 0,
        }
    }

    /// How many distinct properties are held.
    pub fn kinds(&self) -> usize
        ensures count { result ≡ length self.now }
        ensures tallied { (ps : List StatedProp) → Tallies self.now ps → result ≡ length (table ps) }
    {
        self.places.len()
    }

    /// The bytes of the boxes of the distinct properties, each counted once.
    pub fn bytes(&self) -> u64
        ensures count { result ≡ size_sum (keys_of self.now) }
        ensures sound { IsCount self.now }
        ensures tallied { (ps : List StatedProp) → Tallies self.now ps → result ≡ size_sum (table ps) }
    {
        self.size
    }

    /// How many holders a property has.
    pub fn holders(&self, prop: &Prop<'a>) -> usize
        ensures { result ≡ holders_in self.now prop.now }
    {
        match self.places.get(prop) {
            Some(count) => *count,
            None => 0,
        }
    }

    /// Whether a property is held.
    pub fn holds(&self, prop: &Prop<'a>) -> bool
        ensures { IsTrue result ↔ (0 < holders_in self.now prop.now) }
    {
        self.places.contains_key(prop)
    }

    /// A property gets one holder more; it is spent in every case. After `NoMemory` nothing has
    /// changed, and that comes only where the property had no holder.
    pub fn add(&mut self, prop: Prop<'a>) -> Result<(), NoMemory>
        requires few { holders_in self.old prop < 2 ^ 62 }
        requires room { holders_in self.old prop ≡ 0 → size_sum (keys_of self.old) + prop_size prop < 2 ^ 64 }
        ensures gains { OnOk result (Gains self.old (prop.entry ∷ []) self.new) }
        ensures bytes { OnOk result (size_sum (keys_of self.new) ≤ size_sum (keys_of self.old) + prop_size prop.entry) }
        ensures unchanged { OnErr result (self.new ≡ self.old) }
        ensures held { 0 < holders_in self.old prop.entry → IsOk result }
    {
        if raise(&mut self.places, &prop) {
            return Ok(());
        }
        let size = size_of(&prop);
        self.places.insert(prop, 1)?;
        self.size += size;
        Ok(())
    }

    /// A property loses one holder. With its last one it is held no longer.
    pub fn take(&mut self, prop: &Prop<'a>)
        requires { 0 < holders_in self.old prop.now }
        ensures { Gains self.new (prop.now ∷ []) self.old }
    {
        if lower(&mut self.places, prop) {
            return;
        }
        self.places.swap_remove(prop);
        self.size -= size_of(prop);
    }
}

/// A property that is there gets one holder more. Answers whether it is there.
fn raise<'a>(places: &mut IndexMap<Prop<'a>, usize>, prop: &Prop<'a>) -> bool
    requires { holders_in places.old.entries prop.now < 2 ^ 62 }
    ensures raised { IsTrue result → Gains places.old.entries (prop.now ∷ []) places.new.entries }
    ensures kept { IsTrue result → KeepsKinds places.old.entries places.new.entries }
    ensures absent { result ≡ false → lookup (same_prop prop.now) places.old.entries ≡ None }
    ensures unchanged { result ≡ false → places.new ≡ places.old }
{
    let Some(count) = places.get_mut(prop) else {
        return false;
    };
    *count += 1;
    true
}

/// A property with more than one holder loses one. Answers whether it had more than one.
fn lower<'a>(places: &mut IndexMap<Prop<'a>, usize>, prop: &Prop<'a>) -> bool
    ensures lowered { IsTrue result → Gains places.new.entries (prop.now ∷ []) places.old.entries }
    ensures kept { IsTrue result → KeepsKinds places.old.entries places.new.entries }
    ensures last { result ≡ false → holders_in places.old.entries prop.now ≤ 1 }
    ensures unchanged { result ≡ false → places.new.entries ≡ places.old.entries }
{
    let Some(count) = places.get_mut(prop) else {
        return false;
    };
    let has_more = *count > 1;
    if has_more {
        *count -= 1;
    }
    has_more
}
