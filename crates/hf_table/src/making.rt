//! The table is made, in one pass over the properties of all items.

ghost use Rattle.std.specs.Prelude.{◌≡◌, ◌≤◌, ◌+◌, List, [], length, fold, IfOk, OnOk};
ghost use Rattle.hf_base.specs.declared.limits.TheConstants.{KINDS};
ghost use Rattle.hf_prop.specs.declared.prop.Prop.{Prop as StatedProp};
ghost use Rattle.hf_table.specs.Held.{props_in, all_props};
ghost use Rattle.hf_table.specs.Making.{AreStarts, IsMade, Notes, NotesAll};
ghost use Rattle.hf_table.specs.Numbered.{IsTableOf};
ghost use Rattle.hf_table.specs.Table.{table, with_prop};

use crate::PropLists;
use crate::table::Table;
use hf_base::NoMemory;
use hf_prop::{Held, Prop};
use indexmap::IndexSet;
use std::alloc::Global;

/// What was met so far.
#[derive(Drop)]
struct Making<'a> {
    /// The distinct properties, in the order of their first use.
    seen: IndexSet<Prop<'a>>,
    /// Where each is first used.
    firsts: Vec<(usize, usize)>,
    /// The numbers of all properties.
    numbers: Vec<u16>,
}

impl<'a> Making<'a> {
    /// Nothing was met.
    fn new(alloc: Global) -> Making<'a>
        ensures { (lists : List (List StatedProp)) → IsMade lists [] result }
    {
        Making {
            seen: IndexSet::new(alloc),
            firsts: Vec::new(alloc),
            numbers: Vec::new(alloc),
        }
    }

    /// One more property: the j-th one of the i-th item.
    fn note(&mut self, prop: Prop<'a>, i: usize, j: usize) -> Result<(), NoMemory>
        requires { length self.old.seen.keys ≤ KINDS }
        ensures seen { OnOk result (self.new.seen.keys ≡ with_prop self.old.seen.keys prop.entry) }
        ensures made { OnOk result (Notes self.old i j prop.entry self.new) }
    {
        let (index, is_new) = self.seen.insert_full(prop)?;
        if is_new {
            self.firsts.push((i, j))?;
        }
        self.numbers.push(index as u16 + 1)?;
        Ok(())
    }

    /// The properties of one more item, the i-th one.
    fn note_all(&mut self, props: &[Held<'a>], i: usize) -> Result<(), NoMemory>
        requires { length (fold with_prop self.old.seen.keys (props_in props.now)) ≤ KINDS }
        ensures { OnOk result (NotesAll self.old i (props_in props.now) self.new) }
    {
        for j in 0..props.len() {
            self.note(props[j].prop.copy(), i, j)?;
        }
        Ok(())
    }

    /// The properties of all these lists, where nothing was met before. Answers where the numbers of
    /// each list begin.
    fn note_lists<S: PropLists<'a>>(
        &mut self,
        alloc: Global,
        store: &S,
    ) -> Result<Vec<usize>, NoMemory>
        requires few { length (table (all_props (S.lists store.now))) ≤ KINDS }
        requires nothing { IsMade (S.lists store.now) [] self.old }
        ensures made { IfOk result (λ _. IsMade (S.lists store.now) (all_props (S.lists store.now)) self.new) }
        ensures starts { IfOk result (λ starts. AreStarts (S.lists store.now) starts.items) }
    {
        let mut starts = Vec::with_capacity(alloc, store.count())?;
        for i in 0..store.count() {
            starts.push(self.numbers.len())?;
            self.note_all(store.props_at(i), i)?;
        }
        Ok(starts)
    }

    /// The table of all that was met, where the numbers of each list begin at these places.
    fn into_table(self, starts: Vec<usize>) -> Table
        ensures { (lists : List (List StatedProp)) → IsMade lists (all_props lists) self.entry → AreStarts lists starts.items → IsTableOf lists result }
    {
        Table {
            firsts: self.firsts,
            numbers: self.numbers,
            starts,
        }
    }
}

/// The table of these lists. `NoMemory` comes where memory was refused.
pub fn make_table<'a, S: PropLists<'a>>(alloc: Global, store: &S) -> Result<Table, NoMemory>
    requires { length (table (all_props (S.lists store.now))) ≤ KINDS }
    ensures { IfOk result (IsTableOf (S.lists store.now)) }
{
    let mut making = Making::new(alloc);
    let starts = making.note_lists(alloc, store)?;
    Ok(making.into_table(starts))
}
