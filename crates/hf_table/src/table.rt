//! The table of a canonical file.

ghost use Rattle.std.specs.Prelude.{◌≡◌, ◌+◌, ◌<◌, List, length, slice_get, slice_index, Some};
ghost use Rattle.hf_prop.specs.declared.prop.Prop.{Prop as StatedProp};
ghost use Rattle.hf_table.specs.Held.{all_props};
ghost use Rattle.hf_table.specs.Numbered.{IsFirst, IsTableOf, Stands};
ghost use Rattle.hf_table.specs.Table.{table, number_of};

/// The distinct properties of some items, in the order of their first use, and the number of each
/// property of an item. It borrows nothing: a property is the place of its first use.
#[derive(Drop)]
pub struct Table {
    /// The place of the item, and the place in its list, at which each distinct property is first
    /// used; both counted from 0.
    pub firsts: Vec<(usize, usize)>,
    /// The numbers of all properties, counted from 1, items in order.
    pub numbers: Vec<u16>,
    /// Where the numbers of each item begin.
    pub starts: Vec<usize>,
}

impl Table {
    /// How many distinct properties there are.
    pub fn kinds(&self) -> usize
        ensures count { result ≡ length self.now.firsts.items }
        ensures table { (lists : List (List StatedProp)) → IsTableOf lists self.now → result ≡ length (table (all_props lists)) }
    {
        self.firsts.len()
    }

    /// Where a distinct property is first used: the place of the item, and the place in its list.
    pub fn first(&self, k: usize) -> (usize, usize)
        requires { k < length self.now.firsts.items }
        ensures value { slice_get self.now.firsts.items k ≡ Some result }
        ensures first { (lists : List (List StatedProp)) (p : StatedProp) → IsTableOf lists self.now → slice_get (table (all_props lists)) k ≡ Some p → IsFirst lists (all_props lists) result p }
    {
        self.firsts[k]
    }

    /// The number of the j-th property of the i-th item, both counted from 0.
    pub fn number(&self, i: usize, j: usize) -> u16
        requires item { i < length self.now.starts.items }
        requires place { slice_index self.now.starts.items i + j < length self.now.numbers.items }
        ensures value { result ≡ slice_index self.now.numbers.items (slice_index self.now.starts.items i + j) }
        ensures number { (lists : List (List StatedProp)) (p : StatedProp) → IsTableOf lists self.now → Stands lists i j p → result ≡ number_of p (table (all_props lists)) }
    {
        self.numbers[self.starts[i] + j]
    }
}
