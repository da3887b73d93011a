//! What a plan says.

ghost use Rattle.std.specs.Prelude.{◌≡◌, ◌<◌, length, Some, slice_get};
ghost use Rattle.hf_plan.specs.Plan.{IsNumber, HasNumber};

use crate::sizes::Sizes;
use hf_table::Table;
use std::marker::Model;

/// What the canonical file of a store will be, before any byte of it is there. It borrows nothing: a
/// distinct property is kept as the place of its first use.
#[derive(Drop)]
pub struct Plan {
    pub(crate) wide: bool,
    pub(crate) long: bool,
    pub(crate) total: u64,
    pub(crate) starts: Vec<Option<u64>>,
    pub(crate) sizes: Sizes,
    pub(crate) table: Table,
}

impl Model for Plan {
    ghost use Rattle.hf_plan.specs.Plan.{Planned};

    ghost Value = { Planned };

    ghost use Rattle.hf_plan.specs.Seen.{planned_of};

    ghost view = { planned_of };
}

impl Plan {
    /// Whether item ids take four bytes, and not two.
    pub fn wide(&self) -> bool
        ensures { result ≡ self.now.wide }
    {
        self.wide
    }

    /// Whether offsets take eight bytes, and not four.
    pub fn long(&self) -> bool
        ensures { result ≡ self.now.long }
    {
        self.long
    }

    /// The length of the file in bytes.
    pub fn total(&self) -> u64
        ensures { result ≡ self.now.total }
    {
        self.total
    }

    /// The offset that is written for the item at a place, counted from 0 by rising id; none for an
    /// item without bytes.
    pub fn start(&self, i: usize) -> Option<u64>
        requires { i < length self.now.starts }
        ensures { slice_get self.now.starts i ≡ Some result }
    {
        self.starts[i]
    }

    /// The lengths of the boxes.
    pub fn sizes(&self) -> Sizes
        ensures { result ≡ self.now.sizes }
    {
        self.sizes
    }

    /// How many distinct properties there are: boxes in `ipco`.
    pub fn kinds(&self) -> usize
        ensures { result ≡ length self.now.firsts }
    {
        self.table.kinds()
    }

    /// Where the property of a box of `ipco`, counted from 0, is first used: the place of the item, and
    /// the place in its list, both counted from 0.
    pub fn first(&self, k: usize) -> (usize, usize)
        requires { k < length self.now.firsts }
        ensures { slice_get self.now.firsts k ≡ Some result }
    {
        self.table.first(k)
    }

    /// The number of the j-th property of the i-th item, both counted from 0: the place of its box in
    /// `ipco`, counted from 1.
    pub fn number(&self, i: usize, j: usize) -> u16
        requires { HasNumber self.now i j }
        ensures { IsNumber self.now i j result }
    {
        self.table.number(i, j)
    }
}
