//! A store as lists of properties, one for each item.

use crate::store::Store;
use hf_prop::Held;
use hf_table::PropLists;

impl<'a> PropLists<'a> for Store<'a> {
    ghost use Rattle.hf_store.specs.Table.{lists_of};

    ghost lists = { lists_of };

    fn count(&self) -> usize {
        self.len()
    }

    fn props_at(&self, i: usize) -> &[Held<'a>] {
        self.at(i).props.as_slice()
    }
}
