//! The store of items: what it is, and which stores are valid.
#![tactic(auto)]

pub mod counting;
mod cutting;
mod item;
pub mod laws;
mod measuring;
mod reason;
mod referring;
pub mod room_worked;
mod size;
mod store;
mod tally;

pub use item::{GroupList, Item, ItemList, Props, RefList, Refs};
pub use reason::Reason;
pub use store::{Parts, Store};
pub use tally::{Counts, count_item, in_idat};
