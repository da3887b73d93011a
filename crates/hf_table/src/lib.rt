//! The distinct properties of items: how many holders each has, and the table of a canonical file.
#![tactic(auto)]

mod changes;
mod holder;
pub mod laws;
mod making;
mod table;
mod uses;
pub mod worked;

pub use changes::is_listed;
pub use holder::{Holder, PropLists};
pub use making::make_table;
pub use table::Table;
pub use uses::Uses;
