//! Where the bytes of items lie: the entries of `iloc`.
#![tactic(auto)]

mod entry;
mod fields;
mod iloc;
pub mod laws;
mod table;
mod widths;

pub use entry::{entry_size, give_entry, put_entry};
pub use hf_base::{Extent, Extents, Loc};
pub use iloc::read_iloc;
