//! What a file says of its items: the store that it denotes, or why it is refused.
#![tactic(auto)]

mod derived;
mod groups;
mod items;
pub mod laws;
mod level;
pub mod limits;
pub mod meta;
mod needs;
mod opening;
pub mod order;
mod properties;
mod references;
pub mod refused;
mod search;
mod tables;
mod top_level;
pub mod worked;

pub use opening::open_store;
