//! The trial: a store of a large image of tiles, fixed by a seed and a number of rows. It is this project's own.
#![tactic(auto)]

mod buffer;
mod building;
pub mod laws;
mod shares;
mod tile;
pub mod worked;

pub use buffer::trial_buffer;
pub use building::trial_store;
