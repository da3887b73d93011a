//! The bytes of items, found by their entries of `iloc` (ItemLocationBox of ISO/IEC 14496-12).
#![tactic(auto)]

mod bodies;
mod chains;
mod checks;
mod items;
mod leaves;
mod resolving;
mod sizes;
mod sources;

pub use resolving::resolve;
