//! Worked stores: which are valid and which are not, how they are laid in a file, and what changes make of them.
#![tactic(auto)]

pub mod broken;
pub mod changed;
pub mod derived;
pub mod grids;
pub mod limits;
pub mod linked;
pub mod worked;
