//! The order of things that need each other: each comes behind all that it needs.
#![tactic(auto)]

pub mod laws;
mod needs;
mod ordering;
mod steps;

pub use ordering::{Order, order_of};
