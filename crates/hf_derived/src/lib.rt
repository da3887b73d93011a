//! Derived items of ISO/IEC 23008-12: what their payloads say, whether these fit the items that they
//! are made of, and which are made of themselves.
#![tactic(auto)]

mod cycle;
mod fitting;
mod grid;
pub mod laws;
mod overlay;
mod side;
pub mod worked;

pub use cycle::derive_cycle;
pub use fitting::fits;
pub use grid::{Grid, read_grid};
pub use overlay::{Overlay, read_overlay};
