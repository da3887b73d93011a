//! `iprp`: properties, and which items have them (ISO/IEC 23008-12).
#![tactic(auto)]

mod assoc;
mod body;
mod held;
mod ipma;
mod iprp;
pub mod laws;
mod makers;
mod prop;
mod views;

pub use assoc::{Assoc, AssocList, Pick, Picks};
pub use body::Body;
pub use held::Held;
pub use iprp::{Iprp, read_iprp};
pub use makers::{mirror, turn, window};
pub use prop::{Prop, PropList};
pub use views::{axis_of, size_of, turn_of, window_of};
