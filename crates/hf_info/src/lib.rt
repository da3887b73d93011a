//! Item information: what a file says of its items, and their entries as they are written.
#![tactic(auto)]

mod iinf;
mod infe;
pub mod laws;
mod put;
mod text;
pub mod worked;

pub use iinf::read_iinf;
pub use infe::Info;
pub use put::{give_infe, infe_size, put_infe};
