//! The records of what belongs together: references between items, and groups of items.
#![tactic(auto)]

mod grpl;
mod ids;
mod iref;
mod kinds;
pub mod laws;
pub mod worked;

pub use grpl::{Group, give_group, put_group, read_grpl};
pub use hf_base::RefBox;
pub use iref::{give_ref, put_ref, read_iref};
pub use kinds::{is_minor_kind, is_need_kind};
