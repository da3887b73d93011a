//! Edits of a store: what each makes of it, and why it is refused.
#![tactic(auto)]

mod additions;
mod applying;
mod changing;
mod edit;
pub mod laws;
mod pictures;
mod reasons;
mod room;
pub mod worked;

pub use additions::next_id;
pub use applying::{apply, refusal};
pub use edit::{Edit, EditFault};
pub use pictures::picture_size;
