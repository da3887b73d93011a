//! What canonical files denote: laws alone.
#![tactic(auto)]

pub mod laws;
