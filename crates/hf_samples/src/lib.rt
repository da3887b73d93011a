//! Small files and what reading them gives, as an independent model of the format gave it: no code, theorems alone.
#![tactic(auto)]

pub mod accepted;
pub mod order;
pub mod refused;
