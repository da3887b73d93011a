//! The canonical file of a store: what it is, and its plan.
#![tactic(auto)]

pub mod laws;
mod planned;
mod planning;
mod sizes;
pub mod unwritten;
pub mod worked;
pub mod worked_plans;

pub use planned::Plan;
pub use planning::plan;
pub use sizes::Sizes;
