//! The words of the command line as commands, and the texts that are printed.
#![tactic(auto)]

mod answers;
mod edits;
pub mod laws;
mod line;
mod listing;
mod outcome;
mod parts;
mod places;
mod rows;
mod text;
mod words;
pub mod worked;
pub mod worked_words;

pub use answers::{TrialNumbers, say_check, say_trial};
pub use edits::EditWord;
pub use line::line_of;
pub use listing::say_list;
pub use outcome::{Outcome, status};
pub use rows::say_rows;
pub use words::{Command, WordsFault, read_words};
