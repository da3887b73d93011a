//! The top call: words in, files read and made, texts said, one outcome.
#![tactic(auto)]

mod boxes;
mod check;
mod edit;
mod editing;
mod extract;
mod input;
pub mod laws;
mod list;
mod making;
mod opening;
mod redacting;
mod sources;
mod stopping;
mod top;
mod trial;
mod words;

pub use editing::edited;
pub use hf_text::{
    Command, EditWord, Outcome, WordsFault, line_of, read_words, say_check, say_list, say_rows,
    status,
};
pub use hf_trial::{trial_buffer, trial_store};
pub use making::make_canonical;
pub use stopping::Stop;
pub use top::run;
