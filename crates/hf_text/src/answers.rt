//! What `check` and `trial` say.

ghost use Rattle.std.specs.Prelude.{◌≡◌, ◌++◌, codes};
ghost use Rattle.hf_desk.specs.Calls.{Says};
ghost use Rattle.hf_text.specs.Lines.{number_field};
ghost use Rattle.hf_text.specs.Answers.{check_text, size_text, trial_text};

use crate::text::push_number;
use arrayvec::ArrayString;
use hf_desk::{Desk, WriteFault, say_all};

/// The numbers of a trial, and of what its redaction keeps.
#[derive(Clone, Copy)]
pub struct TrialNumbers {
    /// The seed.
    pub seed: u32,
    /// The rows of tiles.
    pub n: u32,
    /// The items of the trial.
    pub items: u64,
    /// The bytes of its canonical file.
    pub bytes: u64,
    /// The items that redaction keeps.
    pub kept_items: u64,
    /// The bytes of the canonical file of these.
    pub kept_bytes: u64,
}

/// Says whether a file is canonical. It takes no memory.
pub fn say_check<D: Desk>(canonical: bool, desk: &mut D) -> Result<(), WriteFault>
    ensures { Says (D.outside desk.old) (check_text canonical) result (D.outside desk.new) }
{
    let text = if canonical {
        "canonical\n"
    } else {
        "not canonical\n"
    };
    say_all(desk, text.as_bytes())
}

/// How many items and bytes, after a space.
#[tactic(auto, unfolding(crate::specs::Answers::size_text))]
fn size(items: u64, bytes: u64) -> ArrayString<64>
    ensures { result.bytes ≡ size_text items bytes }
{
    let mut text = ArrayString::new();
    push_number(&mut text, items);
    text.push_str(" items,");
    push_number(&mut text, bytes);
    text.push_str(" bytes");
    text
}

/// The words in front of the sizes of a trial.
fn words_of_trial(seed: u32, n: u32) -> ArrayString<48>
    ensures { result.bytes ≡ codes "trial" ++ number_field seed ++ number_field n ++ codes ":" }
{
    let mut text = ArrayString::new();
    text.push_str("trial");
    push_number(&mut text, u64::from(seed));
    push_number(&mut text, u64::from(n));
    text.push(':');
    text
}

/// The line of a trial.
#[tactic(auto, unfolding(crate::specs::Answers::trial_text))]
fn line_of_trial(numbers: &TrialNumbers) -> ArrayString<192>
    ensures { result.bytes ≡ trial_text numbers.now }
{
    let words = words_of_trial(numbers.seed, numbers.n);
    let all = size(numbers.items, numbers.bytes);
    let kept = size(numbers.kept_items, numbers.kept_bytes);
    let mut text = ArrayString::new();
    text.push_str(words.as_str());
    text.push_str(all.as_str());
    text.push_str("; redacted");
    text.push_str(kept.as_str());
    text.push('\n');
    text
}

/// Says the line of a trial. It takes no memory.
pub fn say_trial<D: Desk>(numbers: &TrialNumbers, desk: &mut D) -> Result<(), WriteFault>
    ensures { Says (D.outside desk.old) (trial_text numbers.now) result (D.outside desk.new) }
{
    say_all(desk, line_of_trial(numbers).as_str().as_bytes())
}
