//! How a run ends.

ghost use Rattle.std.specs.Prelude.{◌≡◌};
ghost use Rattle.hf_text.specs.Lines.{status_of};

use hf_base::ReadRefusal;
use hf_store::Reason;

/// How a run ends. The outcomes, their numbers and their lines are this project's own.
#[derive(Clone, Copy)]
pub enum Outcome {
    /// What the command asks for was said, or made.
    Done,
    /// The words are no command: `at` is the place, from 0, of the first word that no command has
    /// there after the words before it, or the number of words where they end too early.
    Usage { at: usize },
    /// The file of this source is refused. Source 0 is the input.
    Unfit { source: u32, why: ReadRefusal },
    /// The edit with this number, from 1, is refused, and those before it are accepted.
    Refused { edit: u32, why: Reason },
    /// The input has no item with this id.
    NoSuchItem { id: u32 },
    /// The file of this source has more than `FILE` bytes.
    TooLong { source: u32 },
    /// A read failed, also for a name that is not there.
    ReadFault,
    /// A write failed; what was said or made until then is the front of what was to be.
    WriteFault,
    /// Memory was refused.
    NoMemory,
}

/// The exit status of the program.
pub fn status(outcome: &Outcome) -> u8
    ensures { result ≡ status_of outcome.now }
{
    match outcome {
        Outcome::Done => 0,
        Outcome::Usage { .. } => 2,
        Outcome::Unfit { .. } => 3,
        Outcome::Refused { .. } => 4,
        Outcome::NoSuchItem { .. } => 5,
        Outcome::TooLong { .. } => 6,
        Outcome::ReadFault => 7,
        Outcome::WriteFault => 8,
        Outcome::NoMemory => 9,
    }
}
