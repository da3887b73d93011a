//! Why a command stops, and what is answered then.

ghost use Rattle.std.specs.Prelude.{◌≡◌};
ghost use Rattle.hf_app.specs.Stops.{outcome_of_read, outcome_of_stop};
ghost use Rattle.hf_app.specs.declared.stopping.Stop.TheVariants.{NoMemory as no_memory};

use hf_base::{NoMemory, ReadRefusal};
use hf_desk::ReadStop;
use hf_store::Reason;
use hf_text::Outcome;

/// Why a command makes nothing of the files that it read.
#[derive(Clone, Copy)]
pub enum Stop {
    /// The file of this source is refused. Source 0 is the input, and the file of an edit has the
    /// number of the edit, from 1.
    Unfit { source: u32, why: ReadRefusal },
    /// The edit with this number, from 1, is refused.
    Refused { edit: u32, why: Reason },
    /// Memory was refused.
    NoMemory,
}

impl From<NoMemory> for Stop {
    ghost from_gives = { λ _ stop. stop ≡ no_memory };

    fn from(_e: NoMemory) -> Stop {
        Stop::NoMemory
    }
}

/// The answer where the file of this source was not read whole.
pub fn stopped(source: u32, why: ReadStop) -> Outcome
    ensures { result ≡ outcome_of_read source why }
{
    match why {
        ReadStop::TooLong => Outcome::TooLong { source },
        ReadStop::Fault => Outcome::ReadFault,
        ReadStop::NoMemory => Outcome::NoMemory,
    }
}

/// The answer where a command makes nothing of its files.
pub fn refused(why: Stop) -> Outcome
    ensures { result ≡ outcome_of_stop why }
{
    match why {
        Stop::Unfit { source, why } => Outcome::Unfit { source, why },
        Stop::Refused { edit, why } => Outcome::Refused { edit, why },
        Stop::NoMemory => Outcome::NoMemory,
    }
}
