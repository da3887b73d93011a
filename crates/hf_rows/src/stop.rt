//! What stops the rows.

use hex::FromHexError;
use hf_base::NoMemory;
use std::alloc::{AllocError, AllocFailed};
use std::fmt::{self, Display, Formatter, Write};
use std::io;

/// Why the rows stop: there is no memory, a line is no row, or a file is not read or a line not printed.
#[derive(Drop)]
pub enum Stop {
    Memory,
    Row,
    Device,
}

impl Display for Stop {
    fn fmt<W: Write>(&self, f: &mut Formatter<W>) -> fmt::Result {
        f.write_str(match self {
            Stop::Memory => "no memory",
            Stop::Row => "a line is no row",
            Stop::Device => "a file is not read, or a line not printed",
        })
    }
}

impl From<NoMemory> for Stop {
    fn from(_: NoMemory) -> Self {
        Stop::Memory
    }
}

impl From<AllocError> for Stop {
    fn from(_: AllocError) -> Self {
        Stop::Memory
    }
}

impl<T: Drop> From<AllocFailed<T>> for Stop {
    fn from(_: AllocFailed<T>) -> Self {
        Stop::Memory
    }
}

impl From<FromHexError> for Stop {
    fn from(_: FromHexError) -> Self {
        Stop::Row
    }
}

impl From<io::Error> for Stop {
    fn from(_: io::Error) -> Self {
        Stop::Device
    }
}
