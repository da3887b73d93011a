//! The program `heif`: the words of the command line, the desk over the system, and the outcome.
#![tactic(auto)]

mod real;
mod words;

use crate::real::RealDesk;
use crate::words::words_of;
use hf_app::{Outcome, line_of, run, status};
use std::fs::File;
use std::io;
use std::io::ErrorKind;
use std::os::fd::AsRawFd;
use std::process::ExitCode;

/// An empty file, where it gets the number of a standard stream that is closed. It is opened for
/// reading alone, so that writing to that stream fails.
fn stand_in(rt: &HostRuntime) -> Option<File> {
    let file = File::open(rt, "/dev/null").ok()?;
    if file.as_raw_fd() > 2 {
        return None;
    }
    Some(file)
}

/// Ends before any command is read.
fn refused(rt: &HostRuntime, why: io::Error) -> ExitCode {
    if why.kind() == ErrorKind::OutOfMemory {
        let _ = eprintln!(rt; "heif: no memory");
        return ExitCode::from(9);
    }
    let _ = eprintln!(rt; "heif: a word is not text");
    ExitCode::from(1)
}

/// Prints the line of an outcome to standard error.
fn report(rt: &HostRuntime, outcome: &Outcome) {
    if let Ok(line) = line_of(rt.alloc(), outcome) {
        let _ = eprint!(rt; "{line}");
    } else {
        let _ = eprintln!(rt; "heif: no memory");
    }
}

fn main(rt: HostRuntime) -> ExitCode {
    // Otherwise a file that is opened later takes that number, and the line of a fault is written into it.
    let _streams = [stand_in(&rt), stand_in(&rt), stand_in(&rt)];
    let words = match words_of(&rt) {
        Ok(words) => words,
        Err(why) => return refused(&rt, why),
    };
    let mut desk = RealDesk::new(&rt);
    let outcome = run(rt.alloc(), &words, &mut desk);
    if !matches!(outcome, Outcome::Done) {
        report(&rt, &outcome);
    }
    ExitCode::from(status(&outcome))
}

#[cfg(test)]
mod tests;
