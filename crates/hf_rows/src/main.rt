//! Worked rows of the commands: files that `rows.txt` states byte by byte, commands over them, and what comes of each,
//! which is printed. What is to be printed follows from the standards and from this project's rules, and not from what
//! the program wrote.
#![tactic(auto)]

ghost use Rattle.std.specs.Prelude.{◌≡◌, false};
ghost use Rattle.hf_desk.specs.Memory.{memory_outside};

mod files;
mod stop;

use crate::files::{Files, bytes_of, desk_of, failing_desk, name_of};
use crate::stop::Stop;
use hf_app::{Outcome, line_of, run, status};
use hf_desk::MemoryDesk;
use std::alloc::Global;
use std::collections::BTreeMap;
use std::process::ExitCode;
use std::{fs, str};

/// Prints what was said, each line behind a bar.
fn print_said(rt: &HostRuntime, said: &[u8]) -> Result<(), Stop> {
    let text = str::from_utf8(said).ok().ok_or(Stop::Row)?;
    for line in text.lines() {
        println!(rt; "| {line}")?;
    }
    Ok(())
}

/// Prints how a command ended: nothing where it is done, else its exit status and the line of its outcome.
fn print_outcome(rt: &HostRuntime, outcome: &Outcome) -> Result<(), Stop> {
    if !matches!(outcome, Outcome::Done) {
        let line = line_of(rt.alloc(), outcome)?;
        let number = status(outcome);
        print!(rt; "{number} {line}")?;
    }
    Ok(())
}

/// Prints the name of the bytes that were made, or how many they are.
fn print_made(rt: &HostRuntime, files: &Files, made: &[u8]) -> Result<(), Stop> {
    if let Some(name) = name_of(files, made) {
        println!(rt; "made {name}")?;
    } else {
        let length = made.len();
        println!(rt; "made {length} bytes")?;
    }
    Ok(())
}

/// The words of a command.
fn words_of(alloc: Global, text: &str) -> Result<Vec<String>, Stop> {
    let mut words = Vec::new(alloc);
    for word in text.split_whitespace() {
        words.push(String::from_str(alloc, word)?)?;
    }
    Ok(words)
}

/// Runs a command over a desk, and prints how it ended and what was said. Where a file is made, it is given.
fn run_over(rt: &HostRuntime, mut desk: MemoryDesk, words: &str) -> Result<Option<Vec<u8>>, Stop>
    requires { (memory_outside desk).creating ≡ false }
{
    let outcome = run(rt.alloc(), &words_of(rt.alloc(), words)?, &mut desk);
    print_outcome(rt, &outcome)?;
    print_said(rt, desk.said())?;
    Ok(desk.into_made())
}

/// Runs a command over the files, and prints what comes of it. Where a file is made, it is given.
fn run_row(rt: &HostRuntime, files: &Files, words: &str) -> Result<Option<Vec<u8>>, Stop> {
    println!(rt; "> {words}")?;
    let made = run_over(rt, desk_of(rt.alloc(), files)?, words)?;
    if let Some(made) = &made {
        print_made(rt, files, made)?;
    }
    Ok(made)
}

/// Prints the bytes that were made.
fn print_digits(rt: &HostRuntime, made: &[u8]) -> Result<(), Stop> {
    let digits = hex::encode(rt.alloc(), made)?;
    println!(rt; "made {digits}")?;
    Ok(())
}

/// Runs a command over a desk whose call with a number fails, and prints the bytes that were made all the same.
fn fail_row(rt: &HostRuntime, files: &Files, row: &str) -> Result<(), Stop> {
    println!(rt; "fail {row}")?;
    let (calls, words) = row.split_once(" > ").ok_or(Stop::Row)?;
    let desk = failing_desk(rt.alloc(), files, calls)?;
    if let Some(made) = run_over(rt, desk, words)? {
        print_digits(rt, &made)?;
    }
    Ok(())
}

/// Runs a command, whose file is kept under a name.
fn keep_row(rt: &HostRuntime, files: &mut Files, row: &str) -> Result<(), Stop> {
    let (name, words) = row.split_once(" > ").ok_or(Stop::Row)?;
    let made = run_row(rt, files, words)?.ok_or(Stop::Row)?;
    files.insert(String::from_str(rt.alloc(), name)?, made)?;
    Ok(())
}

/// Names bytes: those of the pieces behind the name, or none as yet, where they stand on the lines below it.
fn name_row(rt: &HostRuntime, files: &mut Files, row: &str) -> Result<(), Stop> {
    let alloc = rt.alloc();
    let (name, bytes) = match row.split_once(' ') {
        Some((name, pieces)) => (name, bytes_of(alloc, files, pieces)?),
        None => (row, Vec::new(alloc)),
    };
    files.insert(String::from_str(alloc, name)?, bytes)?;
    Ok(())
}

/// Adds the bytes of a file beside the rows.
fn read_row(rt: &HostRuntime, files: &mut Files, file: &str) -> Result<(), Stop> {
    let bytes = fs::read(rt, file)?;
    files.insert(String::from_str(rt.alloc(), file)?, bytes)?;
    Ok(())
}

/// Adds the bytes of these pieces to those of a name.
fn add_pieces(alloc: Global, files: &mut Files, name: &str, pieces: &str) -> Result<(), Stop> {
    let bytes = bytes_of(alloc, files, pieces)?;
    let file = files.get_mut(name).ok_or(Stop::Row)?;
    file.extend_from_slice(&bytes)?;
    Ok(())
}

/// Runs a row that names no bytes by itself.
fn run_line(rt: &HostRuntime, files: &mut Files, line: &str) -> Result<(), Stop> {
    if let Some(file) = line.strip_prefix("read ") {
        read_row(rt, files, file)?;
    } else if let Some(words) = line.strip_prefix("> ") {
        let _ = run_row(rt, files, words)?;
    } else if let Some(row) = line.strip_prefix("keep ") {
        keep_row(rt, files, row)?;
    } else if let Some(row) = line.strip_prefix("fail ") {
        fail_row(rt, files, row)?;
    } else if line.starts_with('#') {
        println!(rt; "{line}")?;
    }
    Ok(())
}

/// Reads the rows in order. Lines that begin with two spaces go on with the bytes of the name before them.
fn run_rows(rt: &HostRuntime) -> Result<(), Stop> {
    let text = fs::read_to_string(rt, "rows.txt")?;
    let mut files = BTreeMap::new(rt.alloc());
    let mut name = "";
    for line in text.as_str().lines() {
        if let Some(pieces) = line.strip_prefix("  ") {
            add_pieces(rt.alloc(), &mut files, name, pieces)?;
        } else if let Some(row) = line.strip_prefix("bytes ") {
            name = row;
            name_row(rt, &mut files, row)?;
        } else {
            run_line(rt, &mut files, line)?;
        }
    }
    Ok(())
}

fn main(rt: HostRuntime) -> ExitCode {
    match run_rows(&rt) {
        Ok(()) => ExitCode::SUCCESS,
        Err(stop) => {
            let _ = eprintln!(rt; "{stop}");
            ExitCode::from(1)
        }
    }
}
