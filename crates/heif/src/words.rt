//! The words of the command line.

use std::alloc::Global;
use std::env::{self, Env, FillError};
use std::io;

/// The command line without the program's name, which is no word and need not be text.
#[derive(Drop)]
struct Unnamed<'a>(&'a HostRuntime);

impl Env for Unnamed<'_> {
    fn arg(&self, i: usize, buf: &mut [u8]) -> Result<usize, FillError> {
        match i.checked_add(1) {
            Some(i) => self.0.arg(i, buf),
            None => Err(FillError::NotPresent),
        }
    }

    fn var(&self, name: &str, buf: &mut [u8]) -> Result<usize, FillError> {
        self.0.var(name, buf)
    }

    fn var_at(&self, i: usize, buf: &mut [u8]) -> Result<usize, FillError> {
        self.0.var_at(i, buf)
    }
}

/// The words behind the program's name. An error other than that for want of memory comes where one
/// of them is not UTF-8.
pub fn words_of(rt: &HostRuntime) -> io::Result<Vec<String>> {
    let alloc: Global = rt.alloc();
    Ok(env::args(&(Unnamed(rt), alloc))?.collect(alloc)?)
}
