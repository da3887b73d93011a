//! Files that are stated as pieces of bytes.

ghost use Rattle.std.specs.Prelude.{◌≡◌, IfOk, false};
ghost use Rattle.hf_desk.specs.Memory.{memory_outside};

use crate::stop::Stop;
use hf_desk::MemoryDesk;
use std::alloc::Global;
use std::collections::BTreeMap;

/// The bytes of files by their names.
pub type Files = BTreeMap<String, Vec<u8>>;

/// The bytes of a name, or of `name:from:to`, from a place on and before another.
fn named<'a>(files: &'a Files, text: &str) -> Result<&'a [u8], Stop> {
    let Some((name, places)) = text.split_once(':') else {
        return Ok(files.get(text).ok_or(Stop::Row)?);
    };
    let (from, to) = places.split_once(':').ok_or(Stop::Row)?;
    let from: usize = from.parse().ok().ok_or(Stop::Row)?;
    let to: usize = to.parse().ok().ok_or(Stop::Row)?;
    files
        .get(name)
        .ok_or(Stop::Row)?
        .get(from..to)
        .ok_or(Stop::Row)
}

/// Puts a piece: a name behind `@` stands for its bytes, text stands behind `'`, `58*30` are bytes so many times,
/// and other pieces are hexadecimal digits.
fn put_piece(alloc: Global, files: &Files, piece: &str, bytes: &mut Vec<u8>) -> Result<(), Stop> {
    if let Some(text) = piece.strip_prefix('@') {
        bytes.extend_from_slice(named(files, text)?)?;
    } else if let Some(text) = piece.strip_prefix('\'') {
        bytes.extend_from_slice(text.as_bytes())?;
    } else if let Some((digits, count)) = piece.split_once('*') {
        let once = hex::decode(alloc, digits)?;
        let count: u32 = count.parse().ok().ok_or(Stop::Row)?;
        for _ in 0..count {
            bytes.extend_from_slice(&once)?;
        }
    } else {
        bytes.extend_from_slice(&hex::decode(alloc, piece)?)?;
    }
    Ok(())
}

/// The bytes of pieces with spaces between them.
pub fn bytes_of(alloc: Global, files: &Files, pieces: &str) -> Result<Vec<u8>, Stop> {
    let mut bytes = Vec::new(alloc);
    for piece in pieces.split_whitespace() {
        put_piece(alloc, files, piece, &mut bytes)?;
    }
    Ok(bytes)
}

/// The first name whose bytes are these.
pub fn name_of<'a>(files: &'a Files, bytes: &[u8]) -> Option<&'a str> {
    for (name, named) in files {
        if named.as_slice() == bytes {
            return Some(name);
        }
    }
    None
}

/// A desk with these files.
pub fn desk_of(alloc: Global, files: &Files) -> Result<MemoryDesk, Stop>
    ensures { IfOk result (λ d. (memory_outside d).creating ≡ false) }
{
    let mut desk = MemoryDesk::new(alloc);
    for (name, bytes) in files {
        desk.add(name, bytes)?;
    }
    Ok(desk)
}

/// Which call of a desk fails, and how many bytes it takes at most in one, stated as `3 10`.
#[derive(Clone, Copy)]
struct Failing {
    call: u64,
    most: usize,
}

fn failing_of(text: &str) -> Result<Failing, Stop> {
    let (call, most) = text.split_once(' ').ok_or(Stop::Row)?;
    let call: u64 = call.parse().ok().ok_or(Stop::Row)?;
    let most: usize = most.parse().ok().ok_or(Stop::Row)?;
    Ok(Failing { call, most })
}

/// A desk with these files, whose call with a number fails, and that takes at most so many bytes in a call.
pub fn failing_desk(alloc: Global, files: &Files, text: &str) -> Result<MemoryDesk, Stop>
    ensures { IfOk result (λ d. (memory_outside d).creating ≡ false) }
{
    let failing = failing_of(text)?;
    let mut desk = desk_of(alloc, files)?;
    desk.take_at_most(failing.most.max(1));
    desk.fail(failing.call)?;
    Ok(desk)
}
