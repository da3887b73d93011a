//! Boxes and words for the tests.

use std::alloc::Global;
use std::test::Fail;

/// The words of a command.
pub fn words_of(alloc: Global, words: &[&str]) -> Result<Vec<String>, Fail> {
    let mut all = Vec::new(alloc);
    for word in words {
        all.push(String::from_str(alloc, word)?)?;
    }
    Ok(all)
}

/// The bytes of these pieces, counted.
fn sum_of(pieces: &[&[u8]]) -> u32 {
    let mut sum = 0u32;
    for piece in pieces {
        sum = sum.saturating_add(u32::try_from(piece.len()).unwrap_or(0));
    }
    sum
}

/// Puts a box of this type around these pieces.
pub fn put_box(file: &mut Vec<u8>, kind: &[u8; 4], pieces: &[&[u8]]) -> Result<(), Fail> {
    file.extend_from_slice(&sum_of(pieces).saturating_add(8).to_be_bytes())?;
    file.extend_from_slice(kind)?;
    for piece in pieces {
        file.extend_from_slice(piece)?;
    }
    Ok(())
}

/// Puts the entry of an `iinf` for a shown item of type `hvc1` without a name.
pub fn put_info(infos: &mut Vec<u8>, id: u16) -> Result<(), Fail> {
    put_box(
        infos,
        b"infe",
        &[b"\x02\0\0\0", &id.to_be_bytes(), b"\0\0hvc1\0"],
    )
}
