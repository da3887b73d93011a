//! The bytes that a trial is made of.

ghost use Rattle.std.specs.Prelude.{◌≡◌, ◌≤◌, ◌++◌, OnOk, IfOk};
ghost use Rattle.hf_trial.specs.Bytes.{grid_bytes, hvcc_body, ispe_body, tile_bytes, trial_bytes, trial_tail};

use crate::tile::tile_size;
use hf_base::{NoMemory, be_put};
use std::alloc::Global;

/// The bytes of tile `k` at the end.
fn push_tile(bytes: &mut Vec<u8>, seed: u32, k: u32) -> Result<(), NoMemory>
    ensures { OnOk result (bytes.new.items ≡ bytes.old.items ++ tile_bytes seed k) }
{
    for j in 0..tile_size(seed, k) {
        let sum = seed as u64 + k as u64 + j as u64;
        bytes.push((sum % 256) as u8)?;
    }
    Ok(())
}

/// The payload of the grid of `n` rows.
#[tactic(auto, unfolding(crate::specs::Bytes::grid_bytes, hf_derived::specs::Grid::grid_body, hf_base::specs::Number::num))]
fn grid_payload(n: u32) -> [u8; 8]
    requires some { 1 ≤ n }
    requires few { n ≤ 256 }
    ensures { result ≡ grid_bytes n }
{
    let mut bytes = [0u8; 8];
    be_put(&mut bytes, 2, 1, n as u64 - 1);
    be_put(&mut bytes, 3, 1, 15);
    be_put(&mut bytes, 4, 2, 1024);
    be_put(&mut bytes, 6, 2, 64 * n as u64);
    bytes
}

/// The body of the `hvcC` of the tiles.
#[tactic(auto, unfolding(crate::specs::Bytes::hvcc_body))]
fn hvcc(seed: u32) -> [u8; 4]
    ensures { result ≡ hvcc_body seed }
{
    let mut bytes = [0u8; 4];
    be_put(&mut bytes, 0, 4, seed as u64);
    bytes
}

/// The body of an `ispe`.
#[tactic(auto, unfolding(crate::specs::Bytes::ispe_body, hf_base::specs::Number::num))]
fn ispe(width: u32, height: u32) -> [u8; 12]
    ensures { result ≡ ispe_body width height }
{
    let mut bytes = [0u8; 12];
    be_put(&mut bytes, 4, 4, width as u64);
    be_put(&mut bytes, 8, 4, height as u64);
    bytes
}

/// The bytes behind those of the tiles, at the end.
fn push_tail(bytes: &mut Vec<u8>, seed: u32, n: u32) -> Result<(), NoMemory>
    requires some { 1 ≤ n }
    requires few { n ≤ 256 }
    ensures { OnOk result (bytes.new.items ≡ bytes.old.items ++ trial_tail seed n) }
{
    bytes.extend_from_slice(&grid_payload(n))?;
    bytes.extend_from_slice(
        b"\0\0\0\0\0\x01\x02\x03\x04\x05\x06\x07\x08\x09\x0a\x0b\x0c\x0d\x0e\x0f",
    )?;
    bytes.extend_from_slice(&hvcc(seed))?;
    bytes.extend_from_slice(&ispe(64, 64))?;
    bytes.extend_from_slice(&ispe(1024, 64 * n))?;
    Ok(())
}

/// The bytes that the trial of `seed` and `n` is made of: those of its tiles by rising id, the payload of
/// its grid, the bytes of its metadata, and the bodies of its `hvcC`, of the `ispe` of a tile and of that of
/// the grid. `NoMemory` comes where memory was refused.
pub fn trial_buffer(alloc: Global, seed: u32, n: u32) -> Result<Vec<u8>, NoMemory>
    requires some { 1 ≤ n }
    requires few { n ≤ 256 }
    ensures { IfOk result (λ bytes. bytes.items ≡ trial_bytes seed n) }
{
    let mut bytes = Vec::new(alloc);
    for k in 0..16 * n {
        push_tile(&mut bytes, seed, k + 1)?;
    }
    push_tail(&mut bytes, seed, n)?;
    Ok(bytes)
}
