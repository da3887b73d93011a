//! How long the tiles of a trial are.

ghost use Rattle.std.specs.Prelude.{◌≡◌, ◌≤◌};
ghost use Rattle.hf_trial.specs.Bytes.{tile_size as stated_size};

/// How many bytes tile `k` has.
pub(crate) fn tile_size(seed: u32, k: u32) -> usize
    ensures value { result ≡ stated_size seed k }
    ensures few { result ≤ 65521 }
{
    1 + (seed as u64 * k as u64 % 65_521) as usize
}
