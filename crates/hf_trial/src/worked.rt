//! Worked trials. Each is the contract of a function that does nothing.

ghost use Rattle.std.specs.Prelude.{◌≡◌, ◌++◌, length, map, take};
ghost use Rattle.std.specs.List.{range_with_len};
ghost use Rattle.hf_box.specs.Literals.{hex_of};
ghost use Rattle.hf_store.specs.Counts.{counts_of};
ghost use Rattle.hf_store.specs.Layout.{laid, own};
ghost use Rattle.hf_store.specs.Table.{table_of};
ghost use Rattle.hf_store.specs.Valid.{body_sum};
ghost use Rattle.hf_trial.specs.Bytes.{grid_bytes, hvcc_body, ispe_body, tile_bytes, tile_ids, tile_size, trial_bytes, trial_tail};
ghost use Rattle.hf_trial.specs.Trial.{trial_store_of};
ghost use Rattle.hf_trial.specs.WorkedTrials.{SmallestTrialHasLengths, file_of_smallest_trial};

/// With seed 1 tile k has k + 1 bytes, and 152 in sum; 56 more stand behind them.
pub fn tiles_have_their_bytes()
    ensures sizes { map (λ k. length (tile_bytes 1 k)) (tile_ids 1) ≡ range_with_len 2 16 }
    ensures first { tile_bytes 1 1 ≡ hex_of "0203" }
    ensures last { tile_bytes 1 16 ≡ hex_of "1112131415161718191a1b1c1d1e1f2021" }
    ensures bytes { length (trial_bytes 1 1) ≡ 208 }
{}

/// A tile has 1 to 65,521 bytes, and its bytes go on at 0 behind 255.
pub fn sizes_and_bytes_wrap()
    ensures least { tile_size 65521 1 ≡ 1 }
    ensures greatest { tile_size 65520 1 ≡ 65521 }
    ensures seed { tile_size 4294967295 4096 ≡ 211 }
    ensures bytes { take 4 (tile_bytes 253 1) ≡ hex_of "feff0001" }
{}

/// What stands behind the tiles.
pub fn others_have_their_bytes()
    ensures grid { grid_bytes 1 ≡ hex_of "0000000f 0400 0040" }
    ensures most { grid_bytes 256 ≡ hex_of "0000ff0f 0400 4000" }
    ensures hvcc { hvcc_body 4294967294 ≡ hex_of "fffffffe" }
    ensures ispe { ispe_body 1024 256 ≡ hex_of "00000000 00000400 00000100" }
    ensures tail { trial_tail 7 4 ≡
        hex_of "0000030f 04000100 00000000 00010203 04050607 08090a0b 0c0d0e0f 00000007"
        ++ hex_of "00000000 00000040 00000040 00000000 00000400 00000100" }
{}

/// The trial of one row and seed 1 has 18 items and three distinct properties.
pub fn smallest_trial_is_counted()
    ensures items { length (trial_store_of 1 1).items ≡ 18 }
    ensures primary { (trial_store_of 1 1).primary ≡ 17 }
    ensures kinds { length (table_of (trial_store_of 1 1)) ≡ 3 }
    ensures body { body_sum (trial_store_of 1 1).items ≡ 180 }
    ensures counts { counts_of (trial_store_of 1 1) ≡ record {
      items = 18;
      located = 18;
      wide = 0;
      strings = 22;
      links = 2;
      targets = 17;
      holders = 17;
      picks = 33;
      idat = 8;
      mdat = 172;
      groups = 0;
      entities = 0;
      tails = 0;
    } }
    ensures lengths { SmallestTrialHasLengths }
{}

/// The file of that trial has 1,217 bytes.
pub fn smallest_trial_is_laid()
    ensures { laid own 4 1217 (trial_store_of 1 1) ≡ file_of_smallest_trial }
{}

/// The trial of four rows and seed 7.
pub fn trial_of_four_rows_is_counted()
    ensures primary { (trial_store_of 7 4).primary ≡ 65 }
    ensures body { body_sum (trial_store_of 7 4).items ≡ 14652 }
    ensures targets { (counts_of (trial_store_of 7 4)).targets ≡ 65 }
    ensures bytes { length (trial_bytes 7 4) ≡ 14680 }
{}
