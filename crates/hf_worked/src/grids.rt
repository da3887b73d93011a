//! Worked stores of derived items with bytes behind their fields. Each is the contract of a function that does nothing.

ghost use Rattle.std.specs.Prelude.{◌≡◌};
ghost use Rattle.hf_store.specs.Layout.{laid, own};
ghost use Rattle.hf_store.specs.Valid.{Valid};
ghost use Rattle.hf_worked.specs.WorkedGrids.{file_of_grids, file_of_identity_with_bytes, grids, identity_with_bytes};

/// Grids of up to 256 bytes stand in `idat`, and longer ones in `mdat`. A file of 888 bytes.
pub fn small_grids_stand_in_idat()
    ensures valid { Valid grids }
    ensures laid { laid own 4 888 grids ≡ file_of_grids }
{}

/// The bytes of an identity item stand in `mdat`. A file of 258 bytes.
pub fn identity_stands_in_mdat()
    ensures valid { Valid identity_with_bytes }
    ensures laid { laid own 4 258 identity_with_bytes ≡ file_of_identity_with_bytes }
{}
