//! What the parts of a trial's bytes are.

ghost use Rattle.std.specs.Prelude.{◌≤◌, length};
ghost use Rattle.hf_trial.specs.Shares.{AreShares};

/// The parts of the bytes that a trial is made of, in their order.
#[derive(Clone, Copy)]
pub(crate) struct Shares<'a> {
    /// The bytes of the tiles, by rising id.
    pub tiles: &'a [u8],
    /// The payload of the grid.
    pub grid: &'a [u8],
    /// The bytes of the metadata.
    pub exif: &'a [u8],
    /// The body of the `hvcC` of the tiles.
    pub hvcc: &'a [u8],
    /// The body of the `ispe` of the tiles.
    pub tile_ispe: &'a [u8],
    /// The body of the `ispe` of the grid.
    pub grid_ispe: &'a [u8],
}

/// The shares of some bytes: the last 56 are those that are no bytes of tiles.
pub(crate) fn shares_of<'a>(bytes: &'a [u8]) -> Shares<'a>
    requires { 56 ≤ length bytes.now }
    ensures { AreShares result bytes.now }
{
    let (tiles, rest) = bytes.split_at(bytes.len() - 56);
    let (grid, rest) = rest.split_at(8);
    let (exif, rest) = rest.split_at(20);
    let (hvcc, rest) = rest.split_at(4);
    let (tile_ispe, grid_ispe) = rest.split_at(12);
    Shares {
        tiles,
        grid,
        exif,
        hvcc,
        tile_ispe,
        grid_ispe,
    }
}
