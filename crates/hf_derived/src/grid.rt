//! The payload of a `grid`: ImageGrid of ISO/IEC 23008-12.

ghost use Rattle.std.specs.Prelude.{◌≡◌, List, ℕ, take, IfSome, Some};
ghost use Rattle.hf_pieces.specs.Bytes.{joined};
ghost use Rattle.hf_derived.specs.Grid.{IsGrid, grid_at};
ghost use Rattle.hf_derived.specs.declared.grid.Grid.{Grid as Stated};

use crate::side::{side_at, side_of};
use hf_pieces::Pieces;

/// What the payload of a `grid` says: an image of tiles of one size, row by row.
#[derive(Clone, Copy, PartialEq, Eq)]
pub struct Grid {
    /// Rows of tiles, 1 to 256.
    pub rows: u16,
    /// Tiles in a row, 1 to 256.
    pub columns: u16,
    /// The width of the image in pixels.
    pub width: u32,
    /// The height of the image in pixels.
    pub height: u32,
}

/// The grid that bytes begin with.
fn grid_in(bytes: &[u8]) -> Option<Grid>
    ensures { result ≡ grid_at bytes.now }
{
    if bytes.len() < 4 {
        return None;
    }
    let version = bytes[0];
    if version != 0 {
        return None;
    }
    let flags = bytes[1];
    let side = side_of(flags);
    if bytes.len() < 4 + 2 * side {
        return None;
    }
    Some(Grid {
        rows: bytes[2] as u16 + 1,
        columns: bytes[3] as u16 + 1,
        width: side_at(flags, bytes, 4),
        height: side_at(flags, bytes, 4 + side),
    })
}

/// The grid that bytes begin with, of which the first twelve are given.
fn grid_of(front: &[u8]) -> Option<Grid>
    ensures found { (bytes : List ℕ) → front.now ≡ take 12 bytes → IfSome result (λ grid. IsGrid bytes grid) }
    ensures only { (bytes : List ℕ) → front.now ≡ take 12 bytes → (grid : Stated) → IsGrid bytes grid → result ≡ Some grid }
    ensures exact { (bytes : List ℕ) → front.now ≡ take 12 bytes → result ≡ grid_at bytes }
{
    grid_in(front)
}

/// Reads the payload of a `grid` at the front of the bytes of an item. `None` comes exactly where the
/// version is not 0 or too few bytes are there. No memory is taken.
pub fn read_grid(body: &Pieces<'_>) -> Option<Grid>
    // What is read stands there.
    ensures found { IfSome result (λ grid. IsGrid (joined body.now) grid) }
    // What stands there is read.
    ensures only { (grid : Stated) → IsGrid (joined body.now) grid → result ≡ Some grid }
    // The same as a program.
    ensures exact { result ≡ grid_at (joined body.now) }
{
    let mut front = [0u8; 12];
    let count = body.copy_front(&mut front);
    grid_of(&front[..count])
}
