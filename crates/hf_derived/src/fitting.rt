//! Whether the payload of a derived item fits what it is made of (ISO/IEC 23008-12).

ghost use Rattle.std.specs.Prelude.{◌≡◌};
ghost use Rattle.hf_pieces.specs.Bytes.{joined};
ghost use Rattle.hf_derived.specs.Derived.{fits as payload_fits};

use crate::grid::read_grid;
use crate::overlay::read_overlay;
use hf_base::FourCc;
use hf_base::kinds::{GRID, IDEN, IOVL};
use hf_pieces::Pieces;

/// Whether the bytes of an item of this type fit so many inputs: a `grid` has as many as cells, an
/// `iovl` two offsets for each, and an `iden` has one. Other types are not looked at. No memory is
/// taken.
pub fn fits(kind: FourCc, body: &Pieces<'_>, inputs: usize) -> bool
    ensures { result ≡ payload_fits kind (joined body.now) inputs }
{
    if kind.is(GRID) {
        return match read_grid(body) {
            Some(grid) => grid.rows as usize * grid.columns as usize == inputs,
            None => false,
        };
    }
    if kind.is(IOVL) {
        return read_overlay(body, inputs).is_some();
    }
    if kind.is(IDEN) {
        return inputs == 1;
    }
    true
}
