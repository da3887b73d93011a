//! The bytes of items.

ghost use Rattle.std.specs.Prelude.{◌≡◌, true};
ghost use Rattle.std.specs.List.{flat_map};
ghost use Rattle.hf_desk.specs.Calls.{Puts};
ghost use Rattle.hf_desk.specs.Outside.{Outside};
ghost use Rattle.hf_desk.specs.Pages.{ByPut, Gives};
ghost use Rattle.hf_pieces.specs.Bytes.{joined};
ghost use Rattle.hf_store.specs.Seen.{item_of};
ghost use Rattle.hf_write.specs.Entries.{bytes_if};

use hf_desk::{Desk, Page, Put, WriteFault};
use hf_pieces::Pieces;
use hf_store::{Item, Store, in_idat};

/// Gives bytes, a piece at a time.
fn give_pieces<D: Desk>(
    pieces: &Pieces<'_>,
    page: &mut Page<Put>,
    desk: &mut D,
) -> Result<(), WriteFault>
    requires { (D.outside desk.old).creating ≡ true }
    ensures { Gives ByPut (D.outside desk.old) page.old (joined pieces.now) result (D.outside desk.new) page.new }
{
    for i in 0..pieces.count() {
        page.give(pieces.piece(i), desk)?;
    }
    Ok(())
}

/// Appends these bytes to the file that the desk made. `WriteFault` comes only where `write_faults`
/// rose; then some front of them was appended. It takes no memory.
pub fn put_pieces<D: Desk>(pieces: &Pieces<'_>, desk: &mut D) -> Result<(), WriteFault>
    requires { (D.outside desk.old).creating ≡ true }
    ensures { Puts (D.outside desk.old) (joined pieces.now) result (D.outside desk.new) }
{
    let mut page = Page::new();
    give_pieces(pieces, &mut page, desk)?;
    page.end(desk)
}

/// Gives the bytes of an item that stands in `idat`, where `inner`, or in `mdat`, where not; of another
/// one nothing.
fn give_body<D: Desk>(
    item: &Item<'_>,
    inner: bool,
    page: &mut Page<Put>,
    desk: &mut D,
) -> Result<(), WriteFault>
    requires { (D.outside desk.old).creating ≡ true }
    ensures { Gives ByPut (D.outside desk.old) page.old (bytes_if inner (item_of item.now)) result (D.outside desk.new) page.new }
{
    let is_inner = in_idat(item);
    if is_inner == inner {
        return give_pieces(&item.body, page, desk);
    }
    Ok(())
}

/// Gives the bytes of all items that stand in `idat`, where `inner`, or of all that stand in `mdat`,
/// where not.
pub(crate) fn give_bodies<D: Desk>(
    store: &Store<'_>,
    inner: bool,
    page: &mut Page<Put>,
    desk: &mut D,
) -> Result<(), WriteFault>
    requires { (D.outside desk.old).creating ≡ true }
    ensures { Gives ByPut (D.outside desk.old) page.old (flat_map (bytes_if inner) store.now.items) result (D.outside desk.new) page.new }
{
    for i in 0..store.len() {
        give_body(store.at(i), inner, page, desk)?;
    }
    Ok(())
}
