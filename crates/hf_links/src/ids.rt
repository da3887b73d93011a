//! Ids one behind the other, as they are read and as they are written.

ghost use Rattle.std.specs.Prelude.{◌≡◌, ◌⊎◌, ◌<◌, ◌≤◌, ◌*◌, ◌^◌, true, false, length, IfOk, All};
ghost use Rattle.std.specs.List.{flat_map};
ghost use Rattle.hf_base.specs.Number.{num};
ghost use Rattle.hf_base.specs.Reading.{Gives, front, times};
ghost use Rattle.hf_box.specs.Written.{id_width};
ghost use Rattle.hf_desk.specs.Outside.{Outside};
ghost use Rattle.hf_desk.specs.Pages.{ByPut, Gives as GivesTo};

use hf_base::{Ids, OpenFault, ReadRefusal, be_put, front_id};
use hf_desk::{Desk, Page, Put, WriteFault};
use std::alloc::Global;

/// How many of so many ids of `width` bytes `len` bytes can hold.
fn room(width: u8, count: u32, len: usize) -> usize
    requires { (width ≡ 2) ⊎ (width ≡ 4) }
    ensures wanted { result ≤ count }
    ensures held { result * width ≤ len }
{
    (len / width as usize).min(count as usize)
}

/// So many ids of `width` bytes, one behind the other, and the bytes after them. Memory is asked for once,
/// and for no more ids than the bytes can hold.
pub fn front_ids<'a>(
    alloc: Global,
    width: u8,
    count: u32,
    bytes: &'a [u8],
    short: ReadRefusal,
) -> Result<(Ids, &'a [u8]), OpenFault>
    requires { (width ≡ 2) ⊎ (width ≡ 4) }
    ensures exact { Gives (λ x. (x.0, x.1.now)) result (times (front width short) count bytes.now) }
    ensures count { IfOk result (λ x. length x.0 ≡ count) }
{
    let mut ids = Ids::with_capacity(alloc, room(width, count, bytes.len()))?;
    let mut rest = bytes;
    for _ in 0..count {
        let (id, after) = front_id(width, rest, short)?;
        ids.push(id)?;
        rest = after;
    }
    Ok((ids, rest))
}

/// Gives an id to a page, in four bytes where `wide` and otherwise in two.
fn give_id<D: Desk>(
    id: u32,
    wide: bool,
    page: &mut Page<Put>,
    desk: &mut D,
) -> Result<(), WriteFault>
    requires creating { (D.outside desk.old).creating ≡ true }
    requires fits { id < 256 ^ id_width wide }
    ensures { GivesTo ByPut (D.outside desk.old) page.old (num id (id_width wide)) result (D.outside desk.new) page.new }
{
    if wide {
        let mut bytes = [0u8; 4];
        be_put(&mut bytes, 0, 4, id as u64);
        return page.give(&bytes, desk);
    }
    let mut bytes = [0u8; 2];
    be_put(&mut bytes, 0, 2, id as u64);
    page.give(&bytes, desk)
}

/// Gives ids to a page, in four bytes each where `wide` and otherwise in two. `WriteFault` comes only
/// where the desk failed; then some front of what the page held and of the ids was put.
pub fn give_ids<D: Desk>(
    ids: &[u32],
    wide: bool,
    page: &mut Page<Put>,
    desk: &mut D,
) -> Result<(), WriteFault>
    requires creating { (D.outside desk.old).creating ≡ true }
    requires fits { wide ≡ false → All (λ id. id < 256 ^ 2) ids.now }
    ensures { GivesTo ByPut (D.outside desk.old) page.old (flat_map (λ id. num id (id_width wide)) ids.now) result (D.outside desk.new) page.new }
{
    for id in ids {
        give_id(*id, wide, page, desk)?;
    }
    Ok(())
}
