//! Entries of `iloc` as a canonical file has them (ItemLocationBox of ISO/IEC 14496-12).

ghost use Rattle.std.specs.Prelude.{◌≡◌, ◌≤◌, ◌<◌, ◌^◌, ◌++◌, ℕ, true, length};
ghost use Rattle.hf_base.specs.Number.{num};
ghost use Rattle.hf_box.specs.Written.{id_width};
ghost use Rattle.hf_desk.specs.Outside.{Outside};
ghost use Rattle.hf_desk.specs.Calls.{Puts};
ghost use Rattle.hf_desk.specs.Pages.{ByPut, Gives};
ghost use Rattle.hf_loc.specs.Iloc.{offset_width, iloc_entry};

use hf_base::be_put;
use hf_desk::{Desk, Page, Put, WriteFault};

/// The length of an entry with one extent, in bytes: ids take four bytes where `wide` and two
/// otherwise, offsets and lengths eight where `long` and four otherwise.
pub fn entry_size(wide: bool, long: bool) -> u64
    ensures { (id method offset len : ℕ) → result ≡ length (iloc_entry wide (offset_width long) id method offset len) }
{
    let id = if wide { 4 } else { 2 };
    let number = if long { 8 } else { 4 };
    id + 6 + 2 * number
}

/// What stands in an entry in front of its extent, with an id of two bytes.
fn narrow_place(id: u32, method: u8) -> [u8; 8]
    requires { id < 256 ^ 2 }
    ensures { result ≡ num id 2 ++ num method 2 ++ num 0 2 ++ num 1 2 }
{
    let mut bytes = [0u8; 8];
    be_put(&mut bytes, 0, 2, id as u64);
    bytes[3] = method;
    bytes[7] = 1;
    bytes
}

/// The same, with an id of four bytes.
fn wide_place(id: u32, method: u8) -> [u8; 10]
    ensures { result ≡ num id 4 ++ num method 2 ++ num 0 2 ++ num 1 2 }
{
    let mut bytes = [0u8; 10];
    be_put(&mut bytes, 0, 4, id as u64);
    bytes[5] = method;
    bytes[9] = 1;
    bytes
}

/// An extent of numbers of four bytes.
fn short_extent(offset: u64, length: u64) -> [u8; 8]
    requires offset { offset < 256 ^ 4 }
    requires length { length < 256 ^ 4 }
    ensures { result ≡ num offset 4 ++ num length 4 }
{
    let mut bytes = [0u8; 8];
    be_put(&mut bytes, 0, 4, offset);
    be_put(&mut bytes, 4, 4, length);
    bytes
}

/// An extent of numbers of eight bytes.
fn long_extent(offset: u64, length: u64) -> [u8; 16]
    ensures { result ≡ num offset 8 ++ num length 8 }
{
    let mut bytes = [0u8; 16];
    be_put(&mut bytes, 0, 8, offset);
    be_put(&mut bytes, 8, 8, length);
    bytes
}

/// Gives what stands in an entry in front of its extent to a page.
fn give_place<D: Desk>(
    id: u32,
    method: u8,
    wide: bool,
    page: &mut Page<Put>,
    desk: &mut D,
) -> Result<(), WriteFault>
    requires creating { (D.outside desk.old).creating ≡ true }
    requires fits { id < 256 ^ id_width wide }
    ensures { Gives ByPut (D.outside desk.old) page.old (num id (id_width wide) ++ num method 2 ++ num 0 2 ++ num 1 2) result (D.outside desk.new) page.new }
{
    if wide {
        return page.give(&wide_place(id, method), desk);
    }
    page.give(&narrow_place(id, method), desk)
}

/// Gives an extent to a page.
fn give_extent<D: Desk>(
    offset: u64,
    length: u64,
    long: bool,
    page: &mut Page<Put>,
    desk: &mut D,
) -> Result<(), WriteFault>
    requires creating { (D.outside desk.old).creating ≡ true }
    requires offset { offset < 256 ^ offset_width long }
    requires length { length < 256 ^ offset_width long }
    ensures { Gives ByPut (D.outside desk.old) page.old (num offset (offset_width long) ++ num length (offset_width long)) result (D.outside desk.new) page.new }
{
    if long {
        return page.give(&long_extent(offset, length), desk);
    }
    page.give(&short_extent(offset, length), desk)
}

/// Gives an entry with one extent to a page: an item's id, the construction method, and the place
/// and the number of its bytes. The id takes four bytes where `wide` and two otherwise, the place and
/// the number eight where `long` and four otherwise. `WriteFault` comes only where the desk failed;
/// then some front of what the page held and of the entry was put.
pub fn give_entry<D: Desk>(
    id: u32,
    method: u8,
    offset: u64,
    length: u64,
    wide: bool,
    long: bool,
    page: &mut Page<Put>,
    desk: &mut D,
) -> Result<(), WriteFault>
    requires creating { (D.outside desk.old).creating ≡ true }
    requires id { id < 256 ^ id_width wide }
    requires method { method ≤ 2 }
    requires offset { offset < 256 ^ offset_width long }
    requires length { length < 256 ^ offset_width long }
    ensures { Gives ByPut (D.outside desk.old) page.old (iloc_entry wide (offset_width long) id method offset length) result (D.outside desk.new) page.new }
{
    give_place(id, method, wide, page, desk)?;
    give_extent(offset, length, long, page, desk)
}

/// Puts an entry with one extent. The id takes four bytes where `wide` and two otherwise, the place and
/// the number of the bytes eight where `long` and four otherwise. `WriteFault` comes only where the
/// desk failed; then some front of the entry was put.
pub fn put_entry<D: Desk>(
    id: u32,
    method: u8,
    offset: u64,
    length: u64,
    wide: bool,
    long: bool,
    desk: &mut D,
) -> Result<(), WriteFault>
    requires creating { (D.outside desk.old).creating ≡ true }
    requires id { id < 256 ^ id_width wide }
    requires method { method ≤ 2 }
    requires offset { offset < 256 ^ offset_width long }
    requires length { length < 256 ^ offset_width long }
    ensures { Puts (D.outside desk.old) (iloc_entry wide (offset_width long) id method offset length) result (D.outside desk.new) }
{
    let mut page = Page::new();
    give_entry(id, method, offset, length, wide, long, &mut page, desk)?;
    page.end(desk)
}
