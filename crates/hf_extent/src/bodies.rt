//! The bytes of items where they lie, each found once, in an order of the items.

ghost use Rattle.std.specs.Option.{option_copied, ForSome};
ghost use Rattle.std.specs.Prelude.{◌≡◌, ◌<◌, ◌+◌, ◌++◌, ◌≤◌, ◌^◌, IfOk, OnOk, Ok, Some, IsSome, IfSome, length, map};
ghost use Rattle.hf_base.specs.BytesOf.{piece_of};
ghost use Rattle.hf_base.specs.LocationFaults.{locations_fault};
ghost use Rattle.hf_base.specs.Members.{Rises};
ghost use Rattle.hf_extent.specs.Bodies.{AreBytesOf};
ghost use Rattle.hf_extent.specs.Known.{named_piece, piece_by, bytes_by};
ghost use Rattle.hf_extent.specs.Places.{AreAt, links_from};
ghost use Rattle.hf_extent.specs.Seen.{item_seen, items_seen};
ghost use Rattle.hf_order.specs.Order.{IsOrder};
ghost use Rattle.hf_pieces.specs.Bytes.{joined};

use crate::items::Located;
use crate::sources::source;
use hf_base::{Extent, NoMemory};
use hf_pieces::Pieces;
use std::alloc::Global;

/// What an extent takes of a source that is lent, behind other pieces.
fn add_part<'a>(
    pieces: &mut Pieces<'a>,
    source: &'a [u8],
    base: u64,
    extent: &Extent,
) -> Result<(), NoMemory>
    requires there { IsSome (piece_of base extent.now (Some source.now)) }
    requires room { ForSome (piece_of base extent.now (Some source.now)) (λ p. length (joined pieces.old) + length p ≤ 2 ^ 62) }
    ensures { IfSome (piece_of base extent.now (Some source.now)) (λ p. OnOk result (joined pieces.new ≡ joined pieces.old ++ p)) }
{
    if extent.length == 0 {
        return pieces.push(source);
    }
    let start = (base + extent.offset) as usize;
    pieces.push(&source[start..start + extent.length as usize])
}

/// What an extent takes of another item, behind other pieces.
fn add_cut<'a>(
    pieces: &mut Pieces<'a>,
    source: &Pieces<'a>,
    base: u64,
    extent: &Extent,
) -> Result<(), NoMemory>
    requires there { IsSome (piece_of base extent.now (Some (joined source.now))) }
    requires room { ForSome (piece_of base extent.now (Some (joined source.now))) (λ p. length (joined pieces.old) + length p ≤ 2 ^ 62) }
    ensures { IfSome (piece_of base extent.now (Some (joined source.now))) (λ p. OnOk result (joined pieces.new ≡ joined pieces.old ++ p)) }
{
    let len = source.len();
    if extent.length == 0 {
        return pieces.append_cut(source, 0, len);
    }
    pieces.append_cut(source, base + extent.offset, extent.length)
}

/// What an extent takes of the item that it names, behind other pieces.
fn add_named<'a>(
    pieces: &mut Pieces<'a>,
    ids: &[u32],
    item: &Located<'_>,
    extent: &Extent,
    bodies: &[Pieces<'a>],
) -> Result<(), NoMemory>
    requires rising { Rises ◌<◌ ids.now }
    requires known { length bodies.now ≡ length ids.now }
    requires there { IsSome (named_piece ids.now (map joined bodies.now) (item_seen item.now) extent.now) }
    requires room { ForSome (named_piece ids.now (map joined bodies.now) (item_seen item.now) extent.now) (λ p. length (joined pieces.old) + length p ≤ 2 ^ 62) }
    ensures { IfSome (named_piece ids.now (map joined bodies.now) (item_seen item.now) extent.now) (λ p. OnOk result (joined pieces.new ≡ joined pieces.old ++ p)) }
{
    match source(ids, item, extent) {
        Some(at) => add_cut(pieces, &bodies[at], item.base, extent),
        None => Ok(()),
    }
}

/// What an extent takes of its source, behind other pieces.
fn add_piece<'a>(
    pieces: &mut Pieces<'a>,
    file: &'a [u8],
    idat: Option<&'a [u8]>,
    ids: &[u32],
    item: &Located<'_>,
    extent: &Extent,
    bodies: &[Pieces<'a>],
) -> Result<(), NoMemory>
    requires rising { Rises ◌<◌ ids.now }
    requires known { length bodies.now ≡ length ids.now }
    requires there { IsSome (piece_by file.now (option_copied idat) ids.now (map joined bodies.now) (item_seen item.now) extent.now) }
    requires room { ForSome (piece_by file.now (option_copied idat) ids.now (map joined bodies.now) (item_seen item.now) extent.now) (λ p. length (joined pieces.old) + length p ≤ 2 ^ 62) }
    ensures { IfSome (piece_by file.now (option_copied idat.entry) ids.now (map joined bodies.now) (item_seen item.now) extent.now) (λ p. OnOk result (joined pieces.new ≡ joined pieces.old ++ p)) }
{
    if item.method == 2 {
        return add_named(pieces, ids, item, extent, bodies);
    }
    if item.method == 1 {
        return match idat {
            Some(inner) => add_part(pieces, inner, item.base, extent),
            None => Ok(()),
        };
    }
    add_part(pieces, file, item.base, extent)
}

/// The bytes of an item, where those of the items that it takes bytes from are known.
fn body<'a>(
    alloc: Global,
    file: &'a [u8],
    idat: Option<&'a [u8]>,
    ids: &[u32],
    item: &Located<'_>,
    bodies: &[Pieces<'a>],
) -> Result<Pieces<'a>, NoMemory>
    requires rising { Rises ◌<◌ ids.now }
    requires known { length bodies.now ≡ length ids.now }
    requires there { IsSome (bytes_by file.now (option_copied idat) ids.now (map joined bodies.now) (item_seen item.now)) }
    requires room { ForSome (bytes_by file.now (option_copied idat) ids.now (map joined bodies.now) (item_seen item.now)) (λ b. length b ≤ 2 ^ 62) }
    ensures { IfOk result (λ p. bytes_by file.now (option_copied idat.entry) ids.now (map joined bodies.now) (item_seen item.now) ≡ Some (joined p)) }
{
    let mut pieces = Pieces::new(alloc);
    for extent in item.extents {
        add_piece(&mut pieces, file, idat, ids, item, extent, bodies)?;
    }
    Ok(pieces)
}

/// So many items without bytes.
fn empty<'a>(alloc: Global, count: usize) -> Result<Vec<Pieces<'a>>, NoMemory>
    ensures { IfOk result (λ bodies. length bodies.items ≡ count) }
{
    let mut bodies = Vec::with_capacity(alloc, count)?;
    for _ in 0..count {
        bodies.push(Pieces::new(alloc))?;
    }
    Ok(bodies)
}

/// The bytes of each item.
pub fn bodies<'a>(
    alloc: Global,
    file: &'a [u8],
    idat: Option<&'a [u8]>,
    ids: &[u32],
    items: &[Located<'_>],
    order: &[usize],
) -> Result<Vec<Pieces<'a>>, NoMemory>
    requires rising { Rises ◌<◌ ids.now }
    requires known { AreAt ids.now (items_seen items.now) }
    requires ordered { IsOrder (length ids.now) (links_from ids.now 0 (items_seen items.now)) order.now }
    requires faultless { locations_fault file.now (option_copied idat) (items_seen items.now) ≡ Ok tt }
    ensures { IfOk result (λ bodies. AreBytesOf file.now (option_copied idat.entry) (items_seen items.now) bodies.items) }
{
    let mut bodies = empty(alloc, ids.len())?;
    for at in order {
        let made = body(alloc, file, idat, ids, &items[*at], &bodies)?;
        let _empty = std::mem::replace(&mut bodies[*at], made);
    }
    Ok(bodies)
}
