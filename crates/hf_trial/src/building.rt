//! The store of a trial.

ghost use Rattle.std.specs.Prelude.{◌≡◌, ◌+◌, ◌^◌, ◌<◌, ◌≤◌, [], ◌∷◌, ◌++◌, length, map, IfOk, OnOk};
ghost use Rattle.std.specs.List.{flat_map, range_with_len};
ghost use Rattle.hf_head.specs.Ftyp.{brands_of};
ghost use Rattle.hf_pieces.specs.Bytes.{joined};
ghost use Rattle.hf_store.specs.Seen.{item_of, items_of, stated};
ghost use Rattle.hf_trial.specs.Bytes.{hvcc_body, ispe_body, tile_bytes, trial_bytes};
ghost use Rattle.hf_trial.specs.Trial.{essential_hvcc, exif_of, grid_of, heic as stated_heic, optional_ispe, tile as stated_tile, tile_of, trial_store_of};

use crate::shares::{Shares, shares_of};
use crate::tile::tile_size;
use hf_base::kinds::{CDSC, DIMG, EXIF, GRID, HEIC, HVC1, HVCC, ISPE};
use hf_base::{FourCc, Ids, NoMemory, OpenFault, Series};
use hf_head::Brands;
use hf_pieces::Pieces;
use hf_prop::{Body, Held, Prop};
use hf_store::{Item, ItemList, Parts, Props, RefList, Refs, Store};
use std::alloc::Global;

/// The brands of a trial.
fn heic() -> Brands<'static>
    ensures { brands_of result ≡ stated_heic }
{
    Brands {
        major: HEIC,
        minor: 0,
        compatible: b"mif1heic",
    }
}

/// A property of this type and with this body, as an item holds it.
fn held<'a>(essential: bool, kind: FourCc, body: &'a [u8]) -> Held<'a>
    ensures { result ≡ record { essential = essential; prop = record { kind = kind; body = body.now } } }
{
    Held {
        essential,
        prop: Prop {
            kind,
            body: Body::lent(body),
        },
    }
}

/// These bytes, where they lie. `NoMemory` comes where memory was refused.
fn pieces<'a>(alloc: Global, bytes: &'a [u8]) -> Result<Pieces<'a>, NoMemory>
    requires { length bytes.now ≤ 65521 }
    ensures { IfOk result (λ pieces. joined pieces ≡ bytes.now) }
{
    let mut pieces = Pieces::new(alloc);
    pieces.push(bytes)?;
    Ok(pieces)
}

/// The references of an item to one other, or to those of one type. `NoMemory` comes where memory was
/// refused.
fn one_list(alloc: Global, kind: FourCc, to: Ids) -> Result<Refs, NoMemory>
    ensures { IfOk result (λ refs. refs ≡ record { kind = kind; to = to } ∷ []) }
{
    let mut refs = Series::new(alloc);
    refs.push(RefList { kind, to })?;
    Ok(refs)
}

/// An item with this name that is made of these, and without other texts.
fn item<'a>(
    id: u32,
    kind: FourCc,
    hidden: bool,
    name: &'a [u8],
    body: Pieces<'a>,
    props: Props<'a>,
    refs: Refs,
) -> Item<'a>
    ensures { item_of result ≡ record { id = id; kind = kind; hidden = hidden; name = name.now; content = []; encoding = []; uri = []; bytes = joined body.entry; props = props.entry; refs = refs } }
{
    Item {
        id,
        kind,
        hidden,
        name,
        content: b"",
        encoding: b"",
        uri: b"",
        body,
        props,
        refs,
    }
}

/// The properties of a tile. `NoMemory` comes where memory was refused.
fn tile_props<'a>(alloc: Global, shares: Shares<'a>) -> Result<Props<'a>, NoMemory>
    ensures { IfOk result (λ props. props ≡ essential_hvcc shares.entry.hvcc.now ∷ optional_ispe shares.entry.tile_ispe.now ∷ []) }
{
    let mut props = Series::with_capacity(alloc, 2)?;
    props.push(held(true, HVCC, shares.hvcc))?;
    props.push(held(false, ISPE, shares.tile_ispe))?;
    Ok(props)
}

/// The tile of this id and with these bytes. `NoMemory` comes where memory was refused.
fn tile<'a>(
    alloc: Global,
    id: u32,
    bytes: &'a [u8],
    shares: Shares<'a>,
) -> Result<Item<'a>, NoMemory>
    requires { length bytes.now ≤ 65521 }
    ensures { IfOk result (λ item. item_of item ≡ tile_of id bytes.now shares.entry.hvcc.now shares.entry.tile_ispe.now) }
{
    let props = tile_props(alloc, shares)?;
    let body = pieces(alloc, bytes)?;
    let refs = Series::new(alloc);
    Ok(item(id, HVC1, true, b"", body, props, refs))
}

/// So many tiles, whose bytes and properties are these. `NoMemory` comes where memory was refused.
fn tiles<'a>(
    alloc: Global,
    seed: u32,
    count: u32,
    shares: Shares<'a>,
) -> Result<ItemList<'a>, NoMemory>
    requires bytes { shares.tiles.now ≡ flat_map (tile_bytes seed) (range_with_len 1 count) }
    requires hvcc { shares.hvcc.now ≡ hvcc_body seed }
    requires ispe { shares.tile_ispe.now ≡ ispe_body 64 64 }
    ensures { IfOk result (λ items. items_of items ≡ map (stated_tile seed) (range_with_len 1 count)) }
{
    let mut items = Series::new(alloc);
    let mut rest = shares.tiles;
    for k in 0..count {
        let (bytes, behind) = rest.split_at(tile_size(seed, k + 1));
        items.push(tile(alloc, k + 1, bytes, shares)?)?;
        rest = behind;
    }
    Ok(items)
}

/// So many ids from the first one on. `NoMemory` comes where memory was refused.
fn ids(alloc: Global, first: u32, count: u32) -> Result<Ids, NoMemory>
    requires { first + count < 2 ^ 32 }
    ensures { IfOk result (λ ids. ids ≡ range_with_len first count) }
{
    let mut ids = Ids::with_capacity(alloc, count as usize)?;
    for k in 0..count {
        ids.push(first + k)?;
    }
    Ok(ids)
}

/// The references of this type to so many items from the first id on. `NoMemory` comes where memory
/// was refused.
fn refs_to(alloc: Global, kind: FourCc, first: u32, count: u32) -> Result<Refs, NoMemory>
    requires { first + count < 2 ^ 32 }
    ensures { IfOk result (λ refs. refs ≡ record { kind = kind; to = range_with_len first count } ∷ []) }
{
    let to = ids(alloc, first, count)?;
    one_list(alloc, kind, to)
}

/// The properties of the grid. `NoMemory` comes where memory was refused.
fn grid_props<'a>(alloc: Global, ispe: &'a [u8]) -> Result<Props<'a>, NoMemory>
    ensures { IfOk result (λ props. props ≡ optional_ispe ispe.now ∷ []) }
{
    let mut props = Series::new(alloc);
    props.push(held(false, ISPE, ispe))?;
    Ok(props)
}

/// The grid of `n` rows. `NoMemory` comes where memory was refused.
fn grid<'a>(alloc: Global, n: u32, shares: Shares<'a>) -> Result<Item<'a>, NoMemory>
    requires few { n ≤ 256 }
    requires short { length shares.grid.now ≤ 65521 }
    ensures { IfOk result (λ item. item_of item ≡ grid_of n shares.entry.grid.now shares.entry.grid_ispe.now) }
{
    let refs = refs_to(alloc, DIMG, 1, 16 * n)?;
    let props = grid_props(alloc, shares.grid_ispe)?;
    let body = pieces(alloc, shares.grid)?;
    Ok(item(16 * n + 1, GRID, false, b"", body, props, refs))
}

/// The metadata of the grid of `n` rows. `NoMemory` comes where memory was refused.
fn exif<'a>(alloc: Global, n: u32, shares: Shares<'a>) -> Result<Item<'a>, NoMemory>
    requires few { n ≤ 256 }
    requires short { length shares.exif.now ≤ 65521 }
    ensures { IfOk result (λ item. item_of item ≡ exif_of n shares.entry.exif.now) }
{
    let refs = refs_to(alloc, CDSC, 16 * n + 1, 1)?;
    let body = pieces(alloc, shares.exif)?;
    let props = Series::new(alloc);
    Ok(item(16 * n + 2, EXIF, false, b"Exif", body, props, refs))
}

/// Adds the grid of `n` rows, and behind it its metadata. `NoMemory` comes where memory was refused.
fn push_grid<'a>(
    alloc: Global,
    items: &mut ItemList<'a>,
    n: u32,
    shares: Shares<'a>,
) -> Result<(), NoMemory>
    requires few { n ≤ 256 }
    requires grid { length shares.grid.now ≤ 65521 }
    requires exif { length shares.exif.now ≤ 65521 }
    ensures { OnOk result (items_of items.new ≡ items_of items.old ++ grid_of n shares.entry.grid.now shares.entry.grid_ispe.now ∷ exif_of n shares.entry.exif.now ∷ []) }
{
    items.push(grid(alloc, n, shares)?)?;
    items.push(exif(alloc, n, shares)?)?;
    Ok(())
}

/// The parts of the trial of `seed` and `n`. `NoMemory` comes where memory was refused.
fn parts<'a>(alloc: Global, seed: u32, n: u32, buffer: &'a [u8]) -> Result<Parts<'a>, NoMemory>
    requires few { n ≤ 256 }
    requires bytes { buffer.now ≡ trial_bytes seed n }
    ensures { IfOk result (λ parts. stated parts ≡ trial_store_of seed n) }
{
    let shares = shares_of(buffer);
    let mut items = tiles(alloc, seed, 16 * n, shares)?;
    push_grid(alloc, &mut items, n, shares)?;
    Ok(Parts {
        brands: heic(),
        primary: 16 * n + 1,
        items,
        groups: Series::new(alloc),
    })
}

/// The store of the trial of `seed` and `n`, whose bytes lie in the buffer that `trial_buffer` gives for them:
/// the hidden tiles 1 to 16 `n`, the grid, which is the primary, and the metadata. `NoMemory` comes where
/// memory was refused.
pub fn trial_store<'a>(
    alloc: Global,
    seed: u32,
    n: u32,
    buffer: &'a [u8],
) -> Result<Store<'a>, NoMemory>
    requires some { 1 ≤ n }
    requires few { n ≤ 256 }
    requires bytes { buffer.now ≡ trial_bytes seed n }
    ensures { IfOk result (λ store. store ≡ trial_store_of seed n) }
{
    let parts = parts(alloc, seed, n, buffer)?;
    match Store::build(alloc, parts) {
        Ok(store) => Ok(store),
        Err(OpenFault::NoMemory) => Err(NoMemory),
        // A trial passes no limit.
        Err(OpenFault::Unfit(_)) => unreachable!(),
    }
}
