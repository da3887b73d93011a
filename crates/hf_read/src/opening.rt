//! A file is opened.

ghost use Rattle.std.specs.Prelude.{◌≡◌, ◌<◌, ◌≤◌, ◌^◌, true, length, All, IfOk, Ok, Err};
ghost use Rattle.std.specs.Option.{option_copied};
ghost use Rattle.hf_base.specs.Reading.{Gives, MatchOpen};
ghost use Rattle.hf_base.specs.declared.limits.TheConstants as limits;
ghost use Rattle.hf_box.specs.Boxes.{box_of, boxes_of, end_of};
ghost use Rattle.hf_box.specs.Framing.{frames};
ghost use Rattle.hf_head.specs.Ftyp.{brands_of as brands_stated};
ghost use Rattle.hf_store.specs.Seen.{stated};
ghost use Rattle.hf_store.specs.Store.{ItemStore};
ghost use Rattle.hf_read.specs.Denotes.{DenotesWithin};
ghost use Rattle.hf_read.specs.Opening.{IsStoreOf};
ghost use Rattle.hf_read.specs.Reading.{idat_of, reading, reading_parts};
ghost use Rattle.hf_read.specs.Seen.{parts_seen, HaveKinds};
ghost use Rattle.hf_read.specs.TopLevel.{brands_at};

use crate::derived::check_derived;
use crate::items::store_parts;
use crate::meta::MetaParts;
use crate::tables::read_tables;
use crate::top_level::{brands_of, meta_parts};
use hf_base::OpenFault;
use hf_box::{BoxView, read_boxes};
use hf_head::{Brands, read_hdlr, read_pitm};
use hf_store::{Parts, Store};
use std::alloc::Global;

/// The body of `idat`, if there is one.
fn idat_in<'a>(meta: &MetaParts<'a>) -> Option<&'a [u8]>
    ensures { option_copied result ≡ idat_of (parts_seen meta.now) }
{
    let idat = meta.idat?;
    Some(idat.body)
}

/// What the boxes of a `meta` make a store of, its limits aside.
fn sound_parts<'a>(
    alloc: Global,
    file: &'a [u8],
    brands: Brands<'a>,
    meta: &MetaParts<'a>,
) -> Result<Parts<'a>, OpenFault>
    requires { HaveKinds meta.now }
    ensures { MatchOpen result
        (λ parts. IsStoreOf file.now (brands_stated brands.entry) (parts_seen meta.now) (stated parts))
        (λ why. reading_parts file.now (brands_stated brands.entry) (parts_seen meta.now) ≡ Err why) }
{
    read_hdlr(&meta.hdlr)?;
    let primary = read_pitm(&meta.pitm)?;
    let tables = read_tables(alloc, primary, meta)?;
    let parts = store_parts(alloc, file, idat_in(meta), brands, primary, tables)?;
    check_derived(alloc, parts.items.as_slice())?;
    Ok(parts)
}

/// The store of a file with these boxes and brands, or the first reason why it is refused.
fn store_of<'a>(
    alloc: Global,
    file: &'a [u8],
    boxes: &[BoxView<'a>],
    brands: Brands<'a>,
) -> Result<Store<'a>, OpenFault>
    requires fits { length file.now ≤ limits.FILE }
    requires framed { frames true 0 file.now ≡ Ok (boxes_of boxes.now) }
    requires within { All (λ b. end_of (box_of b) < 2 ^ 64) boxes.now }
    requires brands { brands_at (boxes_of boxes.now) ≡ Ok (brands_stated brands) }
    ensures { Gives (λ store. store) result (reading file.now) }
{
    let meta = meta_parts(alloc, boxes)?;
    let parts = sound_parts(alloc, file, brands, &meta)?;
    Store::build(alloc, parts)
}

/// The store of a file, or the first reason why it is refused.
#[tactic(auto, unfolding(crate::specs::Reading::reading, crate::specs::TopLevel::top_of))]
fn opened<'a>(alloc: Global, file: &'a [u8]) -> Result<Store<'a>, OpenFault>
    requires { length file.now ≤ limits.FILE }
    ensures { Gives (λ store. store) result (reading file.now) }
{
    let boxes = read_boxes(alloc, file, 0, true)?;
    let brands = brands_of(&boxes)?;
    store_of(alloc, file, &boxes, brands)
}

/// Opens a file: the store that it denotes, or the first reason why it is refused. Which files are
/// refused, and the order of the reasons, is this project's own rule. `NoMemory` comes where memory
/// was refused. Payloads stay in the file.
pub fn open_store<'a>(alloc: Global, file: &'a [u8]) -> Result<Store<'a>, OpenFault>
    requires { length file.now ≤ limits.FILE }
    // What is opened is denoted, within the limits of reading.
    ensures found { IfOk result (λ store. DenotesWithin file.now store) }
    // What is denoted within the limits of reading is opened.
    ensures only { (s : ItemStore) → DenotesWithin file.now s → MatchOpen result (λ store. store ≡ s) (λ fault. ⊥) }
    // Which fault.
    ensures exact { Gives (λ store. store) result (reading file.now) }
{
    opened(alloc, file)
}
