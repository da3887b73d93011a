//! Files of many bytes: items that share them, over a desk that counts what is made.

use crate::making::{put_box, put_info, words_of};
use crate::parts::{HDLR, ONE, PITM};
use hf_app::run;
use hf_desk::CountingDesk;
use hf_text::Outcome;
use std::alloc::Global;
use std::test::Fail;

/// The bytes that the items share.
const RANGE: u32 = 67_108_864;

/// The bytes that the items share, in the `mdat` of a file at 24.
fn shared(alloc: Global) -> Result<Vec<u8>, Fail> {
    let mut data = Vec::new(alloc);
    data.resize(67_108_864, 0)?;
    let mut file = Vec::from_slice(alloc, &ONE[..24])?;
    put_box(&mut file, b"mdat", &[&data])?;
    Ok(file)
}

/// Puts the tables of so many items over all of these bytes, but the last over the first `last` of them:
/// the bodies of `iinf` and of `iloc`.
fn put_tables(
    infos: &mut Vec<u8>,
    places: &mut Vec<u8>,
    count: u16,
    last: u32,
) -> Result<(), Fail> {
    infos.extend_from_slice(b"\0\0\0\0")?;
    infos.extend_from_slice(&count.to_be_bytes())?;
    places.extend_from_slice(b"\x01\0\0\0\x44\0")?;
    places.extend_from_slice(&count.to_be_bytes())?;
    for id in 1..count.saturating_add(1) {
        let size = if id == count { last } else { RANGE };
        put_info(infos, id)?;
        places.extend_from_slice(&id.to_be_bytes())?;
        places.extend_from_slice(b"\0\0\0\0\0\x01\0\0\0\x20")?;
        places.extend_from_slice(&size.to_be_bytes())?;
    }
    Ok(())
}

/// Puts the boxes of a `meta` with these tables.
fn put_boxes(boxes: &mut Vec<u8>, infos: &[u8], places: &[u8]) -> Result<(), Fail> {
    boxes.extend_from_slice(b"\0\0\0\0")?;
    boxes.extend_from_slice(HDLR)?;
    boxes.extend_from_slice(PITM)?;
    put_box(boxes, b"iinf", &[infos])?;
    put_box(boxes, b"iloc", &[places])
}

/// Puts a `meta` behind a file: so many items over all of these bytes, but the last over the first `last`
/// of them.
fn put_items(file: &mut Vec<u8>, alloc: Global, count: u16, last: u32) -> Result<(), Fail> {
    let mut infos = Vec::new(alloc);
    let mut places = Vec::new(alloc);
    let mut boxes = Vec::new(alloc);
    put_tables(&mut infos, &mut places, count, last)?;
    put_boxes(&mut boxes, &infos, &places)?;
    put_box(file, b"meta", &[&boxes])
}

#[test]
fn offsets_take_eight_bytes_from_2_32_on(rt: HostRuntime) -> Result<(), Fail> {
    let cases: [(u16, u32, u64); 6] = [
        (16, RANGE, 1_073_742_569),
        (17, RANGE, 1_140_851_470),
        (63, RANGE, 4_227_860_916),
        (64, 67_106_342, 4_294_967_295),
        (64, 67_106_343, 4_294_967_808),
        (70, RANGE, 4_697_623_791),
    ];
    let words = words_of(rt.alloc(), &["edit", "a", "b"])?;
    let mut file = shared(rt.alloc())?;
    for (count, last, length) in &cases {
        file.truncate(67_108_896);
        put_items(&mut file, rt.alloc(), *count, *last)?;
        let mut desk = CountingDesk::new();
        desk.add("a", &file);
        assert!(rt; matches!(run(rt.alloc(), &words, &mut desk), Outcome::Done));
        assert_eq!(rt; desk.made_len(), *length);
    }
    Ok(())
}
