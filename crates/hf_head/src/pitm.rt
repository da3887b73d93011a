//! `pitm`: PrimaryItemBox of ISO/IEC 14496-12.

ghost use Rattle.std.specs.Prelude.{◌≡◌, ◌<◌, ◌^◌, ℕ, List, true, false, IfOk, Ok};
ghost use Rattle.hf_base.specs.Reading.{Reads};
ghost use Rattle.hf_box.specs.Head.{box};
ghost use Rattle.hf_box.specs.Written.{id_width};
ghost use Rattle.hf_desk.specs.Outside.{Outside};
ghost use Rattle.hf_desk.specs.Calls.{Puts};
ghost use Rattle.hf_desk.specs.Pages.{ByPut, Gives};
ghost use Rattle.hf_head.specs.Pitm.{IsPitm, pitm_at, id_at, pitm_body};

use hf_base::kinds::PITM;
use hf_base::{ReadRefusal, be_put, front_version, front16, front32};
use hf_box::BoxView;
use hf_desk::{Desk, Page, Put, WriteFault};

/// The id behind a version and flags, with the place of its box.
#[tactic(auto, unfolding(crate::specs::Pitm::id_at))]
fn id_behind(version: u8, bytes: &[u8], at: u64) -> Result<u32, ReadRefusal>
    ensures { Reads (λ id. id) result (id_at version at bytes.now) }
{
    let short = ReadRefusal::BadRecord { kind: PITM, at };
    match version {
        0 => {
            let (id, _) = front16(bytes, short)?;
            Ok(u32::from(id))
        }
        1 => {
            let (id, _) = front32(bytes, short)?;
            Ok(id)
        }
        _ => Err(ReadRefusal::BadVersion { kind: PITM, at }),
    }
}

/// The id in a body, with the place of its box.
#[tactic(auto, unfolding(crate::specs::Pitm::pitm_at))]
fn id_in(body: &[u8], at: u64) -> Result<u32, ReadRefusal>
    ensures { Reads (λ id. id) result (pitm_at at body.now) }
{
    let (version, _, rest) = front_version(body, ReadRefusal::BadRecord { kind: PITM, at })?;
    id_behind(version, rest, at)
}

/// The same, of bytes.
fn pitm_in(body: &[u8], at: u64) -> Result<u32, ReadRefusal>
    ensures found { IfOk result (λ id. IsPitm body.now id) }
    ensures only { (id : ℕ) → IsPitm body.now id → result ≡ Ok id }
    ensures exact { Reads (λ id. id) result (pitm_at at body.now) }
{
    id_in(body, at)
}

/// Reads the id of the primary item from a `pitm`. BadRecord comes where the body is too short for
/// its fields, and BadVersion where the version is above 1.
pub fn read_pitm(view: &BoxView<'_>) -> Result<u32, ReadRefusal>
    requires { view.now.kind ≡ PITM }
    // What is read stands there.
    ensures found { IfOk result (λ id. IsPitm view.now.body.now id) }
    // What stands there is read.
    ensures only { (id : ℕ) → IsPitm view.now.body.now id → result ≡ Ok id }
    // Which refusal it is.
    ensures exact { Reads (λ id. id) result (pitm_at view.now.at view.now.body.now) }
{
    pitm_in(view.body, view.at)
}

/// A `pitm` with an id of two bytes, in version 0.
fn narrow_box(id: u32) -> [u8; 14]
    requires { id < 256 ^ 2 }
    ensures { result ≡ box PITM (pitm_body false id) }
{
    let mut bytes = [0u8; 14];
    be_put(&mut bytes, 0, 4, 14);
    bytes[4..8].copy_from_slice(&PITM.0);
    be_put(&mut bytes, 12, 2, id as u64);
    bytes
}

/// A `pitm` with an id of four bytes, in version 1.
fn wide_box(id: u32) -> [u8; 16]
    ensures { result ≡ box PITM (pitm_body true id) }
{
    let mut bytes = [0u8; 16];
    be_put(&mut bytes, 0, 4, 16);
    bytes[4..8].copy_from_slice(&PITM.0);
    bytes[8] = 1;
    be_put(&mut bytes, 12, 4, id as u64);
    bytes
}

/// Gives a whole `pitm` with the id of the primary item to a page; the id takes four bytes where `wide`
/// and two otherwise. `WriteFault` comes only where the desk failed; then some front of what the page
/// held and of the box was put.
pub fn give_pitm<D: Desk>(
    id: u32,
    wide: bool,
    page: &mut Page<Put>,
    desk: &mut D,
) -> Result<(), WriteFault>
    requires creating { (D.outside desk.old).creating ≡ true }
    requires fits { id < 256 ^ id_width wide }
    ensures { Gives ByPut (D.outside desk.old) page.old (box PITM (pitm_body wide id)) result (D.outside desk.new) page.new }
{
    if wide {
        return page.give(&wide_box(id), desk);
    }
    page.give(&narrow_box(id), desk)
}

/// Puts a whole `pitm` with the id of the primary item, which takes four bytes where `wide` and two
/// otherwise. `WriteFault` comes only where the desk failed; then some front of the box was put.
pub fn put_pitm<D: Desk>(id: u32, wide: bool, desk: &mut D) -> Result<(), WriteFault>
    requires creating { (D.outside desk.old).creating ≡ true }
    requires fits { id < 256 ^ id_width wide }
    ensures { Puts (D.outside desk.old) (box PITM (pitm_body wide id)) result (D.outside desk.new) }
{
    let mut page = Page::new();
    give_pitm(id, wide, &mut page, desk)?;
    page.end(desk)
}
