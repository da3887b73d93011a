//! `hdlr`: HandlerBox of ISO/IEC 14496-12.

ghost use Rattle.std.specs.Prelude.{◌≡◌, List, true, IsOk, OnOk};
ghost use Rattle.hf_base.specs.Reading.{Reads};
ghost use Rattle.hf_box.specs.Head.{box};
ghost use Rattle.hf_desk.specs.Outside.{Outside};
ghost use Rattle.hf_desk.specs.Calls.{Puts};
ghost use Rattle.hf_desk.specs.Pages.{ByPut, Gives};
ghost use Rattle.hf_head.specs.Hdlr.{IsHdlr, handler_at, hdlr_at, hdlr_body};

use hf_base::kinds::{HDLR, PICT};
use hf_base::{FourCc, ReadRefusal, be_put, front_kind, front_version, front32};
use hf_box::BoxView;
use hf_desk::{Desk, Page, Put, WriteFault};

/// The handler type in a body, with the place of its box.
#[tactic(auto, unfolding(crate::specs::Hdlr::handler_at))]
fn handler_in(body: &[u8], at: u64) -> Result<FourCc, ReadRefusal>
    ensures { Reads (λ kind. kind) result (handler_at at body.now) }
{
    let short = ReadRefusal::BadRecord { kind: HDLR, at };
    let (_version, _flags, rest) = front_version(body, short)?;
    let (_pre_defined, rest) = front32(rest, short)?;
    let (handler, rest) = front_kind(rest, short)?;
    let (_reserved, rest) = front32(rest, short)?;
    let (_reserved, rest) = front32(rest, short)?;
    front32(rest, short)?;
    Ok(handler)
}

/// Whether a body has the handler of pictures, with the place of its box.
#[tactic(auto, unfolding(crate::specs::Hdlr::hdlr_at))]
fn picture_in(body: &[u8], at: u64) -> Result<(), ReadRefusal>
    ensures { Reads (λ x. x) result (hdlr_at at body.now) }
{
    let handler = handler_in(body, at)?;
    if handler.is(PICT) {
        return Ok(());
    }
    Err(ReadRefusal::NotPicture)
}

/// The same, of bytes.
fn hdlr_in(body: &[u8], at: u64) -> Result<(), ReadRefusal>
    ensures found { OnOk result (IsHdlr body.now) }
    ensures only { IsHdlr body.now → IsOk result }
    ensures exact { Reads (λ x. x) result (hdlr_at at body.now) }
{
    picture_in(body, at)
}

/// Reads a `hdlr`, whose handler is to be that of pictures (ISO/IEC 23008-12). BadRecord comes where
/// the body is too short for the fields in front of the name, and NotPicture where the handler is
/// another one.
pub fn read_hdlr(view: &BoxView<'_>) -> Result<(), ReadRefusal>
    requires { view.now.kind ≡ HDLR }
    // It is read only where the handler stands there.
    ensures found { OnOk result (IsHdlr view.now.body.now) }
    // It is read where the handler stands there.
    ensures only { IsHdlr view.now.body.now → IsOk result }
    // Which refusal it is.
    ensures exact { Reads (λ x. x) result (hdlr_at view.now.at view.now.body.now) }
{
    hdlr_in(view.body, view.at)
}

/// A `hdlr` with the handler of pictures and no name.
fn picture_box() -> [u8; 33]
    ensures { result ≡ box HDLR hdlr_body }
{
    let mut bytes = [0u8; 33];
    be_put(&mut bytes, 0, 4, 33);
    bytes[4..8].copy_from_slice(&HDLR.0);
    bytes[16..20].copy_from_slice(&PICT.0);
    bytes
}

/// Gives a whole `hdlr` with the handler of pictures (ISO/IEC 23008-12) and no name to a page.
/// `WriteFault` comes only where the desk failed; then some front of what the page held and of the box
/// was put.
pub fn give_hdlr<D: Desk>(page: &mut Page<Put>, desk: &mut D) -> Result<(), WriteFault>
    requires { (D.outside desk.old).creating ≡ true }
    ensures { Gives ByPut (D.outside desk.old) page.old (box HDLR hdlr_body) result (D.outside desk.new) page.new }
{
    page.give(&picture_box(), desk)
}

/// Puts a whole `hdlr` with the handler of pictures (ISO/IEC 23008-12) and no name. `WriteFault` comes
/// only where the desk failed; then some front of the box was put.
pub fn put_hdlr<D: Desk>(desk: &mut D) -> Result<(), WriteFault>
    requires { (D.outside desk.old).creating ≡ true }
    ensures { Puts (D.outside desk.old) (box HDLR hdlr_body) result (D.outside desk.new) }
{
    let mut page = Page::new();
    give_hdlr(&mut page, desk)?;
    page.end(desk)
}
