//! `infe` as it is written: ItemInfoEntry of ISO/IEC 14496-12.

ghost use Rattle.std.specs.Prelude.{◌≡◌, ◌+◌, ◌-◌, ◌++◌, ◌<◌, ◌≤◌, ◌^◌, true, false, min, length};
ghost use Rattle.hf_base.specs.declared.limits.TheConstants.{META};
ghost use Rattle.hf_box.specs.Written.{bit, id_width, zero_ended};
ghost use Rattle.hf_desk.specs.Outside.{Outside};
ghost use Rattle.hf_desk.specs.Calls.{Puts};
ghost use Rattle.hf_desk.specs.Pages.{ByPut, Gives};
ghost use Rattle.hf_info.specs.Texts.{zero_ended_if_any};
ghost use Rattle.hf_info.specs.Infe.{info_of, content_text, uri_text, infe_body, infe_box, infe_front};

use crate::infe::Info;
use hf_base::kinds::{INFE, MIME, URI};
use hf_base::{FourCc, be_put};
use hf_desk::{Desk, Page, Put, WriteFault};

// ---- how long

/// The length of a string and of the zero byte that ends it.
fn text_len(text: &[u8]) -> u64
    ensures { result ≡ length (zero_ended text.now) }
{
    text.len() as u64 + 1
}

/// The same of a string that is left out where it is empty.
fn text_len_if_any(text: &[u8]) -> u64
    ensures { result ≡ length (zero_ended_if_any text.now) }
{
    if text.is_empty() {
        return 0;
    }
    text_len(text)
}

/// The length of the strings of a `mime`, or 2^64 - 1 where it is greater.
fn content_len(info: &Info<'_>) -> u64
    ensures { result ≡ min (length (content_text (info_of info.now))) (2 ^ 64 - 1) }
{
    if info.kind != MIME {
        return 0;
    }
    text_len(info.content).saturating_add(text_len_if_any(info.encoding))
}

/// The length of the URI of a `uri `.
fn uri_len(info: &Info<'_>) -> u64
    ensures { result ≡ length (uri_text (info_of info.now)) }
{
    if info.kind != URI {
        return 0;
    }
    text_len(info.uri)
}

/// The length of the fields in front of the strings: version and flags, id, protection index and
/// type.
fn fields_len(kind: FourCc, wide: bool) -> u64
    ensures { result ≡ 6 + id_width wide + length kind.0 }
{
    let kind = kind.0.len() as u64;
    if wide {
        return 4 + 4 + 2 + kind;
    }
    4 + 2 + 2 + kind
}

/// The length of the body, or 2^64 - 1 where it is greater.
fn body_len(info: &Info<'_>, wide: bool) -> u64
    ensures { result ≡ min (length (infe_body wide (info_of info.now))) (2 ^ 64 - 1) }
{
    let fields = fields_len(info.kind, wide);
    let name = text_len(info.name);
    let content = content_len(info);
    let uri = uri_len(info);
    fields
        .saturating_add(name)
        .saturating_add(content)
        .saturating_add(uri)
}

/// The length of the entry as it is written, header included, or 2^64 - 1 where it is greater; the id
/// takes four bytes where `wide` and two otherwise.
pub fn infe_size(info: &Info<'_>, wide: bool) -> u64
    ensures { result ≡ min (length (infe_box wide (info_of info.now))) (2 ^ 64 - 1) }
{
    let body = body_len(info, wide);
    if body < 0xffff_fff8 {
        return body + 8;
    }
    body.saturating_add(16)
}

// ---- the bytes

/// The hidden mark as a flag.
fn mark_of(hidden: bool) -> u8
    ensures { result ≡ bit hidden }
{
    if hidden {
        return 1;
    }
    0
}

/// The header of a box of this size, and the fields in front of the strings, with an id of two bytes
/// in version 2.
fn narrow_front(info: &Info<'_>, size: u64) -> [u8; 20]
    requires narrow { info.now.id < 256 ^ 2 }
    requires size { size < 256 ^ 4 }
    ensures { result ≡ infe_front false size (info_of info.now) }
{
    let mut bytes = [0u8; 20];
    be_put(&mut bytes, 0, 4, size);
    bytes[4..8].copy_from_slice(&INFE.0);
    bytes[8] = 2;
    bytes[11] = mark_of(info.hidden);
    be_put(&mut bytes, 12, 2, info.id as u64);
    bytes[16..20].copy_from_slice(&info.kind.0);
    bytes
}

/// The same, with an id of four bytes in version 3.
fn wide_front(info: &Info<'_>, size: u64) -> [u8; 22]
    requires { size < 256 ^ 4 }
    ensures { result ≡ infe_front true size (info_of info.now) }
{
    let mut bytes = [0u8; 22];
    be_put(&mut bytes, 0, 4, size);
    bytes[4..8].copy_from_slice(&INFE.0);
    bytes[8] = 3;
    bytes[11] = mark_of(info.hidden);
    be_put(&mut bytes, 12, 4, info.id as u64);
    bytes[18..22].copy_from_slice(&info.kind.0);
    bytes
}

/// Gives them to a page, with an id of this width.
fn give_front<D: Desk>(
    info: &Info<'_>,
    wide: bool,
    size: u64,
    page: &mut Page<Put>,
    desk: &mut D,
) -> Result<(), WriteFault>
    requires creating { (D.outside desk.old).creating ≡ true }
    requires fits { info.now.id < 256 ^ id_width wide }
    requires size { size < 256 ^ 4 }
    ensures { Gives ByPut (D.outside desk.old) page.old (infe_front wide size (info_of info.now)) result (D.outside desk.new) page.new }
{
    if wide {
        return page.give(&wide_front(info, size), desk);
    }
    page.give(&narrow_front(info, size), desk)
}

/// Gives a string and the zero byte that ends it to a page.
fn give_text<D: Desk>(text: &[u8], page: &mut Page<Put>, desk: &mut D) -> Result<(), WriteFault>
    requires { (D.outside desk.old).creating ≡ true }
    ensures { Gives ByPut (D.outside desk.old) page.old (zero_ended text.now) result (D.outside desk.new) page.new }
{
    page.give(text, desk)?;
    page.give(&[0], desk)
}

/// The same of a string that is left out where it is empty.
fn give_text_if_any<D: Desk>(
    text: &[u8],
    page: &mut Page<Put>,
    desk: &mut D,
) -> Result<(), WriteFault>
    requires { (D.outside desk.old).creating ≡ true }
    ensures { Gives ByPut (D.outside desk.old) page.old (zero_ended_if_any text.now) result (D.outside desk.new) page.new }
{
    if text.is_empty() {
        return Ok(());
    }
    give_text(text, page, desk)
}

/// Gives a string to a page, and behind it one that is left out where it is empty.
fn give_texts<D: Desk>(
    first: &[u8],
    second: &[u8],
    page: &mut Page<Put>,
    desk: &mut D,
) -> Result<(), WriteFault>
    requires { (D.outside desk.old).creating ≡ true }
    ensures { Gives ByPut (D.outside desk.old) page.old (zero_ended first.now ++ zero_ended_if_any second.now) result (D.outside desk.new) page.new }
{
    give_text(first, page, desk)?;
    give_text_if_any(second, page, desk)
}

/// Gives the strings of a `mime` to a page, and nothing for another type.
fn give_content<D: Desk>(
    info: &Info<'_>,
    page: &mut Page<Put>,
    desk: &mut D,
) -> Result<(), WriteFault>
    requires { (D.outside desk.old).creating ≡ true }
    ensures { Gives ByPut (D.outside desk.old) page.old (content_text (info_of info.now)) result (D.outside desk.new) page.new }
{
    if info.kind != MIME {
        return Ok(());
    }
    give_texts(info.content, info.encoding, page, desk)
}

/// Gives the URI of a `uri ` to a page, and nothing for another type.
fn give_uri<D: Desk>(info: &Info<'_>, page: &mut Page<Put>, desk: &mut D) -> Result<(), WriteFault>
    requires { (D.outside desk.old).creating ≡ true }
    ensures { Gives ByPut (D.outside desk.old) page.old (uri_text (info_of info.now)) result (D.outside desk.new) page.new }
{
    if info.kind != URI {
        return Ok(());
    }
    give_text(info.uri, page, desk)
}

/// Gives a whole `infe` to a page; the id takes four bytes where `wide` and two otherwise.
/// `WriteFault` comes only where the desk failed; then some front of what the page held and of the
/// box was put.
pub fn give_infe<D: Desk>(
    info: &Info<'_>,
    wide: bool,
    page: &mut Page<Put>,
    desk: &mut D,
) -> Result<(), WriteFault>
    requires creating { (D.outside desk.old).creating ≡ true }
    requires size { length (infe_box wide (info_of info.now)) ≤ META }
    requires fits { info.now.id < 256 ^ id_width wide }
    ensures { Gives ByPut (D.outside desk.old) page.old (infe_box wide (info_of info.now)) result (D.outside desk.new) page.new }
{
    give_front(info, wide, infe_size(info, wide), page, desk)?;
    give_text(info.name, page, desk)?;
    give_content(info, page, desk)?;
    give_uri(info, page, desk)
}

/// Puts a whole `infe`; the id takes four bytes where `wide` and two otherwise. `WriteFault` comes only
/// where the desk failed; then some front of the box was put.
pub fn put_infe<D: Desk>(info: &Info<'_>, wide: bool, desk: &mut D) -> Result<(), WriteFault>
    requires creating { (D.outside desk.old).creating ≡ true }
    requires size { length (infe_box wide (info_of info.now)) ≤ META }
    requires fits { info.now.id < 256 ^ id_width wide }
    ensures { Puts (D.outside desk.old) (infe_box wide (info_of info.now)) result (D.outside desk.new) }
{
    let mut page = Page::new();
    give_infe(info, wide, &mut page, desk)?;
    page.end(desk)
}
