//! `infe`: ItemInfoEntry of ISO/IEC 14496-12.

ghost use Rattle.std.specs.Prelude.{◌≡◌, ◌⊎◌, [], if◌then◌else◌, map};
ghost use Rattle.hf_base.specs.Reading.{Reads};
ghost use Rattle.hf_base.specs.declared.kinds.TheConstants.{MIME as mime, URI as uri};
ghost use Rattle.hf_box.specs.Walk.{is_kind};
ghost use Rattle.hf_info.specs.Texts.{text_at, behind_text};
ghost use Rattle.hf_info.specs.Infe.{info_of, info_with as stated_with, fields_at, infe_at};

use crate::text::front_text;
use hf_base::kinds::{INFE, MIME, URI};
use hf_base::{FourCc, ReadRefusal, front_id, front_kind, front_version, front16, id_width};

/// What a file says of an item (ItemInfoEntry of ISO/IEC 14496-12). No string has a zero byte.
#[derive(Clone, Copy)]
pub struct Info<'a> {
    /// The id of the item, at least 1.
    pub id: u32,
    /// The type of the item.
    pub kind: FourCc,
    /// Whether the item is not to be shown (ISO/IEC 23008-12).
    pub hidden: bool,
    /// The name.
    pub name: &'a [u8],
    /// The content type of a `mime`; empty for every other type.
    pub content: &'a [u8],
    /// The content encoding of a `mime`; empty for every other type.
    pub encoding: &'a [u8],
    /// The URI that is the type of a `uri `; empty for every other type.
    pub uri: &'a [u8],
}

/// The content type and encoding of an item of this type, in the bytes behind its name.
fn content_in<'a>(kind: FourCc, bytes: &'a [u8]) -> (&'a [u8], &'a [u8])
    ensures content { result.0.now ≡ (if is_kind kind mime then text_at bytes.now else []) }
    ensures encoding { result.1.now ≡ (if is_kind kind mime then text_at (behind_text bytes.now) else []) }
{
    if kind != MIME {
        return (&[], &[]);
    }
    let (content, rest) = front_text(bytes);
    let (encoding, _) = front_text(rest);
    (content, encoding)
}

/// The URI of an item of this type, in the bytes behind its name.
fn uri_in<'a>(kind: FourCc, bytes: &'a [u8]) -> &'a [u8]
    ensures { result.now ≡ (if is_kind kind uri then text_at bytes.now else []) }
{
    if kind != URI {
        return &[];
    }
    let (text, _) = front_text(bytes);
    text
}

/// An entry with these flags, this id and this type, and these bytes behind its type.
fn info_with<'a>(flags: u32, id: u32, kind: FourCc, strings: &'a [u8]) -> Info<'a>
    ensures { info_of result ≡ stated_with flags id kind strings.now }
{
    let (name, rest) = front_text(strings);
    let (content, encoding) = content_in(kind, rest);
    Info {
        id,
        kind,
        hidden: flags % 2 == 1,
        name,
        content,
        encoding,
        uri: uri_in(kind, rest),
    }
}

/// The entry with these flags, in the bytes behind them, with an id of `width` bytes and the place of its box.
fn fields_in<'a>(at: u64, flags: u32, width: u8, bytes: &'a [u8]) -> Result<Info<'a>, ReadRefusal>
    requires { (width ≡ 2) ⊎ (width ≡ 4) }
    ensures { Reads info_of result (fields_at at flags width bytes.now) }
{
    let short = ReadRefusal::BadRecord { kind: INFE, at };
    let (id, rest) = front_id(width, bytes, short)?;
    let (protection, rest) = front16(rest, short)?;
    let (kind, strings) = front_kind(rest, short)?;
    if id == 0 {
        return Err(ReadRefusal::ZeroId { at });
    }
    if protection != 0 {
        return Err(ReadRefusal::Protected { id });
    }
    Ok(info_with(flags, id, kind, strings))
}

/// The entry in a body, with the place of its box.
#[tactic(auto, unfolding(crate::specs::Infe::infe_at))]
pub(crate) fn infe_in<'a>(body: &'a [u8], at: u64) -> Result<Info<'a>, ReadRefusal>
    ensures { Reads info_of result (infe_at at body.now) }
{
    let short = ReadRefusal::BadRecord { kind: INFE, at };
    let (version, flags, rest) = front_version(body, short)?;
    let width = id_width(2, version, ReadRefusal::BadVersion { kind: INFE, at })?;
    fields_in(at, flags, width, rest)
}
