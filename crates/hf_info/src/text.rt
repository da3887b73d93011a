//! Strings in a box.

ghost use Rattle.std.specs.Prelude.{◌≡◌, ◌==◌};
ghost use Rattle.std.specs.List.{position};
ghost use Rattle.hf_info.specs.Texts.{text_at, behind_text};

/// The place of the first zero byte.
fn zero_place(bytes: &[u8]) -> Option<usize>
    ensures { result ≡ position (λ byte. byte == 0) bytes.now }
{
    bytes.iter().position(|byte| *byte == 0)
}

/// The string at the front, which ends with a zero byte or with the bytes, and the bytes behind it.
pub(crate) fn front_text<'a>(bytes: &'a [u8]) -> (&'a [u8], &'a [u8])
    ensures text { result.0.now ≡ text_at bytes.now }
    ensures behind { result.1.now ≡ behind_text bytes.now }
{
    match zero_place(bytes) {
        Some(end) => (&bytes[..end], &bytes[end + 1..]),
        None => (bytes, &[]),
    }
}
