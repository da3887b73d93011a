//! Types and numbers as text, on the stack.

ghost use Rattle.std.specs.Prelude.{◌≡◌, ◌+◌, ◌<◌, ◌≤◌, ◌++◌, IfSome, false, length, slice_get, take};
ghost use Rattle.std.specs.List.{flat_map};
ghost use Rattle.hf_text.specs.Lines.{number_field, type_field};
ghost use Rattle.hf_text.specs.Texts.{byte_text as text_of_byte, hex_digit_of, is_plain as is_plain_byte, type_text as text_of_type};

use arrayvec::ArrayString;
use hf_base::FourCc;
use itoa::Buffer;

/// Whether a byte prints as itself.
fn is_plain(byte: u8) -> bool
    ensures { result ≡ is_plain_byte byte }
{
    (33..=126).contains(&byte) && byte != b'\\'
}

/// The hexadecimal digit of a number below 16.
fn hex_digit(n: u8) -> char
    requires { n < 16 }
    ensures value { result ≡ hex_digit_of n }
    ensures ascii { result < 128 }
{
    if n < 10 {
        (b'0' + n) as char
    } else {
        (b'a' + (n - 10)) as char
    }
}

/// Adds the text of a byte.
fn push_byte<const N: usize>(text: &mut ArrayString<N>, byte: u8)
    requires { length text.old.bytes + 4 ≤ N }
    ensures bytes { text.new.bytes ≡ text.old.bytes ++ text_of_byte byte }
    ensures short { length text.new.bytes ≤ length text.old.bytes + 4 }
{
    if is_plain(byte) {
        text.push(byte as char);
        return;
    }
    text.push_str("\\x");
    text.push(hex_digit(byte / 16));
    text.push(hex_digit(byte % 16));
}

/// A byte as it is printed.
pub fn byte_text(byte: u8) -> ArrayString<4>
    ensures { result.bytes ≡ text_of_byte byte }
{
    let mut text = ArrayString::new();
    push_byte(&mut text, byte);
    text
}

/// How many bytes at the front print as themselves.
pub fn plain_count(bytes: &[u8]) -> usize
    ensures within { result ≤ length bytes.now }
    ensures plain { flat_map text_of_byte (take result bytes.now) ≡ take result bytes.now }
    ensures most { IfSome (slice_get bytes.now result) (λ byte. is_plain_byte byte ≡ false) }
{
    let mut count = 0;
    while count < bytes.len() && is_plain(bytes[count]) {
        count += 1;
    }
    count
}

/// A type as it is printed, of at most 16 bytes.
pub fn type_text(kind: FourCc) -> ArrayString<16>
    ensures { result.bytes ≡ text_of_type kind }
{
    let [a, b, c, d] = kind.0;
    let mut text = ArrayString::new();
    push_byte(&mut text, a);
    push_byte(&mut text, b);
    push_byte(&mut text, c);
    push_byte(&mut text, d);
    text
}

/// Adds a space and a number, of at most 20 digits.
pub fn push_number<const N: usize>(text: &mut ArrayString<N>, n: u64)
    requires { length text.old.bytes + 21 ≤ N }
    ensures bytes { text.new.bytes ≡ text.old.bytes ++ number_field n }
    ensures short { length text.new.bytes ≤ length text.old.bytes + 21 }
{
    text.push(' ');
    text.push_str(Buffer::new().format(n));
}

/// Adds a space and a type, of at most 16 bytes.
pub fn push_type<const N: usize>(text: &mut ArrayString<N>, kind: FourCc)
    requires { length text.old.bytes + 17 ≤ N }
    ensures bytes { text.new.bytes ≡ text.old.bytes ++ type_field kind }
    ensures short { length text.new.bytes ≤ length text.old.bytes + 17 }
{
    text.push(' ');
    text.push_str(type_text(kind).as_str());
}
