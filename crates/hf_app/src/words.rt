//! The words that a command names by their places.

ghost use Rattle.std.specs.Prelude.{◌≡◌, ◌<◌, length, map, string_bytes};
ghost use Rattle.hf_text.specs.Commands.{word_of};

/// The word at a place.
pub fn word(words: &[String], at: usize) -> &str
    requires { at < length (map string_bytes words.now) }
    ensures { word_of (map string_bytes words.now) at ≡ result.now }
{
    words[at].as_str()
}
