//! Texts read and built character by character.

ghost use Rattle.std.specs.Prelude.{◌≡◌, ◌+◌, ◌<◌, ◌++◌, [], ◌∷◌, length, OnOk, OnErr, MatchOption};
ghost use Rattle.std.specs.Char.{encode_utf8, len_utf8};
ghost use Rattle.std.specs.Str.{chars};
ghost use Rattle.std.specs.String.{string_bytes};
ghost use Rattle.ct_base.specs.Characters.{first};

use crate::faults::Memory;

/// The first character, and what follows it.
pub fn split_first(text: &str) -> Option<(char, &str)>
    ensures chars { MatchOption result (chars text.now ≡ []) (λ x. chars text.now ≡ x.0 ∷ chars x.1.now) }
    ensures length { MatchOption result (length text.now ≡ 0) (λ x. length text.now ≡ len_utf8 x.0 + length x.1.now) }
    ensures shorter { MatchOption result (length text.now ≡ 0) (λ x. length x.1.now < length text.now) }
{
    let mut chars = text.chars();
    let first = chars.next()?;
    Some((first, chars.as_str()))
}

/// The first character.
pub fn first_char(text: &str) -> Option<char>
    ensures { result ≡ first (chars text.now) }
{
    text.chars().next()
}

/// Puts a character at the end.
pub fn push_char(text: &mut String, c: char) -> Result<(), Memory>
    ensures chars { OnOk result (chars (string_bytes text.new) ≡ chars (string_bytes text.old) ++ c ∷ []) }
    ensures bytes { OnOk result (string_bytes text.new ≡ string_bytes text.old ++ encode_utf8 c) }
    ensures err { OnErr result (string_bytes text.new ≡ string_bytes text.old) }
{
    text.push(c)?;
    Ok(())
}

/// Puts an ASCII character at the end.
pub fn push_ascii(text: &mut String, c: char) -> Result<(), Memory>
    requires { c < 128 }
    ensures bytes { OnOk result (string_bytes text.new ≡ string_bytes text.old ++ c ∷ []) }
    ensures err { OnErr result (string_bytes text.new ≡ string_bytes text.old) }
{
    text.push(c)?;
    Ok(())
}
