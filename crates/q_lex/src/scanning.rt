//! The lexemes of a whole text, each with its place.

ghost use Rattle.std.specs.Prelude.{◌≡◌, ◌==◌, ◌||◌, ◌+◌, ◌<◌, ◌≤◌, true, IfOk, MatchOption, length};
ghost use Rattle.std.specs.Str.{chars};
ghost use Rattle.q_lex.specs.Runs.{AreLexemes, NoBraceCloses};
ghost use Rattle.q_lex.specs.Lexing.{begins_word, byte_count, depth_after, IsWordAt, query_lexemes, too_deep};

use crate::lexemes::{Lexeme, Placed};
use crate::lexing::{
    closes, is_plain_char, opens, read_word, sign_lexeme, word_lexeme, written_at,
};
use ct_base::{Memory, first_char, split_first};
use std::alloc::Global;

/// How many bytes the text has.
pub fn bytes_in(text: &str) -> usize
    ensures { result ≡ byte_count (chars text.now) }
{
    text.len()
}

/// Whether a piece of a word stands in front.
fn begins_word(text: &str, none_closes: bool) -> bool
    requires { NoBraceCloses none_closes (chars text.now) }
    ensures { result ≡ begins_word (chars text.now) }
{
    match split_first(text) {
        None => false,
        Some((c, after)) => {
            is_plain_char(c)
                || (c == '\\' && first_char(after).is_some())
                || (c == '{' && closes(after, none_closes))
        }
    }
}

/// Whether it is known that no `{` behind a sign is closed: since it was known before, or since the sign is a `{` that isn't.
fn is_unclosed(none_closes: bool, sign: char) -> bool
    ensures { result ≡ (none_closes || (sign == 123)) }
{
    none_closes || sign == '{'
}

/// The lexeme that the word in front is, and what follows it.
fn word_at(
    alloc: Global,
    place: u32,
    text: &str,
    none_closes: bool,
) -> Result<(Lexeme, &str), Memory>
    requires { NoBraceCloses none_closes (chars text.now) }
    ensures { IfOk result (λ x. IsWordAt place (chars text.now) x.0 (chars x.1.now)) }
{
    let (run, rest) = read_word(alloc, text, none_closes)?;
    let before_open = opens(rest);
    let written = written_at(place, run)?;
    Ok((word_lexeme(before_open, written), rest))
}

/// The lexemes of the text, or None where it has over 1024 of them. The cost grows with the bytes of the text.
pub fn lexemes_of(alloc: Global, text: &str) -> Result<Option<Vec<Placed>>, Memory>
    requires { byte_count (chars text.now) ≤ 4000 }
    ensures { IfOk result (λ found. AreLexemes (chars text.now) found) }
{
    let mut found = Vec::new(alloc);
    let mut rest = text;
    let mut none_closes = false;
    while let Some((c, after)) = split_first(rest) {
        if c.is_whitespace() {
            rest = after;
            continue;
        }
        if found.len() >= 1024 {
            return Ok(None);
        }
        let place = (bytes_in(text) - bytes_in(rest)) as u32 + 1;
        if !begins_word(rest, none_closes) {
            let lexeme = sign_lexeme(c);
            found.push(Placed { place, lexeme })?;
            none_closes = is_unclosed(none_closes, c);
            rest = after;
            continue;
        }
        let (lexeme, next) = word_at(alloc, place, rest, none_closes)?;
        found.push(Placed { place, lexeme })?;
        rest = next;
    }
    Ok(Some(found))
}

/// How many parentheses are open behind the lexeme.
fn depth_after(depth: usize, lexeme: &Lexeme) -> usize
    requires { depth ≤ 32 }
    ensures { result ≡ depth_after depth lexeme.now }
{
    match lexeme {
        Lexeme::Open => depth + 1,
        Lexeme::Close => depth.saturating_sub(1),
        _ => depth,
    }
}

/// Whether over 32 parentheses are open at some place.
pub fn is_too_deep(lexemes: &[Placed]) -> bool
    ensures { result ≡ too_deep 0 lexemes.now }
{
    let mut depth: usize = 0;
    let mut rest = lexemes;
    while let [placed, others @ ..] = rest {
        depth = depth_after(depth, &placed.lexeme);
        if depth > 32 {
            return true;
        }
        rest = others;
    }
    false
}
