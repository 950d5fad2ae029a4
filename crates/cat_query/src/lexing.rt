//! Single lexemes.

ghost use Rattle.std.specs.Prelude.{◌≡◌, ◌&&◌, ◌++◌, ◌∷◌, [], IfOk};
ghost use Rattle.q_tree.specs.declared.queries.WordBit.TheVariants.{Many};
ghost use Rattle.std.specs.Str.{chars};
ghost use Rattle.std.specs.String.{string_bytes};
ghost use Rattle.q_lex.specs.Runs.{FindsAs};
ghost use Rattle.cat_query.specs.Lexing.{after_run, bits_from, ends_word, is_dash, is_word_char, lexeme_at, literal, quoted, quoted_lexeme, run, sign_lexeme, word_at};
ghost use Rattle.cat_query.specs.Reading.{Reads};

use crate::lexemes::Lexeme;
use ct_base::{Listed, Memory, Text, push_char, split_first};
use q_tree::{Word, WordBit};
use std::alloc::Global;

fn is_word_char(c: char) -> bool
    ensures { result ≡ is_word_char c }
{
    !(c.is_whitespace() || c == '(' || c == ')' || c == '|' || c == '"')
}

/// The lexeme that a sign is by itself.
fn sign_lexeme(c: char) -> Lexeme
    ensures { result ≡ sign_lexeme c }
{
    if c == '(' {
        Lexeme::Open
    } else if c == ')' {
        Lexeme::Close
    } else if c == '|' {
        Lexeme::Bar
    } else {
        Lexeme::Bad
    }
}

/// Whether white space, or the end of the text, stands at the beginning.
fn ends_word(text: &str) -> bool
    ensures { result ≡ ends_word (chars text.now) }
{
    match split_first(text) {
        None => true,
        Some((c, _)) => c.is_whitespace(),
    }
}

/// The bits with the characters after the last wildcard.
fn flush(bits: Vec<WordBit>, chars: String) -> Result<Vec<WordBit>, Memory>
    ensures { IfOk result (λ all. all.items ≡ bits.items ++ literal (string_bytes chars)) }
{
    let mut bits = bits;
    if !chars.is_empty() {
        bits.push(WordBit::Chars(Text::owned(chars)))?;
    }
    Ok(bits)
}

/// The bits with a wildcard at their end.
fn with_wildcard(bits: Vec<WordBit>, chars: String) -> Result<Vec<WordBit>, Memory>
    ensures { IfOk result (λ all. all.items ≡ bits.items ++ literal (string_bytes chars) ++ Many ∷ []) }
{
    let mut bits = flush(bits, chars)?;
    bits.push(WordBit::Many)?;
    Ok(bits)
}

/// The bits of a word that ends here, and what follows it.
fn end_bits(bits: Vec<WordBit>, chars: String, rest: &str) -> Result<(Vec<WordBit>, &str), Memory>
    ensures bits { IfOk result (λ x. x.0.items ≡ bits.items ++ literal (string_bytes chars)) }
    ensures rest { IfOk result (λ x. x.1.now ≡ rest.now) }
{
    let bits = flush(bits, chars)?;
    Ok((bits, rest))
}

/// The bits of the word at the beginning, and what follows it.
fn read_bits(alloc: Global, text: &str) -> Result<(Vec<WordBit>, &str), Memory>
    ensures bits { IfOk result (λ x. x.0.items ≡ bits_from [] (run (chars text.now))) }
    ensures rest { IfOk result (λ x. chars x.1.now ≡ after_run (chars text.now)) }
{
    let mut bits = Vec::new(alloc);
    let mut chars = String::new(alloc);
    let mut rest = text;
    while let Some((c, after)) = split_first(rest) {
        if !is_word_char(c) {
            return end_bits(bits, chars, rest);
        }
        rest = after;
        if c == '*' {
            bits = with_wildcard(bits, chars)?;
            chars = String::new(alloc);
            continue;
        }
        push_char(&mut chars, c)?;
    }
    end_bits(bits, chars, rest)
}

/// Whether the word that begins with this character is a `-` with white space, or an end of the text, on both sides; `free` says
/// that it is so before it.
fn is_lone_dash(free: bool, c: char, after: &str) -> bool
    ensures { result ≡ ((free && ends_word (after_run (c ∷ chars after.now))) && is_dash (run (c ∷ chars after.now))) }
{
    free && c == '-' && ends_word(after)
}

/// The word that begins with this character, and what follows it.
fn read_word(alloc: Global, place: u32, free: bool, text: &str) -> Result<(Lexeme, &str), Memory>
    ensures { IfOk result (λ x. Reads (chars text.now) (word_at place free) (x.0, chars x.1.now)) }
{
    let (bits, rest) = read_bits(alloc, text)?;
    let Some((c, after)) = split_first(text) else {
        return Ok((Lexeme::Bad, rest));
    };
    if is_lone_dash(free, c, after) {
        return Ok((Lexeme::Minus, rest));
    }
    if c == '*' {
        return Ok((Lexeme::Bad, rest));
    }
    let bits = Listed::of(bits);
    Ok((Lexeme::Item(Word { place, bits }), rest))
}

/// The text whose quote stands before this, and what follows its end, where it is closed.
fn read_quoted(alloc: Global, text: &str) -> Result<Option<(String, &str)>, Memory>
    ensures { IfOk result (λ found. FindsAs found (λ x. (string_bytes x.0, chars x.1.now)) (quoted [] (chars text.now))) }
{
    let mut read = String::new(alloc);
    let mut rest = text;
    while let Some((c, after)) = split_first(rest) {
        if c == '"' {
            return Ok(Some((read, after)));
        }
        push_char(&mut read, c)?;
        rest = after;
    }
    Ok(None)
}

/// The bits of a quoted text.
fn literal(alloc: Global, chars: String) -> Result<Vec<WordBit>, Memory>
    ensures { IfOk result (λ bits. bits.items ≡ literal (string_bytes chars)) }
{
    flush(Vec::new(alloc), chars)
}

/// The lexeme that a quote before this begins, and what follows it.
fn quoted_lexeme(alloc: Global, place: u32, after: &str) -> Result<(Lexeme, &str), Memory>
    ensures { IfOk result (λ x. (x.0, chars x.1.now) ≡ quoted_lexeme place (chars after.now) (quoted [] (chars after.now))) }
{
    match read_quoted(alloc, after)? {
        None => Ok((Lexeme::Bad, after)),
        Some((read, rest)) => {
            let bits = Listed::of(literal(alloc, read)?);
            Ok((Lexeme::Item(Word { place, bits }), rest))
        }
    }
}

/// The lexeme at the beginning, which isn't white space, and what follows it; `free` says that white space, or the beginning of the text,
/// stands before it.
pub(crate) fn lexeme_at(
    alloc: Global,
    place: u32,
    free: bool,
    text: &str,
) -> Result<(Lexeme, &str), Memory>
    ensures { IfOk result (λ x. Reads (chars text.now) (lexeme_at place free) (x.0, chars x.1.now)) }
{
    let Some((c, after)) = split_first(text) else {
        return Ok((Lexeme::Bad, text));
    };
    if c == '"' {
        return quoted_lexeme(alloc, place, after);
    }
    if is_word_char(c) {
        return read_word(alloc, place, free, text);
    }
    Ok((sign_lexeme(c), after))
}
