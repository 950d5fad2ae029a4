//! The lexemes of a structured query, each with its place.

ghost use Rattle.std.specs.Prelude.{◌≡◌, ◌<◌, IfOk};
ghost use Rattle.std.specs.Str.{chars};
ghost use Rattle.q_lex.specs.Lexing.{byte_count};
ghost use Rattle.cat_where.specs.Lexing.{lexed, place_in};

use ct_base::{Listed, Memory, split_first};
use q_lex::bytes_in;
use st_parse::{LexFault, Lexeme, after_line, begins_comment, lexeme_at};
use std::alloc::Global;

/// A lexeme and where it stands.
#[derive(Drop)]
pub(crate) struct Placed {
    /// The place of its first byte in the text, from 1 on.
    pub place: u32,
    pub lexeme: Lexeme,
}

/// The lexemes of a text, up to the first place at which none begins.
#[derive(Drop)]
pub(crate) struct Lexed {
    pub lexemes: Listed<Placed>,
    /// The first place at which something stands that begins no lexeme.
    pub broken: Option<u32>,
}

/// The place of the rest in the text.
fn place_in(text: &str, rest: &str) -> u32
    requires { byte_count (chars text.now) < 4294967295 }
    ensures { result ≡ place_in (chars text.now) (chars rest.now) }
{
    bytes_in(text).saturating_sub(bytes_in(rest)) as u32 + 1
}

/// The lexemes of the text, up to the first place at which none begins. The cost is linear in the bytes of the text.
pub(crate) fn lexemes_of(alloc: Global, text: &str) -> Result<Lexed, Memory>
    requires { byte_count (chars text.now) < 4294967295 }
    ensures { IfOk result (λ found. found ≡ lexed (chars text.now)) }
{
    let mut lexemes = Vec::new(alloc);
    let mut rest = text;
    while let Some((c, after)) = split_first(rest) {
        if c.is_whitespace() {
            rest = after;
            continue;
        }
        if begins_comment(c, after) {
            rest = after_line(after);
            continue;
        }
        let place = place_in(text, rest);
        match lexeme_at(alloc, rest) {
            Ok((lexeme, next)) => {
                lexemes.push(Placed { place, lexeme })?;
                rest = next;
            }
            Err(LexFault::NoLexeme) => {
                return Ok(Lexed {
                    lexemes: Listed::of(lexemes),
                    broken: Some(place),
                });
            }
            Err(LexFault::Memory) => return Err(Memory),
        }
    }
    Ok(Lexed {
        lexemes: Listed::of(lexemes),
        broken: None,
    })
}
