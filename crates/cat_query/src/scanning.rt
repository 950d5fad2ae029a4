//! The lexemes of a whole text, each with its place.

ghost use Rattle.std.specs.Prelude.{◌≡◌, ◌≤◌, IfOk};
ghost use Rattle.std.specs.Str.{chars};
ghost use Rattle.q_lex.specs.Lexing.{byte_count};
ghost use Rattle.cat_query.specs.Lexing.{depth_after, too_deep};
ghost use Rattle.cat_query.specs.Reading.{AreLexemes};

use crate::lexemes::{Lexeme, Placed};
use crate::lexing::lexeme_at;
use ct_base::{Memory, split_first};
use q_lex::bytes_in;
use std::alloc::Global;

/// The lexemes of the text, or None where it has over 1024 of them. The cost grows with the bytes of the text.
pub(crate) fn lexemes_of(alloc: Global, text: &str) -> Result<Option<Vec<Placed>>, Memory>
    requires { byte_count (chars text.now) ≤ 4000 }
    ensures { IfOk result (λ found. AreLexemes (chars text.now) found) }
{
    let mut found = Vec::new(alloc);
    let mut rest = text;
    let mut free = true;
    while let Some((c, after)) = split_first(rest) {
        if c.is_whitespace() {
            free = true;
            rest = after;
            continue;
        }
        if found.len() >= 1024 {
            return Ok(None);
        }
        let place = (bytes_in(text) - bytes_in(rest)) as u32 + 1;
        let (lexeme, next) = lexeme_at(alloc, place, free, rest)?;
        found.push(Placed { place, lexeme })?;
        free = false;
        rest = next;
    }
    Ok(Some(found))
}

/// How many parentheses are open after the lexeme.
fn depth_after(depth: usize, lexeme: &Lexeme) -> usize
    requires { depth ≤ 32 }
    ensures { result ≡ depth_after depth lexeme.now }
{
    match lexeme {
        Lexeme::Open => depth + 1,
        Lexeme::Close => depth.saturating_sub(1),
        _ => depth,
    }
}

/// Whether over 32 parentheses are open at some place.
pub(crate) fn is_too_deep(lexemes: &[Placed]) -> bool
    ensures { result ≡ too_deep 0 lexemes.now }
{
    let mut depth: usize = 0;
    for placed in lexemes {
        depth = depth_after(depth, &placed.lexeme);
        if depth > 32 {
            return true;
        }
    }
    false
}
