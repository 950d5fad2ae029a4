//! The pieces between separators.

ghost use Rattle.std.specs.Prelude.{◌≡◌, ◌<◌, ◌∷◌, IfOk, IfSome, length};
ghost use Rattle.std.specs.Option.{option_copied};
ghost use Rattle.rs_result.specs.Pieces.{PieceReader, is_separator, items_of, pieces, pieces_left};

use crate::lexemes::Lexeme;
use ct_base::{Listed, Memory};
use std::alloc::Global;

/// What stands between two pieces.
#[derive(Clone, Copy)]
pub(crate) enum Separator {
    Slash,
    Comma,
}

/// What may stand in a piece.
pub(crate) trait Piece: Drop + Sized {
    /// What the lexemes of a piece are, as the grammar reads them.
    ghost piece_of: { PieceReader Self };

    /// Reads a piece; None where it is nothing.
    fn read(alloc: Global, lexemes: &[Lexeme]) -> Result<Option<Self>, Memory>
        ensures { IfOk result (λ found. found ≡ piece_of lexemes.now) };
}

fn is_separator(separator: Separator, lexeme: &Lexeme) -> bool
    ensures { result ≡ is_separator separator lexeme.now }
{
    match (separator, lexeme) {
        (Separator::Slash, Lexeme::Slash) => true,
        (Separator::Comma, Lexeme::Comma) => true,
        _ => false,
    }
}

/// The piece before the first separator, and what follows this; None where there is no separator.
fn cut(separator: Separator, lexemes: &[Lexeme]) -> (&[Lexeme], Option<&[Lexeme]>)
    ensures pieces { pieces separator lexemes.now ≡ result.0.now ∷ pieces_left separator (option_copied result.1) }
    ensures shorter { IfSome result.1 (λ next. length next.now < length lexemes.now) }
{
    let mut rest = lexemes;
    while let Some((lexeme, others)) = rest.split_first() {
        if is_separator(separator, lexeme) {
            let (piece, _) = lexemes.split_at(lexemes.len() - rest.len());
            return (piece, Some(others));
        }
        rest = others;
    }
    (lexemes, None)
}

/// Reads the pieces between the separators, one or more; None where one of them is nothing.
pub(crate) fn read_pieces<T: Piece>(
    alloc: Global,
    separator: Separator,
    lexemes: &[Lexeme],
) -> Result<Option<Listed<T>>, Memory>
    ensures { IfOk result (λ found. found ≡ items_of T.piece_of (pieces separator lexemes.now)) }
{
    let mut items = Vec::new(alloc);
    let mut rest = lexemes;
    'pieces: loop {
        let (piece, next) = cut(separator, rest);
        match T::read(alloc, piece)? {
            None => return Ok(None),
            Some(item) => items.push(item)?,
        }
        match next {
            None => return Ok(Some(Listed::of(items))),
            Some(next) => rest = next,
        }
    }
}
