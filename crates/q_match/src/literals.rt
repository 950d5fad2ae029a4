//! The literals with which patterns begin.

ghost use Rattle.std.specs.Prelude.{◌≡◌, ◌∷◌, []};
ghost use Rattle.q_match.specs.Literals.{leading_literal};
ghost use Rattle.q_match.specs.Promises.{MatchesBeginWithLiteral};

use q_tree::PatternBit;

/// The literal with which a pattern begins, without a copy: empty where a wildcard stands first.
pub fn leading_literal(pattern: &[PatternBit]) -> &str
    ensures { result.now ≡ leading_literal pattern.now }
{
    match pattern {
        [] => "",
        [first, ..] => literal(first),
    }
}

/// The characters of a piece of a pattern; of a wildcard none.
fn literal(bit: &PatternBit) -> &str
    ensures { result.now ≡ leading_literal (bit.now ∷ []) }
{
    match bit {
        PatternBit::Chars(text) => text.as_str(),
        PatternBit::One => "",
        PatternBit::Many => "",
    }
}

/// A key that has a pattern begins with the leading literal of it, byte by byte. The function only states this law.
#[tactic(auto, using(crate::proofs::Beginnings::matches_begin))]
pub fn leading_literal_law()
    ensures { MatchesBeginWithLiteral }
{}
