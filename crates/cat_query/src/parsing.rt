//! Query texts as a whole.

ghost use Rattle.std.specs.Prelude.{◌≡◌, true, IfOk, IfSome};
ghost use Rattle.std.specs.Str.{chars};
ghost use Rattle.q_tree.specs.Limits.{keeps_limits};
ghost use Rattle.q_tree.specs.Trees.{tree_of};
ghost use Rattle.cat_query.specs.Machine.{start};
ghost use Rattle.cat_query.specs.PlainTrees.{is_plain_tree};
ghost use Rattle.cat_query.specs.Verdicts.{IsVerdict, verdict, verdict_from, verdict_of};

use crate::faults::CatFault;
use crate::levels::{StepError, finish, start, step};
use crate::lexemes::Placed;
use crate::scanning::{is_too_deep, lexemes_of};
use q_lex::bytes_in;
use q_tree::Query;
use std::alloc::Global;

/// The query that the lexemes are, or why they are none; `end` is the place of the end of their text.
fn read_lexemes(alloc: Global, end: u32, lexemes: Vec<Placed>) -> Result<Query, CatFault>
    ensures { IfSome (verdict_of result) (λ v. v ≡ verdict_from end start lexemes.items) }
{
    let mut state = start(alloc);
    for placed in lexemes {
        let Placed { place, lexeme } = placed;
        match step(alloc, state, lexeme) {
            Ok(next) => state = next,
            Err(StepError::Refused) => return Err(CatFault::Syntax(place)),
            Err(StepError::Memory) => return Err(CatFault::Memory),
        }
    }
    match finish(alloc, state) {
        Ok(query) => Ok(query),
        Err(StepError::Refused) => Err(CatFault::Syntax(end)),
        Err(StepError::Memory) => Err(CatFault::Memory),
    }
}

/// The query that the text is, or why it is none. It keeps the limits of queries. Its operators are AND, OR and NOT, and each of its
/// phrases has one word.
///
/// Faults: `TooLarge` where the text has over 4000 bytes, over 1024 lexemes, or over 32 open parentheses at some place; else
/// `Syntax` at the first lexeme, or at the end, such that the text up to and with it begins no query; and `Memory`. The cost is
/// linear in the bytes of the text. The tree is less than 1024 deep.
pub fn read(alloc: Global, text: &str) -> Result<Query, CatFault>
    ensures limits { IfOk result (λ q. keeps_limits (tree_of q) ≡ true) }
    ensures plain { IfOk result (λ q. is_plain_tree (tree_of q) ≡ true) }
    ensures verdict { IfSome (verdict_of result) (λ v. v ≡ verdict (chars text.now)) }
    ensures grammar { IfSome (verdict_of result) (λ v. IsVerdict (chars text.now) v) }
{
    let count = bytes_in(text);
    if count > 4000 {
        return Err(CatFault::TooLarge);
    }
    let Some(lexemes) = lexemes_of(alloc, text)? else {
        return Err(CatFault::TooLarge);
    };
    if is_too_deep(&lexemes) {
        return Err(CatFault::TooLarge);
    }
    read_lexemes(alloc, count as u32 + 1, lexemes)
}
