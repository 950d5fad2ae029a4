//! Query texts as a whole.

ghost use Rattle.std.specs.Prelude.{◌≡◌, true, IfSome, IfOk};
ghost use Rattle.std.specs.Str.{chars};
ghost use Rattle.q_tree.specs.Limits.{keeps_limits};
ghost use Rattle.q_tree.specs.Trees.{tree_of};
ghost use Rattle.q_parse.specs.Faults.{IsVerdict};
ghost use Rattle.q_parse.specs.Verdicts.{verdict};
ghost use Rattle.q_parse.specs.Results.{verdict_of};

use crate::faults::QueryFault;
use crate::reading::read;
use q_lex::{bytes_in, is_too_deep, lexemes_of};
use q_tree::Query;
use std::alloc::Global;

/// The query that the text is, or why it is none. The query keeps the limits of the grammar.
///
/// Faults: `TooLarge` where the text has over 4000 bytes, over 1024 lexemes, or over 32 open parentheses at some place; else the
/// cause at the first lexeme, or at the end, such that the text up to and with it begins no query; and `Memory`.
/// The cost is linear in the bytes of the text, but what stands within parentheses may be moved once for each of them, of which
/// there are at most 32. The tree is at most 512 deep.
pub fn parse(alloc: Global, text: &str) -> Result<Query, QueryFault>
    ensures verdict { IfSome (verdict_of result) (λ v. v ≡ verdict (chars text.now)) }
    ensures grammar { IfSome (verdict_of result) (λ v. IsVerdict (chars text.now) v) }
    ensures limits { IfOk result (λ q. keeps_limits (tree_of q) ≡ true) }
{
    let count = bytes_in(text);
    if count > 4000 {
        return Err(QueryFault::TooLarge);
    }
    let Some(lexemes) = lexemes_of(alloc, text)? else {
        return Err(QueryFault::TooLarge);
    };
    if is_too_deep(&lexemes) {
        return Err(QueryFault::TooLarge);
    }
    read(alloc, count as u32 + 1, lexemes)
}
