//! Structured queries as a whole.

ghost use Rattle.std.specs.Prelude.{◌≡◌, IfSome, None};
ghost use Rattle.std.specs.Str.{chars};
ghost use Rattle.cat_where.specs.Machine.{finish, start};
ghost use Rattle.cat_where.specs.Results.{verdict_of};
ghost use Rattle.cat_where.specs.Verdicts.{IsVerdict, ending, verdict, verdict_from};

use crate::faults::WhereFault;
use crate::lexing::{Lexed, Placed, lexemes_of};
use crate::stages::{Stage, State, StepError, Where};
use crate::stepping::{start, step, with_order};
use q_lex::bytes_in;
use std::alloc::Global;

/// The query, where the text may end here; `end` is the place of its end.
fn finish(state: State, end: u32) -> Result<Where, WhereFault>
    ensures { IfSome (verdict_of result) (λ v. v ≡ ending end None (finish state)) }
{
    let State { stage, done } = state;
    match stage {
        Stage::Start | Stage::AfterCond | Stage::AfterOrder => Ok(done),
        Stage::AfterName(name) => {
            let done = with_order(name, false, done)?;
            Ok(done)
        }
        _ => Err(WhereFault::Syntax(end)),
    }
}

/// The query that the lexemes are, or why they are none. `broken` is the place after them at which no lexeme begins, and `end` that of
/// the end of their text.
fn read_lexemes(
    alloc: Global,
    end: u32,
    broken: Option<u32>,
    lexemes: Vec<Placed>,
) -> Result<Where, WhereFault>
    ensures { IfSome (verdict_of result) (λ v. v ≡ verdict_from end broken start lexemes.items) }
{
    let mut state = start(alloc);
    for placed in lexemes {
        let Placed { place, lexeme } = placed;
        match step(alloc, state, lexeme) {
            Ok(next) => state = next,
            Err(StepError::Refused) => return Err(WhereFault::Syntax(place)),
            Err(StepError::OutOfRange) => return Err(WhereFault::BadNumber(place)),
            Err(StepError::Memory) => return Err(WhereFault::Memory),
        }
    }
    match broken {
        Some(place) => Err(WhereFault::Syntax(place)),
        None => finish(state, end),
    }
}

/// The conditions and the order that the text asks for, or why it is no structured query. The empty text asks for nothing.
///
/// Faults: `BadNumber` or `Syntax` at the first lexeme, or at the end, such that the text up to and with it begins no structured
/// query; it is `BadNumber` where a number without the limits of `i64` would go on there. And `Memory`, also where the text has
/// 2^32 - 1 bytes or more. The cost is linear in the bytes of the text.
pub fn read_where(alloc: Global, text: &str) -> Result<Where, WhereFault>
    ensures verdict { IfSome (verdict_of result) (λ v. v ≡ verdict (chars text.now)) }
    ensures grammar { IfSome (verdict_of result) (λ v. IsVerdict (chars text.now) v) }
{
    let count = bytes_in(text);
    if count >= 4_294_967_295 {
        return Err(WhereFault::Memory);
    }
    let Lexed { lexemes, broken } = lexemes_of(alloc, text)?;
    read_lexemes(alloc, count as u32 + 1, broken, lexemes.into_vec())
}
