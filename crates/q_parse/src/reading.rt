//! Reading the lexemes of a text.

ghost use Rattle.std.specs.Prelude.{◌≡◌, IfSome, Err, Some};
ghost use Rattle.q_parse.specs.Machine.{start_state};
ghost use Rattle.q_parse.specs.Faults.{Fault};
ghost use Rattle.q_parse.specs.Verdicts.{verdict_from};
ghost use Rattle.q_parse.specs.Results.{verdict_of};

use crate::causes::cause;
use crate::faults::{Cause, QueryFault};
use crate::stages::{Stage, StepError};
use crate::stepping::{finish, step};
use q_lex::Placed;
use q_tree::Query;
use std::alloc::Global;

fn fault(cause: Cause, place: u32) -> QueryFault
    ensures { verdict_of (Err result) ≡ Some (Fault cause place) }
{
    match cause {
        Cause::Syntax => QueryFault::Syntax(place),
        Cause::NotInProfile => QueryFault::NotInProfile(place),
        Cause::OutOfRange => QueryFault::BadNumber(place),
    }
}

/// The query that the lexemes are, or why they are none; `end` is the place of the end of their text. The cost grows with the number of lexemes, and with the bytes of their words.
pub(crate) fn read(alloc: Global, end: u32, lexemes: Vec<Placed>) -> Result<Query, QueryFault>
    ensures { IfSome (verdict_of result) (λ v. v ≡ verdict_from end start_state lexemes.items) }
{
    let mut frames = Vec::new(alloc);
    let mut stage = Stage::Operand;
    for placed in lexemes {
        let Placed { place, lexeme } = placed;
        let why = cause(&stage, &frames, &lexeme);
        match step(alloc, stage, &mut frames, lexeme) {
            Ok(next) => stage = next,
            Err(StepError::Refused) => return Err(fault(why, place)),
            Err(StepError::Memory) => return Err(QueryFault::Memory),
        }
    }
    match finish(alloc, stage, &mut frames) {
        Ok(query) => Ok(query),
        Err(StepError::Refused) => Err(QueryFault::Syntax(end)),
        Err(StepError::Memory) => Err(QueryFault::Memory),
    }
}
