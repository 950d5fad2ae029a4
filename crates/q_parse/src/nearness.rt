//! NEAR in the function form: what stands in front of its operands, and what follows them.

ghost use Rattle.std.specs.Prelude.{◌≡◌};
ghost use Rattle.q_lex.specs.Words.{strict};
ghost use Rattle.q_tree.specs.Trees.{Near};
ghost use Rattle.q_parse.specs.Machine.{step_at, After, NearWord, NearOpen, NearEnd, NearSpan, NearOrder, NearFlag, NearClose};
ghost use Rattle.q_parse.specs.Views.{frames_of, stage_of, Steps};

use crate::framing::push_frame;
use crate::stages::{Frame, Kind, Stage, StepError};
use ct_base::Listed;
use q_lex::{Lexeme, flag, whole_in};
use q_tree::{Leaf, Query};
use std::alloc::Global;

fn near(operands: Listed<Listed<Leaf>>, span: u8, ordered: bool) -> Stage
    ensures { stage_of result ≡ After 6 (Near operands span ordered) }
{
    Stage::After(
        6,
        Query::Near {
            operands,
            span,
            ordered,
        },
    )
}

pub(crate) fn near_word(frames: &Vec<Frame>, lexeme: &Lexeme) -> Result<Stage, StepError>
    ensures { Steps result frames.now.items (step_at strict NearWord (frames_of frames.now.items) lexeme.now) }
{
    match lexeme {
        Lexeme::Open => Ok(Stage::NearOpen),
        _ => Err(StepError::Refused),
    }
}

pub(crate) fn near_open(
    alloc: Global,
    frames: &mut Vec<Frame>,
    lexeme: &Lexeme,
) -> Result<Stage, StepError>
    ensures { Steps result frames.new.items (step_at strict NearOpen (frames_of frames.old.items) lexeme.now) }
{
    match lexeme {
        Lexeme::Open => {
            push_frame(
                frames,
                Frame::TermsOf(Kind::InNear(Listed::empty(alloc)), Listed::empty(alloc)),
            )?;
            Ok(Stage::Operand)
        }
        _ => Err(StepError::Refused),
    }
}

pub(crate) fn near_end(
    frames: &Vec<Frame>,
    operands: Listed<Listed<Leaf>>,
    lexeme: &Lexeme,
) -> Result<Stage, StepError>
    ensures { Steps result frames.now.items (step_at strict (NearEnd operands) (frames_of frames.now.items) lexeme.now) }
{
    match lexeme {
        Lexeme::Close => Ok(near(operands, 100, false)),
        Lexeme::Comma => Ok(Stage::NearSpan(operands)),
        _ => Err(StepError::Refused),
    }
}

pub(crate) fn near_span(
    frames: &Vec<Frame>,
    operands: Listed<Listed<Leaf>>,
    lexeme: &Lexeme,
) -> Result<Stage, StepError>
    ensures { Steps result frames.now.items (step_at strict (NearSpan operands) (frames_of frames.now.items) lexeme.now) }
{
    match lexeme {
        Lexeme::Word(written) => match whole_in(written, 0, 100) {
            Some(span) => Ok(Stage::NearOrder(operands, span as u8)),
            None => Err(StepError::Refused),
        },
        _ => Err(StepError::Refused),
    }
}

pub(crate) fn near_order(
    frames: &Vec<Frame>,
    operands: Listed<Listed<Leaf>>,
    span: u8,
    lexeme: &Lexeme,
) -> Result<Stage, StepError>
    ensures { Steps result frames.now.items (step_at strict (NearOrder operands span) (frames_of frames.now.items) lexeme.now) }
{
    match lexeme {
        Lexeme::Close => Ok(near(operands, span, false)),
        Lexeme::Comma => Ok(Stage::NearFlag(operands, span)),
        _ => Err(StepError::Refused),
    }
}

pub(crate) fn near_flag(
    frames: &Vec<Frame>,
    operands: Listed<Listed<Leaf>>,
    span: u8,
    lexeme: &Lexeme,
) -> Result<Stage, StepError>
    ensures { Steps result frames.now.items (step_at strict (NearFlag operands span) (frames_of frames.now.items) lexeme.now) }
{
    match lexeme {
        Lexeme::Word(written) => match flag(written) {
            Some(ordered) => Ok(Stage::NearClose(operands, span, ordered)),
            None => Err(StepError::Refused),
        },
        _ => Err(StepError::Refused),
    }
}

pub(crate) fn near_close(
    frames: &Vec<Frame>,
    operands: Listed<Listed<Leaf>>,
    span: u8,
    ordered: bool,
    lexeme: &Lexeme,
) -> Result<Stage, StepError>
    ensures { Steps result frames.now.items (step_at strict (NearClose operands span ordered) (frames_of frames.now.items) lexeme.now) }
{
    match lexeme {
        Lexeme::Close => Ok(near(operands, span, ordered)),
        _ => Err(StepError::Refused),
    }
}
