//! What may follow an operand of a query.

ghost use Rattle.q_lex.specs.Words.{strict};
ghost use Rattle.q_parse.specs.Machine.{query_joined, on_close, on_operator, on_within, on_near, after_operand, after_chain, after_terms, after_at, step_at, close_terms, comma_terms, Factor, Threshold, SectionName};
ghost use Rattle.q_tree.specs.Trees.{tree_of};
ghost use Rattle.q_parse.specs.Views.{frames_of, stage_of, Steps};

use crate::framing::{join, one, pop_frame, push_frame, tightness, with_terms};
use crate::stages::{Frame, Kind, Stage, StepError};
use crate::terms::terms_of;
use ct_base::Listed;
use q_lex::{Infix, Lexeme, read_name, tenths_in, whole_in};
use q_tree::{Leaf, Query};
use std::alloc::Global;

fn on_operator(
    alloc: Global,
    frames: &mut Vec<Frame>,
    operand: Query,
    op: Infix,
) -> Result<Stage, StepError>
    ensures { Steps result frames.new.items (on_operator (tree_of operand) (frames_of frames.old.items) op) }
{
    let left = join(alloc, tightness(op), frames, operand)?;
    push_frame(frames, Frame::Left(op, left))?;
    Ok(Stage::Operand)
}

fn on_close(alloc: Global, frames: &mut Vec<Frame>, operand: Query) -> Result<Stage, StepError>
    ensures { Steps result frames.new.items (on_close (query_joined 1 (frames_of frames.old.items) (tree_of operand))) }
{
    let whole = join(alloc, 1, frames, operand)?;
    match pop_frame(frames) {
        Some(Frame::Group) => Ok(Stage::After(6, whole)),
        Some(Frame::Left(_, _)) => Err(StepError::Refused),
        Some(Frame::Chain(_)) => Err(StepError::Refused),
        Some(Frame::TermsOf(_, _)) => Err(StepError::Refused),
        None => Err(StepError::Refused),
    }
}

fn on_within(alloc: Global, frames: &mut Vec<Frame>, operand: Query) -> Result<Stage, StepError>
    ensures { Steps result frames.new.items (on_within (tree_of operand) (frames_of frames.old.items)) }
{
    Ok(Stage::SectionName(join(alloc, 3, frames, operand)?))
}

fn on_near(alloc: Global, frames: &mut Vec<Frame>, operand: Query) -> Result<Stage, StepError>
    ensures { Steps result frames.new.items (on_near (tree_of operand) (frames_of frames.old.items)) }
{
    match terms_of(alloc, operand)? {
        None => Err(StepError::Refused),
        Some(phrases) => {
            push_frame(frames, Frame::Chain(one(alloc, phrases)?))?;
            Ok(Stage::Operand)
        }
    }
}

pub(crate) fn after_operand(
    alloc: Global,
    frames: &mut Vec<Frame>,
    level: u8,
    operand: Query,
    lexeme: &Lexeme,
) -> Result<Stage, StepError>
    ensures { Steps result frames.new.items (after_operand level (tree_of operand) (frames_of frames.old.items) lexeme.now) }
{
    match lexeme {
        Lexeme::Operator(op) if tightness(*op) <= level => on_operator(alloc, frames, operand, *op),
        Lexeme::Close => on_close(alloc, frames, operand),
        Lexeme::Star if level >= 6 => Ok(Stage::Factor(operand)),
        Lexeme::Greater if level >= 6 => Ok(Stage::Threshold(operand)),
        Lexeme::Within => on_within(alloc, frames, operand),
        Lexeme::Near => on_near(alloc, frames, operand),
        _ => Err(StepError::Refused),
    }
}

pub(crate) fn after_chain(
    alloc: Global,
    frames: &mut Vec<Frame>,
    operands: Listed<Listed<Leaf>>,
    lexeme: &Lexeme,
) -> Result<Stage, StepError>
    ensures { Steps result frames.new.items (after_chain strict operands (frames_of frames.old.items) lexeme.now) }
{
    match lexeme {
        Lexeme::Near => {
            if operands.as_slice().len() > 15 {
                return Err(StepError::Refused);
            }
            push_frame(frames, Frame::Chain(operands))?;
            Ok(Stage::Operand)
        }
        _ => after_operand(
            alloc,
            frames,
            6,
            Query::Near {
                operands,
                span: 100,
                ordered: false,
            },
            lexeme,
        ),
    }
}

fn close_terms(
    frames: &mut Vec<Frame>,
    kind: Kind,
    phrases: Listed<Leaf>,
) -> Result<Stage, StepError>
    ensures { Steps result frames.new.items (close_terms kind phrases (frames_of frames.old.items)) }
{
    match kind {
        Kind::InGroup => with_terms(frames, phrases),
        Kind::InNear(operands) => {
            if operands.as_slice().is_empty() {
                return Err(StepError::Refused);
            }
            Ok(Stage::NearEnd(operands.with(phrases)?))
        }
        Kind::InDefine => Err(StepError::Refused),
    }
}

fn comma_terms(
    alloc: Global,
    frames: &mut Vec<Frame>,
    kind: Kind,
    phrases: Listed<Leaf>,
) -> Result<Stage, StepError>
    ensures { Steps result frames.new.items (comma_terms strict kind phrases (frames_of frames.old.items)) }
{
    match kind {
        Kind::InGroup => Err(StepError::Refused),
        Kind::InNear(operands) => {
            let operands = operands.with(phrases)?;
            if operands.as_slice().len() > 15 {
                return Err(StepError::Refused);
            }
            push_frame(
                frames,
                Frame::TermsOf(Kind::InNear(operands), Listed::empty(alloc)),
            )?;
            Ok(Stage::Operand)
        }
        Kind::InDefine => Ok(Stage::SumOperand(phrases, Listed::empty(alloc), Vec::new(alloc), 0)),
    }
}

pub(crate) fn after_terms(
    alloc: Global,
    frames: &mut Vec<Frame>,
    lexeme: &Lexeme,
) -> Result<Stage, StepError>
    ensures { Steps result frames.new.items (after_terms strict (frames_of frames.old.items) lexeme.now) }
{
    match pop_frame(frames) {
        None => Err(StepError::Refused),
        Some(Frame::Group) => Err(StepError::Refused),
        Some(Frame::Left(_, _)) => Err(StepError::Refused),
        Some(Frame::Chain(_)) => Err(StepError::Refused),
        Some(Frame::TermsOf(kind, phrases)) => match lexeme {
            Lexeme::Operator(Infix::Or) => {
                push_frame(frames, Frame::TermsOf(kind, phrases))?;
                Ok(Stage::Operand)
            }
            Lexeme::Close => close_terms(frames, kind, phrases),
            Lexeme::Comma => comma_terms(alloc, frames, kind, phrases),
            _ => Err(StepError::Refused),
        },
    }
}

pub(crate) fn after(
    alloc: Global,
    stage: Stage,
    frames: &mut Vec<Frame>,
    lexeme: &Lexeme,
) -> Result<Stage, StepError>
    ensures { Steps result frames.new.items (after_at strict (stage_of stage) (frames_of frames.old.items) lexeme.now) }
{
    match stage {
        Stage::After(level, operand) => after_operand(alloc, frames, level, operand, lexeme),
        Stage::AfterChain(operands) => after_chain(alloc, frames, operands, lexeme),
        Stage::AfterTerms => after_terms(alloc, frames, lexeme),
        Stage::Operand => Err(StepError::Refused),
        Stage::InPhrase(_) => Err(StepError::Refused),
        Stage::AfterEquiv(_) => Err(StepError::Refused),
        Stage::ThesOpen(_) => Err(StepError::Refused),
        Stage::ThesFirst(_) => Err(StepError::Refused),
        Stage::ThesWords(_, _) => Err(StepError::Refused),
        Stage::ThesArgument(_, _) => Err(StepError::Refused),
        Stage::ThesLevel(_, _, _) => Err(StepError::Refused),
        Stage::ThesName(_, _, _) => Err(StepError::Refused),
        Stage::ThesClose(_, _, _, _) => Err(StepError::Refused),
        Stage::Factor(_) => Err(StepError::Refused),
        Stage::Threshold(_) => Err(StepError::Refused),
        Stage::SectionName(_) => Err(StepError::Refused),
        Stage::NearWord => Err(StepError::Refused),
        Stage::NearOpen => Err(StepError::Refused),
        Stage::NearEnd(_) => Err(StepError::Refused),
        Stage::NearSpan(_) => Err(StepError::Refused),
        Stage::NearOrder(_, _) => Err(StepError::Refused),
        Stage::NearFlag(_, _) => Err(StepError::Refused),
        Stage::NearClose(_, _, _) => Err(StepError::Refused),
        Stage::DefineWord => Err(StepError::Refused),
        Stage::SumOperand(_, _, _, _) => Err(StepError::Refused),
        Stage::SumAfter(_, _, _, _) => Err(StepError::Refused),
    }
}

pub(crate) fn factor(
    alloc: Global,
    frames: &Vec<Frame>,
    operand: Query,
    lexeme: &Lexeme,
) -> Result<Stage, StepError>
    ensures { Steps result frames.now.items (step_at strict (Factor (tree_of operand)) (frames_of frames.now.items) lexeme.now) }
{
    match lexeme {
        Lexeme::Word(written) => match tenths_in(written) {
            Some(tenths) => Ok(Stage::After(6, Query::Weight(tenths, Box::new(alloc, operand)?))),
            None => Err(StepError::Refused),
        },
        _ => Err(StepError::Refused),
    }
}

pub(crate) fn threshold(
    alloc: Global,
    frames: &Vec<Frame>,
    operand: Query,
    lexeme: &Lexeme,
) -> Result<Stage, StepError>
    ensures { Steps result frames.now.items (step_at strict (Threshold (tree_of operand)) (frames_of frames.now.items) lexeme.now) }
{
    match lexeme {
        Lexeme::Word(written) => match whole_in(written, 0, 100) {
            Some(score) => Ok(Stage::After(
                6,
                Query::Above(score as u8, Box::new(alloc, operand)?),
            )),
            None => Err(StepError::Refused),
        },
        _ => Err(StepError::Refused),
    }
}

pub(crate) fn section_name(
    alloc: Global,
    frames: &Vec<Frame>,
    operand: Query,
    lexeme: &Lexeme,
) -> Result<Stage, StepError>
    ensures { Steps result frames.now.items (step_at strict (SectionName (tree_of operand)) (frames_of frames.now.items) lexeme.now) }
{
    match lexeme {
        Lexeme::Word(written) => match read_name(alloc, written)? {
            Some(name) => Ok(Stage::After(3, Query::Within(name, Box::new(alloc, operand)?))),
            None => Err(StepError::Refused),
        },
        _ => Err(StepError::Refused),
    }
}
