//! Reading a query from left to right, a lexeme at a time.

ghost use Rattle.q_lex.specs.Words.{strict};
ghost use Rattle.q_parse.specs.Machine.{query_joined, step_after, step_at, finish_at, with_leaf, on_end, finish_after, Operand, InPhrase, AfterEquiv, DefineWord};
ghost use Rattle.q_tree.specs.declared.queries.Leaf.TheVariants.{Phrase};
ghost use Rattle.q_tree.specs.Trees.{tree_of};
ghost use Rattle.q_parse.specs.Views.{frames_of, stage_of, Steps, Finishes};

use crate::framing::{is_main, join, one, pop_frame, push_frame, put_last, with_leaf};
use crate::nearness::{
    near_close, near_end, near_flag, near_open, near_order, near_span, near_word,
};
use crate::operands::{
    after, after_chain, after_operand, after_terms, factor, section_name, threshold,
};
use crate::stages::{Frame, Kind, Stage, StepError};
use crate::sums::{sum_after, sum_operand};
use crate::thesauri::{
    after_level, argument, first_word, in_words, thes_close, thes_name, thes_open,
};
use ct_base::Listed;
use q_lex::Lexeme;
use q_tree::{Leaf, Query, Word};
use std::alloc::Global;

/// Where an operand is wanted.
fn on_operand(alloc: Global, frames: &mut Vec<Frame>, lexeme: Lexeme) -> Result<Stage, StepError>
    ensures { Steps result frames.new.items (step_at strict Operand (frames_of frames.old.items) lexeme) }
{
    match lexeme {
        Lexeme::Word(written) => Ok(Stage::InPhrase(one(alloc, one(alloc, written.word)?)?)),
        Lexeme::Thes(relation) => Ok(Stage::ThesOpen(relation)),
        Lexeme::Open => {
            if is_main(frames) {
                push_frame(frames, Frame::Group)?;
                return Ok(Stage::Operand);
            }
            push_frame(frames, Frame::TermsOf(Kind::InGroup, Listed::empty(alloc)))?;
            Ok(Stage::Operand)
        }
        Lexeme::Near => {
            if is_main(frames) {
                Ok(Stage::NearWord)
            } else {
                Err(StepError::Refused)
            }
        }
        Lexeme::Define => {
            if is_main(frames) {
                Ok(Stage::DefineWord)
            } else {
                Err(StepError::Refused)
            }
        }
        _ => Err(StepError::Refused),
    }
}

/// What follows a phrase.
fn after_phrase(
    alloc: Global,
    frames: &mut Vec<Frame>,
    slots: Listed<Listed<Word>>,
    lexeme: &Lexeme,
) -> Result<Stage, StepError>
    ensures { Steps result frames.new.items (step_after strict (with_leaf (Phrase slots) (frames_of frames.old.items)) lexeme.now) }
{
    let stage = with_leaf(alloc, frames, Leaf::Phrase(slots))?;
    after(alloc, stage, frames, lexeme)
}

fn in_phrase(
    alloc: Global,
    frames: &mut Vec<Frame>,
    slots: Listed<Listed<Word>>,
    lexeme: Lexeme,
) -> Result<Stage, StepError>
    ensures { Steps result frames.new.items (step_at strict (InPhrase slots) (frames_of frames.old.items) lexeme) }
{
    match lexeme {
        Lexeme::Word(written) => Ok(Stage::InPhrase(slots.with(one(alloc, written.word)?)?)),
        Lexeme::Equiv => Ok(Stage::AfterEquiv(slots)),
        _ => after_phrase(alloc, frames, slots, &lexeme),
    }
}

fn after_equiv(
    alloc: Global,
    frames: &Vec<Frame>,
    slots: Listed<Listed<Word>>,
    lexeme: Lexeme,
) -> Result<Stage, StepError>
    ensures { Steps result frames.now.items (step_at strict (AfterEquiv slots) (frames_of frames.now.items) lexeme) }
{
    match lexeme {
        Lexeme::Word(written) => Ok(Stage::InPhrase(put_last(alloc, slots, written.word)?)),
        _ => Err(StepError::Refused),
    }
}

fn define_word(alloc: Global, frames: &mut Vec<Frame>, lexeme: &Lexeme) -> Result<Stage, StepError>
    ensures { Steps result frames.new.items (step_at strict DefineWord (frames_of frames.old.items) lexeme.now) }
{
    match lexeme {
        Lexeme::Open => {
            push_frame(frames, Frame::TermsOf(Kind::InDefine, Listed::empty(alloc)))?;
            Ok(Stage::Operand)
        }
        _ => Err(StepError::Refused),
    }
}

/// One lexeme more.
pub(crate) fn step(
    alloc: Global,
    stage: Stage,
    frames: &mut Vec<Frame>,
    lexeme: Lexeme,
) -> Result<Stage, StepError>
    ensures { Steps result frames.new.items (step_at strict (stage_of stage) (frames_of frames.old.items) lexeme) }
{
    match stage {
        Stage::Operand => on_operand(alloc, frames, lexeme),
        Stage::InPhrase(slots) => in_phrase(alloc, frames, slots, lexeme),
        Stage::AfterEquiv(slots) => after_equiv(alloc, frames, slots, lexeme),
        Stage::ThesOpen(relation) => thes_open(frames, relation, &lexeme),
        Stage::ThesFirst(relation) => first_word(alloc, frames, relation, lexeme),
        Stage::ThesWords(relation, words) => in_words(alloc, frames, relation, words, lexeme),
        Stage::ThesArgument(relation, words) => argument(alloc, frames, relation, words, &lexeme),
        Stage::ThesLevel(relation, words, level) => after_level(
            alloc, frames, relation, words, level, &lexeme,
        ),
        Stage::ThesName(relation, words, level) => thes_name(
            alloc, frames, relation, words, level, &lexeme,
        ),
        Stage::ThesClose(relation, words, level, name) => thes_close(
            alloc, frames, relation, words, level, name, &lexeme,
        ),
        Stage::After(level, operand) => after_operand(alloc, frames, level, operand, &lexeme),
        Stage::AfterChain(operands) => after_chain(alloc, frames, operands, &lexeme),
        Stage::AfterTerms => after_terms(alloc, frames, &lexeme),
        Stage::Factor(operand) => factor(alloc, frames, operand, &lexeme),
        Stage::Threshold(operand) => threshold(alloc, frames, operand, &lexeme),
        Stage::SectionName(operand) => section_name(alloc, frames, operand, &lexeme),
        Stage::NearWord => near_word(frames, &lexeme),
        Stage::NearOpen => near_open(alloc, frames, &lexeme),
        Stage::NearEnd(operands) => near_end(frames, operands, &lexeme),
        Stage::NearSpan(operands) => near_span(frames, operands, &lexeme),
        Stage::NearOrder(operands, span) => near_order(frames, operands, span, &lexeme),
        Stage::NearFlag(operands, span) => near_flag(frames, operands, span, &lexeme),
        Stage::NearClose(operands, span, ordered) => near_close(
            frames, operands, span, ordered, &lexeme,
        ),
        Stage::DefineWord => define_word(alloc, frames, &lexeme),
        Stage::SumOperand(phrases, out, stack, count) => sum_operand(
            frames, phrases, out, stack, count, &lexeme,
        ),
        Stage::SumAfter(phrases, out, stack, count) => sum_after(
            phrases, out, stack, count, frames, &lexeme,
        ),
    }
}

/// The tree after an operand at the end of the text.
fn end_of(alloc: Global, frames: &mut Vec<Frame>, operand: Query) -> Result<Query, StepError>
    ensures { Finishes result (on_end (query_joined 1 (frames_of frames.old.items) (tree_of operand))) }
{
    let whole = join(alloc, 1, frames, operand)?;
    match pop_frame(frames) {
        None => Ok(whole),
        Some(_) => Err(StepError::Refused),
    }
}

fn finish_after(alloc: Global, stage: Stage, frames: &mut Vec<Frame>) -> Result<Query, StepError>
    ensures { Finishes result (finish_after (stage_of stage) (frames_of frames.old.items)) }
{
    match stage {
        Stage::After(_, operand) => end_of(alloc, frames, operand),
        Stage::AfterChain(operands) => end_of(
            alloc,
            frames,
            Query::Near {
                operands,
                span: 100,
                ordered: false,
            },
        ),
        Stage::AfterTerms => Err(StepError::Refused),
        Stage::Operand => Err(StepError::Refused),
        Stage::InPhrase(_) => Err(StepError::Refused),
        Stage::AfterEquiv(_) => Err(StepError::Refused),
        Stage::ThesOpen(_) => Err(StepError::Refused),
        Stage::ThesFirst(_) => Err(StepError::Refused),
        Stage::ThesWords(_, _) => Err(StepError::Refused),
        Stage::ThesArgument(_, _) => Err(StepError::Refused),
        Stage::ThesLevel(_, _, _) => Err(StepError::Refused),
        Stage::ThesName(_, _, _) => Err(StepError::Refused),
        Stage::ThesClose(_, _, _, _) => Err(StepError::Refused),
        Stage::Factor(_) => Err(StepError::Refused),
        Stage::Threshold(_) => Err(StepError::Refused),
        Stage::SectionName(_) => Err(StepError::Refused),
        Stage::NearWord => Err(StepError::Refused),
        Stage::NearOpen => Err(StepError::Refused),
        Stage::NearEnd(_) => Err(StepError::Refused),
        Stage::NearSpan(_) => Err(StepError::Refused),
        Stage::NearOrder(_, _) => Err(StepError::Refused),
        Stage::NearFlag(_, _) => Err(StepError::Refused),
        Stage::NearClose(_, _, _) => Err(StepError::Refused),
        Stage::DefineWord => Err(StepError::Refused),
        Stage::SumOperand(_, _, _, _) => Err(StepError::Refused),
        Stage::SumAfter(_, _, _, _) => Err(StepError::Refused),
    }
}

/// The tree at the end of the text.
pub(crate) fn finish(
    alloc: Global,
    stage: Stage,
    frames: &mut Vec<Frame>,
) -> Result<Query, StepError>
    ensures { Finishes result (finish_at (stage_of stage) (frames_of frames.old.items)) }
{
    match stage {
        Stage::InPhrase(slots) => {
            let stage = with_leaf(alloc, frames, Leaf::Phrase(slots))?;
            finish_after(alloc, stage, frames)
        }
        Stage::After(level, operand) => finish_after(alloc, Stage::After(level, operand), frames),
        Stage::AfterChain(operands) => finish_after(alloc, Stage::AfterChain(operands), frames),
        Stage::AfterTerms => Err(StepError::Refused),
        Stage::Operand => Err(StepError::Refused),
        Stage::AfterEquiv(_) => Err(StepError::Refused),
        Stage::ThesOpen(_) => Err(StepError::Refused),
        Stage::ThesFirst(_) => Err(StepError::Refused),
        Stage::ThesWords(_, _) => Err(StepError::Refused),
        Stage::ThesArgument(_, _) => Err(StepError::Refused),
        Stage::ThesLevel(_, _, _) => Err(StepError::Refused),
        Stage::ThesName(_, _, _) => Err(StepError::Refused),
        Stage::ThesClose(_, _, _, _) => Err(StepError::Refused),
        Stage::Factor(_) => Err(StepError::Refused),
        Stage::Threshold(_) => Err(StepError::Refused),
        Stage::SectionName(_) => Err(StepError::Refused),
        Stage::NearWord => Err(StepError::Refused),
        Stage::NearOpen => Err(StepError::Refused),
        Stage::NearEnd(_) => Err(StepError::Refused),
        Stage::NearSpan(_) => Err(StepError::Refused),
        Stage::NearOrder(_, _) => Err(StepError::Refused),
        Stage::NearFlag(_, _) => Err(StepError::Refused),
        Stage::NearClose(_, _, _) => Err(StepError::Refused),
        Stage::DefineWord => Err(StepError::Refused),
        Stage::SumOperand(_, _, _, _) => Err(StepError::Refused),
        Stage::SumAfter(_, _, _, _) => Err(StepError::Refused),
    }
}
