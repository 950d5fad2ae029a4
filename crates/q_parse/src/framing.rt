//! What stands open around a stage: its frames, and how operands join them.

ghost use Rattle.std.specs.Prelude.{◌≡◌, ◌+◌, ◌<◌, ◌++◌, ◌∷◌, [], IfOk, OnOk, OnSome, MatchOption, vec_len, Some, None};
ghost use Rattle.std.specs.Bool.{if◌then◌else◌};
ghost use Rattle.q_tree.specs.Trees.{Both};
ghost use Rattle.q_parse.specs.Grammar.{op_of, tightness, put_last};
ghost use Rattle.q_parse.specs.Machine.{query_joined, with_terms, with_leaf, is_main, is_terms, phrases_of, state_at};
ghost use Rattle.q_tree.specs.Trees.{tree_of};
ghost use Rattle.q_parse.specs.Views.{frame_of, frames_of, stage_of, Steps, TakesFrame};

use crate::stages::{Frame, Stage, StepError};
use ct_base::{Listed, Memory};
use q_lex::Infix;
use q_tree::{Leaf, Query, Word};
use std::alloc::{AllocFailed, Global};

pub(crate) fn tightness(op: Infix) -> u8
    ensures { result ≡ tightness op }
{
    match op {
        Infix::Or => 1,
        Infix::And => 2,
        Infix::Not => 4,
        Infix::MinusWord => 5,
        Infix::MinusSign => 5,
    }
}

fn both(alloc: Global, op: Infix, left: Query, right: Query) -> Result<Query, Memory>
    ensures { IfOk result (λ q. tree_of q ≡ Both (op_of op) (tree_of left) (tree_of right)) }
{
    let left = Box::new(alloc, left)?;
    let right = Box::new(alloc, right)?;
    match op {
        Infix::Or => Ok(Query::Or(left, right)),
        Infix::And => Ok(Query::And(left, right)),
        Infix::Not => Ok(Query::Not(left, right)),
        Infix::MinusWord => Ok(Query::Minus(left, right)),
        Infix::MinusSign => Ok(Query::Minus(left, right)),
    }
}

/// A list of one item.
pub(crate) fn one<T: Drop>(alloc: Global, item: T) -> Result<Listed<T>, Memory>
    ensures { IfOk result (λ l. l ≡ item ∷ []) }
{
    Listed::empty(alloc).with(item)
}

#[tactic(auto, using(crate::proofs::Frames::frames_of_last))]
pub(crate) fn push_frame(frames: &mut Vec<Frame>, frame: Frame) -> Result<(), AllocFailed<Frame>>
    ensures { OnOk result (frames_of frames.new.items ≡ frame_of frame ∷ frames_of frames.old.items) }
{
    frames.push(frame)?;
    Ok(())
}

#[tactic(auto, using(crate::proofs::Frames::frames_of_last, crate::proofs::Frames::none_left))]
pub(crate) fn pop_frame(frames: &mut Vec<Frame>) -> Option<Frame>
    ensures frames { TakesFrame result frames.old.items frames.new.items }
    ensures len { OnSome result (vec_len frames.new < vec_len frames.old) }
{
    match frames.pop() {
        None => None,
        Some(frame) => Some(frame),
    }
}

/// The innermost frame, and the others.
#[tactic(auto, using(crate::proofs::Frames::frames_of_last, crate::proofs::Frames::none_left))]
pub(crate) fn top(frames: &[Frame]) -> Option<(&Frame, &[Frame])>
    ensures { MatchOption result (frames_of frames.now ≡ []) (λ p. frames_of frames.now ≡ frame_of p.0.now ∷ frames_of p.1.now) }
{
    match frames.split_last() {
        None => None,
        Some((frame, others)) => Some((frame, others)),
    }
}

pub(crate) fn is_main(frames: &[Frame]) -> bool
    ensures { result ≡ is_main (frames_of frames.now) }
{
    match top(frames) {
        None => true,
        Some((frame, _)) => match frame {
            Frame::Group => true,
            Frame::Left(_, _) => true,
            Frame::Chain(_) => false,
            Frame::TermsOf(_, _) => false,
        },
    }
}

/// Joins the operators that bind at least as tight as `least`.
pub(crate) fn join(
    alloc: Global,
    least: u8,
    frames: &mut Vec<Frame>,
    operand: Query,
) -> Result<Query, Memory>
    ensures { IfOk result (λ q. query_joined least (frames_of frames.old.items) (tree_of operand) ≡ (frames_of frames.new.items, tree_of q)) }
{
    let mut operand = operand;
    'joins: loop {
        match pop_frame(frames) {
            None => return Ok(operand),
            Some(Frame::Group) => {
                push_frame(frames, Frame::Group)?;
                return Ok(operand);
            }
            Some(Frame::Chain(operands)) => {
                push_frame(frames, Frame::Chain(operands))?;
                return Ok(operand);
            }
            Some(Frame::TermsOf(kind, phrases)) => {
                push_frame(frames, Frame::TermsOf(kind, phrases))?;
                return Ok(operand);
            }
            Some(Frame::Left(op, left)) => {
                if tightness(op) < least {
                    push_frame(frames, Frame::Left(op, left))?;
                    return Ok(operand);
                }
                operand = both(alloc, op, left, operand)?;
            }
        }
    }
}

/// The lists one behind the other.
fn joined_lists<T: Drop>(first: Listed<T>, second: Listed<T>) -> Result<Listed<T>, Memory>
    ensures { IfOk result (λ l. l ≡ first ++ second) }
{
    let mut items = first.into_vec();
    let mut others = second.into_vec();
    match items.append(&mut others) {
        Ok(()) => Ok(Listed::of(items)),
        Err(_) => Err(Memory),
    }
}

/// The slots with a word more in the last one.
#[tactic(auto, using(crate::proofs::Frames::put_last_last, crate::proofs::Frames::put_last_none))]
pub(crate) fn put_last(
    alloc: Global,
    slots: Listed<Listed<Word>>,
    word: Word,
) -> Result<Listed<Listed<Word>>, Memory>
    ensures { IfOk result (λ l. l ≡ put_last slots word) }
{
    let mut slots = slots.into_vec();
    match slots.pop() {
        None => {
            slots.push(one(alloc, word)?)?;
            Ok(Listed::of(slots))
        }
        Some(last) => {
            slots.push(last.with(word)?)?;
            Ok(Listed::of(slots))
        }
    }
}

/// A leaf is ready.
pub(crate) fn with_leaf(alloc: Global, frames: &mut Vec<Frame>, leaf: Leaf) -> Result<Stage, Memory>
    ensures { IfOk result (λ p. with_leaf leaf (frames_of frames.old.items) ≡ state_at (stage_of p) (frames_of frames.new.items)) }
{
    match pop_frame(frames) {
        None => Ok(Stage::After(6, Query::Leaf(leaf))),
        Some(Frame::Group) => {
            push_frame(frames, Frame::Group)?;
            Ok(Stage::After(6, Query::Leaf(leaf)))
        }
        Some(Frame::Left(op, left)) => {
            push_frame(frames, Frame::Left(op, left))?;
            Ok(Stage::After(6, Query::Leaf(leaf)))
        }
        Some(Frame::Chain(operands)) => Ok(Stage::AfterChain(operands.with(one(alloc, leaf)?)?)),
        Some(Frame::TermsOf(kind, phrases)) => {
            push_frame(frames, Frame::TermsOf(kind, phrases.with(leaf)?))?;
            Ok(Stage::AfterTerms)
        }
    }
}

/// Terms are ready where a term was wanted.
pub(crate) fn with_terms(frames: &mut Vec<Frame>, phrases: Listed<Leaf>) -> Result<Stage, StepError>
    ensures { Steps result frames.new.items (with_terms phrases (frames_of frames.old.items)) }
{
    match pop_frame(frames) {
        None => Err(StepError::Refused),
        Some(Frame::Group) => Err(StepError::Refused),
        Some(Frame::Left(_, _)) => Err(StepError::Refused),
        Some(Frame::Chain(operands)) => Ok(Stage::AfterChain(operands.with(phrases)?)),
        Some(Frame::TermsOf(kind, before)) => {
            push_frame(frames, Frame::TermsOf(kind, joined_lists(before, phrases)?))?;
            Ok(Stage::AfterTerms)
        }
    }
}
