//! The sums of DEFINESCORE.

ghost use Rattle.std.specs.Prelude.{◌≡◌, ◌<◌, ◌∷◌, [], IfOk, OnOk, OnSome, MatchOption, vec_len, Some, None};
ghost use Rattle.std.specs.Bool.{if◌then◌else◌};
ghost use Rattle.q_lex.specs.Words.{strict};
ghost use Rattle.q_parse.specs.Grammar.{step_tightness, is_sum_sign, sign_step};
ghost use Rattle.q_parse.specs.Machine.{step_at, sum_joined, sum_close, sum_sign, sum_goes_on, sum_after, SumOperand};
ghost use Rattle.q_parse.specs.Views.{frames_of, stack_of, Steps, TakesSumFrame};

use crate::stages::{Frame, Stage, StepError, SumFrame};
use ct_base::{Listed, Memory};
use q_lex::{Infix, Lexeme, atom, is_plus};
use q_tree::{Leaf, Query, SumStep};
use std::alloc::AllocFailed;

fn step_tightness(step: SumStep) -> u8
    ensures { result ≡ step_tightness step }
{
    match step {
        SumStep::Times => 2,
        SumStep::Number(_) => 1,
        SumStep::Discrete => 1,
        SumStep::Occurrence => 1,
        SumStep::Plus => 1,
        SumStep::Minus => 1,
    }
}

#[tactic(auto, using(crate::proofs::Frames::stack_of_last))]
fn push_stack(stack: &mut Vec<SumFrame>, frame: SumFrame) -> Result<(), AllocFailed<SumFrame>>
    ensures { OnOk result (stack_of stack.new.items ≡ frame ∷ stack_of stack.old.items) }
{
    stack.push(frame)?;
    Ok(())
}

#[tactic(auto, using(crate::proofs::Frames::stack_of_last, crate::proofs::Frames::no_stack_left))]
fn pop_stack(stack: &mut Vec<SumFrame>) -> Option<SumFrame>
    ensures frames { TakesSumFrame result stack.old.items stack.new.items }
    ensures len { OnSome result (vec_len stack.new < vec_len stack.old) }
{
    match stack.pop() {
        None => None,
        Some(frame) => Some(frame),
    }
}

/// Joins the operators of a sum that bind at least as tight as `least`.
fn sum_join(
    least: u8,
    stack: &mut Vec<SumFrame>,
    out: Listed<SumStep>,
) -> Result<Listed<SumStep>, Memory>
    ensures { IfOk result (λ more. sum_joined least (stack_of stack.old.items) out ≡ (stack_of stack.new.items, more)) }
{
    let mut out = out;
    'joins: loop {
        match pop_stack(stack) {
            None => return Ok(out),
            Some(SumFrame::SumOpen) => {
                push_stack(stack, SumFrame::SumOpen)?;
                return Ok(out);
            }
            Some(SumFrame::SumLeft(step)) => {
                if step_tightness(step) < least {
                    push_stack(stack, SumFrame::SumLeft(step))?;
                    return Ok(out);
                }
                out = out.with(step)?;
            }
        }
    }
}

/// The step that the lexeme is, where it is an operator of a sum. The minus of a sum is the sign `-`, and not the word MINUS.
pub(crate) fn sum_operator(lexeme: &Lexeme) -> Option<SumStep>
    ensures { result ≡ (if is_sum_sign strict lexeme.now then Some (sign_step lexeme.now) else None) }
{
    match lexeme {
        Lexeme::Word(written) => {
            if is_plus(written) {
                Some(SumStep::Plus)
            } else {
                None
            }
        }
        Lexeme::Operator(Infix::MinusSign) => Some(SumStep::Minus),
        Lexeme::Star => Some(SumStep::Times),
        _ => None,
    }
}

fn sum_close(
    phrases: Listed<Leaf>,
    out: Listed<SumStep>,
    stack: Vec<SumFrame>,
    count: u32,
    frames: &Vec<Frame>,
) -> Result<Stage, StepError>
    ensures { Steps result frames.now.items (sum_close phrases count (sum_joined 1 (stack_of stack.items) out) (frames_of frames.now.items)) }
{
    let mut stack = stack;
    let out = sum_join(1, &mut stack, out)?;
    match pop_stack(&mut stack) {
        None => Ok(Stage::After(6, Query::Define(phrases, out))),
        Some(SumFrame::SumOpen) => Ok(Stage::SumAfter(phrases, out, stack, count)),
        Some(SumFrame::SumLeft(_)) => Err(StepError::Refused),
    }
}

fn sum_goes_on(
    phrases: Listed<Leaf>,
    out: Listed<SumStep>,
    stack: Vec<SumFrame>,
    count: u32,
    frames: &Vec<Frame>,
    step: SumStep,
) -> Result<Stage, StepError>
    requires { count < 8 }
    ensures { Steps result frames.now.items (sum_goes_on phrases count step (stack_of stack.items) out (frames_of frames.now.items)) }
{
    let mut stack = stack;
    let out = sum_join(step_tightness(step), &mut stack, out)?;
    push_stack(&mut stack, SumFrame::SumLeft(step))?;
    Ok(Stage::SumOperand(phrases, out, stack, count + 1))
}

pub(crate) fn sum_after(
    phrases: Listed<Leaf>,
    out: Listed<SumStep>,
    stack: Vec<SumFrame>,
    count: u32,
    frames: &Vec<Frame>,
    lexeme: &Lexeme,
) -> Result<Stage, StepError>
    ensures { Steps result frames.now.items (sum_after strict phrases out (stack_of stack.items) count (frames_of frames.now.items) lexeme.now) }
{
    match lexeme {
        Lexeme::Close => sum_close(phrases, out, stack, count, frames),
        _ => match sum_operator(lexeme) {
            Some(step) if count < 8 => sum_goes_on(phrases, out, stack, count, frames, step),
            _ => Err(StepError::Refused),
        },
    }
}

pub(crate) fn sum_operand(
    frames: &Vec<Frame>,
    phrases: Listed<Leaf>,
    out: Listed<SumStep>,
    stack: Vec<SumFrame>,
    count: u32,
    lexeme: &Lexeme,
) -> Result<Stage, StepError>
    ensures { Steps result frames.now.items (step_at strict (SumOperand phrases out (stack_of stack.items) count) (frames_of frames.now.items) lexeme.now) }
{
    match lexeme {
        Lexeme::Word(written) => match atom(written) {
            Some(step) => Ok(Stage::SumAfter(phrases, out.with(step)?, stack, count)),
            None => Err(StepError::Refused),
        },
        Lexeme::Open => {
            let mut stack = stack;
            push_stack(&mut stack, SumFrame::SumOpen)?;
            Ok(Stage::SumOperand(phrases, out, stack, count))
        }
        _ => Err(StepError::Refused),
    }
}
