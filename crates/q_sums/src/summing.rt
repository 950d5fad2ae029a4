//! The values of sums.

ghost use Rattle.std.specs.Prelude.{◌≡◌, ◌≤◌, ◌∷◌, [], true, IfOk, OnOk, ℕ};
ghost use Rattle.q_tree.specs.Scores.{clamped};
ghost use Rattle.q_tree.specs.Soundness.{is_operator, is_sum};
ghost use Rattle.q_tree.specs.Sums.{atom_value, operator_value, steps_value, sum_step, top};
ghost use Rattle.q_sums.specs.Magnitudes.{magnitude_limit, magnitude, last_first};

use ct_base::Memory;
use q_tree::SumStep;
use std::alloc::Global;

/// The score that a value stands for: at least 1, at most 100.
pub(crate) fn clamped(value: i128) -> u32
    ensures { result ≡ clamped value }
{
    if value < 1 {
        return 1;
    }
    if value > 100 {
        return 100;
    }
    value as u32
}

/// The value of a number or a word, where the term occurs `count` times.
fn atom_value(step: SumStep, count: u32) -> i128
    ensures { result ≡ atom_value count step }
{
    match step {
        SumStep::Number(number) => i128::from(number),
        SumStep::Discrete => 100,
        SumStep::Occurrence => i128::from(count.min(100)),
        SumStep::Plus => 0,
        SumStep::Minus => 0,
        SumStep::Times => 0,
    }
}

/// What an operator makes of two values, whose product isn't too great.
fn operator_value(step: SumStep, a: i128, b: i128) -> i128
    requires { magnitude (b ∷ a ∷ []) ≤ magnitude_limit }
    ensures { result ≡ operator_value step a b }
{
    match step {
        SumStep::Plus => a + b,
        SumStep::Minus => a - b,
        SumStep::Times => a * b,
        SumStep::Number(_) => 0,
        SumStep::Discrete => 0,
        SumStep::Occurrence => 0,
    }
}

/// Whether the step is an operator.
fn is_operator(step: SumStep) -> bool
    ensures { result ≡ is_operator step }
{
    match step {
        SumStep::Number(_) => false,
        SumStep::Discrete => false,
        SumStep::Occurrence => false,
        SumStep::Plus => true,
        SumStep::Minus => true,
        SumStep::Times => true,
    }
}

/// Puts what an operator makes of the last two values in their place.
fn operate(stack: &mut Vec<i128>, step: SumStep) -> Result<(), Memory>
    requires operator { is_operator step ≡ true }
    requires small { magnitude (last_first stack.old.items) ≤ magnitude_limit }
    ensures { (k : ℕ) → OnOk result (last_first stack.new.items ≡ sum_step k step (last_first stack.old.items)) }
{
    let Some(b) = stack.pop() else {
        return Ok(());
    };
    let Some(a) = stack.pop() else {
        return Ok(());
    };
    stack.push(operator_value(step, a, b))?;
    Ok(())
}

/// Takes one step of a sum.
fn take_step(stack: &mut Vec<i128>, step: SumStep, count: u32) -> Result<(), Memory>
    requires { magnitude (last_first stack.old.items) ≤ magnitude_limit }
    ensures { OnOk result (last_first stack.new.items ≡ sum_step count step (last_first stack.old.items)) }
{
    if is_operator(step) {
        return operate(stack, step);
    }
    stack.push(atom_value(step, count))?;
    Ok(())
}

/// The last value, or 0.
fn top(stack: Vec<i128>) -> i128
    ensures { result ≡ top (last_first stack.items) }
{
    let mut stack = stack;
    match stack.pop() {
        Some(last) => last,
        None => 0,
    }
}

/// The value of a sum, where the term occurs `count` times.
pub(crate) fn sum_value(alloc: Global, steps: &[SumStep], count: u32) -> Result<i128, Memory>
    requires { is_sum steps.now ≡ true }
    ensures { IfOk result (λ value. value ≡ steps_value count steps.now) }
{
    let mut stack = Vec::new(alloc);
    let mut rest = steps;
    while let [step, later @ ..] = rest {
        take_step(&mut stack, *step, count)?;
        rest = later;
    }
    Ok(top(stack))
}
