//! Sums in postfix form, and the scores that they give.

ghost use Rattle.std.specs.Prelude.{◌≡◌, true, IfOk};
ghost use Rattle.q_tree.specs.Scores.{defined};
ghost use Rattle.q_tree.specs.Soundness.{is_sum};

use crate::summing::{clamped, sum_value};
use ct_base::{Listed, Memory};
use q_tree::SumStep;
use std::alloc::Global;
use std::marker::Model;

/// A sum in postfix form, of at most eight operators, and of numbers up to 1000, seen as the list of its steps.
#[derive(Drop)]
pub struct Sum {
    steps: Listed<SumStep>,
}

impl Model for Sum {
    ghost use Rattle.std.specs.Prelude.{◌≡◌, List, true};
    ghost use Rattle.q_tree.specs.declared.flats.SumStep.{SumStep};
    ghost use Rattle.q_tree.specs.Soundness.{is_sum};

    ghost Value = { List SumStep };

    ghost view = { λ s. s.steps };

    ghost invariant = { λ s. is_sum s.steps ≡ true };
}

impl Sum {
    /// The sum of these steps, which are copied.
    pub fn of(alloc: Global, steps: &[SumStep]) -> Result<Sum, Memory>
        requires { is_sum steps.now ≡ true }
        ensures { IfOk result (λ sum. sum ≡ steps.now) }
    {
        let steps = Listed::of(Vec::from_slice(alloc, steps)?);
        Ok(Sum { steps })
    }

    /// The score of a term that occurs `count` times: 0 where it doesn't occur; else the value of the sum, in which OCCURRENCE is `count`, at
    /// most 100, and DISCRETE 100, brought to at least 1 and at most 100. It is exact: no sum of this size overflows. Its cost is the length of
    /// the sum, and it keeps at most nine values at a time.
    pub fn score(&self, alloc: Global, count: u32) -> Result<u32, Memory>
        ensures { IfOk result (λ score. score ≡ defined count self.now) }
    {
        if count == 0 {
            return Ok(0);
        }
        let value = sum_value(alloc, self.steps.as_slice(), count)?;
        Ok(clamped(value))
    }
}
