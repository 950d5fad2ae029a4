//! The sums of DEFINESCORE, and the scores that they give.
#![tactic(auto)]

mod summing;
mod sums;

pub use sums::Sum;
