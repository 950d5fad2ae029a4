//! The rows of the stored tokens that have a pattern.
#![tactic(auto)]

mod laws;
mod reading;
mod taking;

pub use laws::looking_law;
pub use reading::rows_of_pattern;
