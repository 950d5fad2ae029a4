//! The optimisation of a CONTEXT index: how much it does, what it makes of the entries and of the state, and that no reply tells it.
#![tactic(auto)]

mod laws;
mod levels;
mod optimizing;
mod places;

pub use laws::limited_optimising_ends;
pub use levels::{Level, Progress};
pub use optimizing::optimize;
