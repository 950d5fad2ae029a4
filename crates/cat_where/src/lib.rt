//! The structured queries of CATSEARCH: from a text to its lexemes, and from these to its conditions and its order, or to its first
//! bad place.
#![tactic(auto)]

mod faults;
mod laws;
mod lexing;
mod reading;
mod stages;
mod stepping;

pub use faults::WhereFault;
pub use laws::{one_verdict, same_lexemes, verdict_is_true};
pub use reading::read_where;
pub use stages::Where;
