//! The queries of CONTAINS: from a text to the tree.
#![tactic(auto)]

mod causes;
mod faults;
mod framing;
mod laws;
mod nearness;
mod operands;
mod parsing;
mod reading;
mod stages;
mod stepping;
mod sums;
mod terms;
mod thesauri;

pub use faults::{Cause, QueryFault};
pub use laws::{
    each_query_is_read, each_query_keeps_limits, first_bad, one_query, one_verdict, verdict_is_true,
};
pub use parsing::parse;
