//! The heads of queries.

use ct_base::Listed;
use q_tree::{Op, Phrases, Place, SumStep};

/// A query without its parts, as one stands after the other in the prefix form of a query.
#[derive(Drop)]
pub(crate) enum Head {
    Term(Phrases),
    /// Two parts follow.
    Both(Op),
    /// A weight in tenths; one part follows.
    Weight(u8),
    /// The number that a score has to be above; one part follows.
    Above(u8),
    Near {
        operands: Listed<Phrases>,
        span: u8,
        ordered: bool,
    },
    /// One part follows.
    Within(Place),
    Define(Phrases, Listed<SumStep>),
}
