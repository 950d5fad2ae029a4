//! How much an optimisation does, and how far it came.

use ix_context::Place;

/// How much an optimisation does.
#[derive(Clone, Copy, Debug, PartialEq, Eq, Drop)]
pub enum Level {
    /// FAST joins the rows of each term.
    Fast,
    /// FULL drops the documents that are no rows of the table besides.
    Full,
    /// FULL of so many terms at most, where the last one that was limited stopped.
    FullUpTo(u32),
}

/// How far an optimisation came.
#[derive(Debug, Drop)]
pub enum Progress {
    /// All terms were handled, or the last of them.
    Done,
    /// As many terms were handled as were asked for, the last of them this one, and the index has more.
    More(Place),
}
