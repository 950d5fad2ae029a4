//! What holds of indexes that were optimised. Each function here only states laws, which its contract proves.

ghost use Rattle.ix_optimize.specs.Limited.{LeavesFewer, LeavesNone, MakesContent, ReachDone};

/// An optimisation leaves exactly the split of what stays of each handled term, the rows that other terms had, and all other entries. One with a limit that answers More leaves exactly
/// as many terms fewer behind its place as it handled, and where it answers Done none is left: so where d terms are left behind the place, one of
/// the first 1 + d / n calls with a limit of n, with nothing between them, answers Done.
pub fn limited_optimising_ends()
    ensures content { MakesContent }
    ensures fewer { LeavesFewer }
    ensures none { LeavesNone }
    ensures done { ReachDone }
{}
