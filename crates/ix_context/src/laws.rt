//! What holds of ranges of row keys. The function here only states a law, which its contract proves.

ghost use Rattle.ix_context.specs.Indexes.{HasAllRows};

use crate::ranges::KeyRange;

/// All row keys lie in the widest range.
pub fn all_in_range()
    ensures { HasAllRows KeyRange.ALL }
{}
