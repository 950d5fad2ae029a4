//! Which sub-index is best for conditions.

ghost use Rattle.std.specs.Prelude.{◌≡◌, ◌⊎◌, IfOk};
ghost use Rattle.db_range.specs.Ranges.{IsSubRange};

use crate::places::Range;
use crate::ranges::range_of;
use ct_base::{Listed, Memory, Name};
use st_parse::Cond;
use std::alloc::Global;
use tb_table::Column;

/// A sub-index by its number, and between which of its places rows lie.
#[derive(Debug, Drop)]
pub struct SubRange {
    pub sub: u8,
    pub range: Range,
}

/// How many bytes both ends of a range begin with alike: those that all its places have.
fn fixed_bytes(range: &Range) -> usize {
    let low = range.low.as_slice();
    let high = range.high.as_slice();
    for (place, byte) in low.iter().enumerate() {
        let Some(other) = high.get(place) else {
            return place;
        };
        if byte != other {
            return place;
        }
    }
    low.len()
}

/// Whether the one range leaves less choice than the other: it fixes more bytes of its places, or as many and bounds more.
fn is_narrower(a: &Range, b: &Range) -> bool {
    let fixed = fixed_bytes(a);
    let others = fixed_bytes(b);
    if fixed == others {
        b.low.as_slice().len() < a.low.as_slice().len()
    } else {
        others < fixed
    }
}

/// The second where its range is narrower, and else the first.
fn narrower(first: SubRange, second: SubRange) -> SubRange
    ensures { (result ≡ first) ⊎ (result ≡ second) }
{
    if is_narrower(&second.range, &first.range) {
        second
    } else {
        first
    }
}

/// The sub-index of whose places conditions fix most bytes, or else bound most, of sub-indexes of the columns with these names, of which
/// the first has the number 1; and between which of its places the rows lie that meet the conditions. It is the plain one, with the
/// number 0, where no condition bounds a first column. Of more sub-indexes than a byte counts, which no catalogue has, the others aren't looked at.
///
/// Its cost is for each sub-index that of its range.
pub fn best_sub_index(
    alloc: Global,
    conds: &[Cond],
    subs: &[Listed<Name>],
    columns: &[Column],
) -> Result<SubRange, Memory>
    ensures { IfOk result (IsSubRange columns.now conds.now subs.now) }
{
    let range = Range::whole(alloc);
    let mut best = SubRange { sub: 0, range };
    let mut sub = 0;
    let mut rest = subs;
    'each: while let Some((names, later)) = rest.split_first() {
        if sub == u8::MAX {
            return Ok(best);
        }
        sub += 1;
        let range = range_of(alloc, conds, names.as_slice(), columns)?;
        best = narrower(best, SubRange { sub, range });
        rest = later;
    }
    Ok(best)
}
