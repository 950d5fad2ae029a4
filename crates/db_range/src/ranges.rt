//! Between which places of a sub-index the rows lie that meet conditions.

ghost use Rattle.std.specs.Prelude.{◌≡◌, ◌++◌, length, IfOk, OnOk};
ghost use Rattle.db_range.specs.Places.{is_known, or_whole};
ghost use Rattle.db_range.specs.Ranges.{Covers, IsRangeOf};

use crate::places::Range;
use crate::values::value_range;
use ct_base::{Listed, Memory, Name};
use st_parse::Cond;
use std::alloc::Global;
use tb_table::Column;

/// Adds the bytes of a value between which it lies; whether they are the same, so that what follows it may bound the places too.
fn add_value(low: &mut Vec<u8>, high: &mut Vec<u8>, first: Option<Range>) -> Result<bool, Memory>
    ensures low { OnOk result (low.new.items ≡ low.old.items ++ (or_whole first).low) }
    ensures high { OnOk result (high.new.items ≡ high.old.items ++ (or_whole first).high) }
    ensures known { IfOk result (λ known. known ≡ is_known first) }
{
    let Some(first) = first else {
        return Ok(false);
    };
    low.extend_from_slice(first.low.as_slice())?;
    high.extend_from_slice(first.high.as_slice())?;
    Ok(first.is_one())
}

fn range_between(low: Vec<u8>, high: Vec<u8>) -> Range
    ensures low { result.low ≡ low.items }
    ensures high { result.high ≡ high.items }
{
    Range {
        low: Listed::of(low),
        high: Listed::of(high),
    }
}

/// Between which places of a sub-index of the columns with these names, in their order, the rows of a table with these columns lie
/// that meet all conditions.
fn along_columns(
    alloc: Global,
    conds: &[Cond],
    names: &[Name],
    columns: &[Column],
) -> Result<Range, Memory>
    ensures { IfOk result (IsRangeOf columns.now conds.now names.now) }
{
    let mut low = Vec::new(alloc);
    let mut high = Vec::new(alloc);
    let mut rest = names;
    'each: while let Some((name, later)) = rest.split_first() {
        let first = value_range(alloc, conds, name, columns)?;
        let known = add_value(&mut low, &mut high, first)?;
        if !known {
            return Ok(range_between(low, high));
        }
        rest = later;
    }
    Ok(range_between(low, high))
}

/// Between which places of a sub-index of the columns with these names, in their order, the rows of a table with these columns lie
/// that meet all conditions. Others may lie there too.
///
/// It goes along the columns as long as the conditions tell one value of each, and ends behind the first of which they bound the
/// numbers, or at the first of which they tell nothing. A text of over 100 bytes, which no column of a sub-index has, tells
/// nothing. Its cost is for each of these columns that of its conditions and their operands.
pub fn range_of(
    alloc: Global,
    conds: &[Cond],
    names: &[Name],
    columns: &[Column],
) -> Result<Range, Memory>
    ensures range { IfOk result (IsRangeOf columns.now conds.now names.now) }
    ensures covers { IfOk result (Covers columns.now names.now conds.now) }
    ensures long { IfOk result (λ range. length range.low ≡ length range.high) }
{
    let range = along_columns(alloc, conds, names, columns)?;
    Ok(range)
}
