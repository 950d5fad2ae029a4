//! Rising lists made one.

ghost use Rattle.std.specs.Prelude.{◌≡◌, ◌++◌, IfOk, OnOk};
ghost use Rattle.ix_spans.specs.Rising.{Rising};
ghost use Rattle.q_tree.specs.Documents.{put_all};
ghost use Rattle.ix_lists.specs.Numbers.{lesser, greater};

use ct_base::Memory;
use std::alloc::Global;

/// Puts the numbers at the front that are less than one behind what is there.
fn put_lesser(numbers: &[u32], limit: u32, out: &mut Vec<u32>) -> Result<(), Memory>
    ensures { OnOk result (out.new.items ≡ out.old.items ++ lesser limit numbers.now) }
{
    for number in numbers {
        if *number >= limit {
            return Ok(());
        }
        out.push(*number)?;
    }
    Ok(())
}

/// The numbers without those at the front that are at most one.
fn greater(numbers: &[u32], limit: u32) -> &[u32]
    ensures { result.now ≡ greater limit numbers.now }
{
    let mut rest = numbers;
    while let [first, more @ ..] = rest {
        if *first > limit {
            break;
        }
        rest = more;
    }
    rest
}

/// The numbers of two rising lists, rising and each once. Its cost is the length of both.
fn merged_slices(alloc: Global, numbers: &[u32], others: &[u32]) -> Result<Vec<u32>, Memory>
    requires rise { Rising numbers.now }
    requires others_rise { Rising others.now }
    ensures { IfOk result (λ v. v.items ≡ put_all numbers.now others.now) }
{
    let mut out = Vec::with_capacity(alloc, numbers.len())?;
    let mut rest = others;
    for number in numbers {
        put_lesser(rest, *number, &mut out)?;
        out.push(*number)?;
        rest = greater(rest, *number);
    }
    out.extend_from_slice(rest)?;
    Ok(out)
}

/// The numbers of two rising lists, rising and each once. Its cost is the length of both, and nothing where the first has none.
pub fn merged(alloc: Global, numbers: &[u32], others: Vec<u32>) -> Result<Vec<u32>, Memory>
    requires rise { Rising numbers.now }
    requires others_rise { Rising others.items }
    ensures { IfOk result (λ v. v.items ≡ put_all numbers.now others.items) }
{
    if numbers.is_empty() {
        return Ok(others);
    }
    merged_slices(alloc, numbers, &others)
}
