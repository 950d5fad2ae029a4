//! Pairs in the order of their starts.

ghost use Rattle.std.specs.Prelude.{IfOk};
ghost use Rattle.ix_spans.specs.InOrder.{StartsInOrder, SamePairs};

use ct_base::{Memory, Pair};

/// The same pairs in the order of their starts.
///
/// The cost is n times the logarithm of n for n pairs, and n for pairs that are in order. More than 20 that aren't take memory
/// for as many while they are sorted; after Memory the pairs are gone.
pub fn in_order(mut pairs: Vec<Pair>) -> Result<Vec<Pair>, Memory>
    ensures order { IfOk result (λ v. StartsInOrder v.items) }
    ensures same { IfOk result (λ v. SamePairs v.items pairs.items) }
{
    pairs.sort_by_key(|pair| pair.first)?;
    Ok(pairs)
}
