//! Searches in pairs whose starts are in order.
//!
//! A pair that ends before its start is turned, by the difference; a run of words is turned by 0. The searches take a number
//! by which each pair is turned at most, and stop where no later pair can count.

ghost use Rattle.std.specs.Prelude.{◌≡◌, ◌≤◌, ◌-◌, nat_lt, filter};
ghost use Rattle.ix_spans.specs.InOrder.{StartsInOrder};
ghost use Rattle.ix_spans.specs.Windows.{most_turned, starts_from, least_of, least_end, first_by, next_start};

use crate::searching::behind;
use ct_base::Pair;

/// The most by which one of the pairs is turned. The cost is that of reading them.
pub(crate) fn most_turned(pairs: &[Pair]) -> u32
    ensures { result ≡ most_turned pairs.now }
{
    let mut most = 0;
    for pair in pairs {
        most = most.max(pair.first.saturating_sub(pair.last));
    }
    most
}

/// The pairs that start at `from` or behind it. The cost is the logarithm of how many pairs there are.
fn starting_from(pairs: &[Pair], from: u64) -> &[Pair]
    requires { StartsInOrder pairs.now }
    ensures these { result.now ≡ filter (starts_from from) pairs.now }
    ensures order { StartsInOrder result.now }
    ensures turned { most_turned result.now ≤ most_turned pairs.now }
{
    let before = pairs.partition_point(|pair| (pair.first as u64) < from);
    behind(pairs, before)
}

/// Whether a pair starts so far behind `end` that neither it nor a later one ends there or before.
fn is_past(pair: Pair, end: u64, turned: u32) -> bool
    ensures { result ≡ nat_lt end (pair.first - turned) }
{
    end < pair.first.saturating_sub(turned) as u64
}

/// The start of the first of the pairs that ends at `end` or before it.
fn first_by(pairs: &[Pair], end: u64, turned: u32) -> Option<u32>
    requires order { StartsInOrder pairs.now }
    requires turned { most_turned pairs.now ≤ turned }
    ensures { result ≡ first_by end pairs.now }
{
    for pair in pairs {
        if pair.last as u64 <= end {
            return Some(pair.first);
        }
        if is_past(*pair, end, turned) {
            break;
        }
    }
    None
}

/// The least start behind `before` of a pair that ends at `end` or before it.
///
/// The cost is the logarithm of how many pairs there are, and the pairs that start between and end behind `end`: no more than
/// start within the length of the longest.
pub(crate) fn next_start(pairs: &[Pair], before: u32, end: u64, turned: u32) -> Option<u32>
    requires order { StartsInOrder pairs.now }
    requires turned { most_turned pairs.now ≤ turned }
    ensures { result ≡ next_start before end pairs.now }
{
    first_by(starting_from(pairs, before as u64 + 1), end, turned)
}

/// The least of an end and those of pairs.
fn least_of(end: u32, pairs: &[Pair], turned: u32) -> u32
    requires order { StartsInOrder pairs.now }
    requires turned { most_turned pairs.now ≤ turned }
    ensures { result ≡ least_of end pairs.now }
{
    let mut least = end;
    for pair in pairs {
        if is_past(*pair, least as u64, turned) {
            break;
        }
        least = least.min(pair.last);
    }
    least
}

/// The least end of the pairs that start at `from` or behind it.
///
/// The cost is the logarithm of how many pairs there are, and the pairs that start before that end: no more than start within
/// the length of the longest.
pub(crate) fn least_end(pairs: &[Pair], from: u64, turned: u32) -> Option<u32>
    requires order { StartsInOrder pairs.now }
    requires turned { most_turned pairs.now ≤ turned }
    ensures { result ≡ least_end from pairs.now }
{
    let [first, others @ ..] = starting_from(pairs, from) else {
        return None;
    };
    Some(least_of(first.last, others, turned))
}
