//! Searches in lists of numbers that rise strictly. Each costs the logarithm of the list's length.

ghost use Rattle.std.specs.Prelude.{◌≡◌, ◌≤◌, length, take, drop, filter, nat_le};
ghost use Rattle.ix_spans.specs.Occurrences.{has_number};
ghost use Rattle.ix_spans.specs.Rising.{Rising, is_between_places};

/// Whether a number is in a list that rises.
pub(crate) fn has_number(numbers: &[u32], number: u32) -> bool
    requires { Rising numbers.now }
    ensures { result ≡ has_number numbers.now number }
{
    numbers.binary_search(&number).is_ok()
}

/// What follows so many of the items.
pub(crate) fn behind<T>(items: &[T], count: usize) -> &[T]
    requires { count ≤ length items.now }
    ensures { result.now ≡ drop count items.now }
{
    &items[count..]
}

/// So many of the numbers.
fn front(numbers: &[u32], count: usize) -> &[u32]
    requires { count ≤ length numbers.now }
    ensures { result.now ≡ take count numbers.now }
{
    &numbers[..count]
}

/// Those of rising numbers that are `least` or more.
fn from_on(numbers: &[u32], least: u32) -> &[u32]
    requires { Rising numbers.now }
    ensures { result.now ≡ filter (λ n. nat_le least n) numbers.now }
{
    let below = numbers.partition_point(|n| *n < least);
    behind(numbers, below)
}

/// Those of rising numbers that are `most` or less.
fn up_to(numbers: &[u32], most: u32) -> &[u32]
    requires { Rising numbers.now }
    ensures { result.now ≡ filter (λ n. nat_le n most) numbers.now }
{
    let within = numbers.partition_point(|n| *n <= most);
    front(numbers, within)
}

/// Those of rising numbers that are in lo to hi.
#[tactic(auto, using(crate::specs::laws::Rising::filter_rises))]
pub(crate) fn those_in(numbers: &[u32], lo: u32, hi: u32) -> &[u32]
    requires { Rising numbers.now }
    ensures { result.now ≡ filter (is_between_places lo hi) numbers.now }
{
    up_to(from_on(numbers, lo), hi)
}
