//! Places in lists in which they rise. Each is found by a binary search, whose cost is the logarithm of their number.

ghost use Rattle.std.specs.Prelude.{◌≡◌, ◌≤◌, drop, length, not, true, IfOk};
ghost use Rattle.std.specs.List.{prefix_len};
ghost use Rattle.ct_entry.specs.Listings.{first_of};
ghost use Rattle.cat_walk.specs.Places.{IsNext, comes_before, is_first, is_listed, next_of, places_rise};

use ct_base::{Bytes, Memory};
use std::alloc::Global;

/// The same place once more.
pub fn place_copy(alloc: Global, place: &[u8]) -> Result<Vec<u8>, Memory>
    ensures { IfOk result (λ copy. copy.items ≡ place.now) }
{
    let copy = Vec::from_slice(alloc, place)?;
    Ok(copy)
}

/// The places without so many of the first.
fn without_first(places: &[Bytes], count: usize) -> &[Bytes]
    requires { count ≤ length places.now }
    ensures { result.now ≡ drop count places.now }
{
    &places[count..]
}

/// The places from the first on that doesn't come before one.
fn from_on<'a>(places: &'a [Bytes], place: &[u8]) -> &'a [Bytes]
    requires { places_rise places.now ≡ true }
    ensures { result.now ≡ drop (prefix_len (λ p. comes_before p place.now) places.now) places.now }
{
    let before = places.partition_point(|listed| listed.as_slice().cmp(place).is_lt());
    without_first(places, before)
}

/// The places behind one.
fn behind<'a>(places: &'a [Bytes], after: &[u8]) -> &'a [Bytes]
    requires { places_rise places.now ≡ true }
    ensures { result.now ≡ drop (prefix_len (λ p. not (comes_before after.now p)) places.now) places.now }
{
    let up_to = places.partition_point(|listed| !after.cmp(listed.as_slice()).is_lt());
    without_first(places, up_to)
}

fn is_first(places: &[Bytes], place: &[u8]) -> bool
    ensures { result ≡ is_first places.now place.now }
{
    match places {
        [] => false,
        [first, ..] => first.as_slice() == place,
    }
}

fn first_of(alloc: Global, places: &[Bytes]) -> Result<Option<Vec<u8>>, Memory>
    ensures { IfOk result (λ first. next_of first ≡ first_of places.now) }
{
    match places {
        [] => Ok(None),
        [first, ..] => Ok(Some(place_copy(alloc, first.as_slice())?)),
    }
}

/// Whether a place is one of a list.
pub(crate) fn is_listed(places: &[Bytes], place: &[u8]) -> bool
    requires { places_rise places.now ≡ true }
    ensures { result ≡ is_listed places.now place.now }
{
    is_first(from_on(places, place), place)
}

/// The next place of a list behind one.
pub(crate) fn next_listed(
    alloc: Global,
    places: &[Bytes],
    after: &[u8],
) -> Result<Option<Vec<u8>>, Memory>
    requires { places_rise places.now ≡ true }
    ensures { IfOk result (λ next. IsNext (is_listed places.now) after.now (next_of next)) }
{
    first_of(alloc, behind(places, after))
}
