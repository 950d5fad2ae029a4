//! Ranges of places.

ghost use Rattle.std.specs.Prelude.{◌≡◌, length, take};
ghost use Rattle.ct_entry.specs.Keys.{same_list};
ghost use Rattle.cat_walk.specs.Places.{comes_before as stands_before, is_between};
ghost use Rattle.db_range.specs.Places.{is_one as has_one, whole};

use ct_base::{Bytes, Listed};
use std::alloc::Global;

/// Places from `low` to `high`, which have the same number of bytes: those behind `low`, whose first bytes, as many as `high` has, are
/// these at most. None lies there where `low` is the greater.
#[derive(Debug, Drop)]
pub struct Range {
    pub low: Bytes,
    pub high: Bytes,
}

impl Range {
    /// All places. It takes no memory.
    pub(crate) fn whole(alloc: Global) -> Range
        ensures { result ≡ whole }
    {
        Range {
            low: Listed::empty(alloc),
            high: Listed::empty(alloc),
        }
    }

    /// Whether a place lies in the range.
    pub fn has(&self, place: &[u8]) -> bool
        ensures { result ≡ is_between self.now.low self.now.high place.now }
    {
        comes_before(self.low.as_slice(), place) && !self.is_past(place)
    }

    /// Whether a place, and so each behind it, stands behind the range.
    pub fn is_past(&self, place: &[u8]) -> bool
        ensures { result ≡ stands_before self.now.high (take (length self.now.high) place.now) }
    {
        let high = self.high.as_slice();
        comes_before(high, beginning(place, high.len()))
    }

    /// Whether both ends are the same.
    pub(crate) fn is_one(&self) -> bool
        ensures { result ≡ has_one self.now }
    {
        are_same_bytes(self.low.as_slice(), self.high.as_slice())
    }
}

fn are_same_bytes(a: &[u8], b: &[u8]) -> bool
    ensures { result ≡ same_list a.now b.now }
{
    a == b
}

/// In the order of bytes.
fn comes_before(a: &[u8], b: &[u8]) -> bool
    ensures { result ≡ stands_before a.now b.now }
{
    a.cmp(b).is_lt()
}

/// The first bytes of a place, so many of them; all where it has fewer.
fn beginning(place: &[u8], count: usize) -> &[u8]
    ensures { result.now ≡ take count place.now }
{
    if place.len() <= count {
        place
    } else {
        place.split_at(count).0
    }
}
