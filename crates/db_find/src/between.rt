//! The places of a sub-index that lie in a range.

ghost use Rattle.cat_walk.specs.Places.{is_between};

use cat_search::PlaceRange;
use ct_base::Memory;
use db_range::Range;
use std::alloc::Global;

/// The places in a range.
#[derive(Drop)]
pub(crate) struct Between {
    pub range: Range,
}

impl PlaceRange for Between {
    ghost takes = { λ between place. is_between between.range.low between.range.high place };

    fn first(&self) -> &[u8] {
        self.range.low.as_slice()
    }

    fn takes(&self, _alloc: Global, place: &[u8]) -> Result<bool, Memory> {
        Ok(self.range.has(place))
    }

    fn is_past(&self, place: &[u8]) -> bool {
        self.range.is_past(place)
    }
}
