//! The map that the pages of the store file hold: what pages and strings mean, and the map that is read from them.
#![tactic(auto)]

mod item_reading;
mod items;
mod sheet_reading;
mod sheets;

ghost use Rattle.pg_map.specs.MapLaws.{PagesAreRead, PagesHoldOneMap};

pub use item_reading::{Form, item_of};
pub use items::{far_in, far_string, key_in, short_string};
pub use sheet_reading::sheet_of;
pub use sheets::{Sheet, long_bytes, root_bytes};

/// Pages hold one map at most, and it is read from them.
pub fn pages_hold_one_map()
    ensures one { PagesHoldOneMap }
    ensures read { PagesAreRead }
{}
