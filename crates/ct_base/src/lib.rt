//! What every crate shares: names, numbers, owned texts and lists, and how a text is read character by character.
#![tactic(auto)]

mod faults;
mod limits;
mod lists;
mod names;
mod numbers;
mod reading;
mod texts;

pub use faults::Memory;
pub use limits::{COLUMN_LIMIT, NAME_LIMIT, ROW_LIMIT, TABLE_LIMIT, TEXT_LIMIT, TOKEN_LIMIT};
pub use lists::{Bytes, Listed, Numbers, Pairs, Value, Values};
pub use names::{Name, NameFault};
pub use numbers::{DocId, Pair, RowKey};
pub use reading::{first_char, push_ascii, push_char, split_first};
pub use texts::Text;
