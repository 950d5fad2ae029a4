//! Numbers and texts as bytes, exact both ways.
#![tactic(auto)]

mod laws;
mod numbers;
mod row_keys;
mod texts;
mod varints;

pub use laws::{numbers_are_exact, row_keys_are_exact, texts_are_exact, varints_are_exact};
pub use numbers::{put_u16, put_u32, read_u16, read_u32};
pub use row_keys::{read_row_key, row_key_bytes, row_key_of};
pub use texts::{put_text, read_text};
pub use varints::{put_varint, read_varint, varint_len};
