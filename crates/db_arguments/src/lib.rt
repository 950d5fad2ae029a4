//! Reads the arguments of the command.
#![tactic(auto)]

mod arguments;
mod laws;
mod numbers;
mod parsing;

pub use arguments::{Asked, DEFAULT_DEGREE, STORE_LIMIT, Store, file_of, read_arguments};
pub use laws::one_reading;
pub use numbers::{GREATEST_DEGREE, LEAST_LIMIT, MOST_ROWS};
