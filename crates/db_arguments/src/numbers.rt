//! The numbers that values of options spell. The definitions of `specs/Arguments.antt` have the names of the constants.

ghost use Rattle.std.specs.Prelude.{◌≡◌, ◌<◌, ◌^◌};
ghost use Rattle.std.specs.Char.{is_ascii_digit};
ghost use Rattle.std.specs.List.{list_all};
ghost use Rattle.db_arguments.specs.Arguments.{greatest_degree, least_limit, most_rows, store_limit};
ghost use Rattle.db_arguments.specs.Reading.{is_number, number_of};

use crate::arguments::STORE_LIMIT;

/// The least limit.
pub const LEAST_LIMIT: u64 = 4096;

/// The greatest degree.
pub const GREATEST_DEGREE: u64 = 16;

/// The most rows that a script may be generated for.
pub const MOST_ROWS: u64 = 100_000;

fn are_digits(bytes: &[u8]) -> bool
    ensures { result ≡ list_all is_ascii_digit bytes.now }
{
    bytes.iter().all(|byte| byte.is_ascii_digit())
}

/// Whether the text has 1 to 20 digits and nothing else.
fn is_number(text: &str) -> bool
    ensures { result ≡ is_number text.now }
{
    let bytes = text.as_bytes();
    are_digits(bytes) && (1 <= bytes.len() && bytes.len() <= 20)
}

/// The number from the least to the greatest that the value spells. Its cost is the length of the value.
fn number_of(value: &str, least: u64, greatest: u64) -> Option<u64>
    requires { greatest < 2 ^ 64 }
    ensures { result ≡ number_of least greatest value.now }
{
    if !is_number(value) {
        return None;
    }
    // 20 digits may pass 64 bits, and then `parse` refuses them
    let number = value.parse::<u64>().ok()?;
    if least <= number && number <= greatest {
        Some(number)
    } else {
        None
    }
}

/// The limit that the value spells.
pub(crate) fn limit_of(value: &str) -> Option<u64>
    ensures { result ≡ number_of least_limit store_limit value.now }
{
    number_of(value, LEAST_LIMIT, STORE_LIMIT)
}

/// The degree that the value spells.
pub(crate) fn degree_of(value: &str) -> Option<u32>
    ensures { result ≡ number_of 1 greatest_degree value.now }
{
    let degree = number_of(value, 1, GREATEST_DEGREE)?;
    Some(degree as u32)
}

/// The number of rows that the value spells.
pub(crate) fn rows_of(value: &str) -> Option<u32>
    ensures { result ≡ number_of 1 most_rows value.now }
{
    let rows = number_of(value, 1, MOST_ROWS)?;
    Some(rows as u32)
}
