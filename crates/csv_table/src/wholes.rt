//! The whole numbers of a file.

ghost use Rattle.std.specs.Prelude.{◌≡◌, IfOk};
ghost use Rattle.std.specs.Char.{is_ascii_digit};
ghost use Rattle.std.specs.List.{list_all};
ghost use Rattle.std.specs.Option.{option_map};
ghost use Rattle.ct_base.specs.Characters.{is_first};
ghost use Rattle.csv_table.specs.Wholes.{above_zero, after_minus, are_digits, begins_well, below_zero, fits, is_whole, whole};

use ct_base::{Memory, Text};
use st_parse::{Whole, negated, number};
use std::alloc::Global;

fn are_all_digits(bytes: &[u8]) -> bool
    ensures { result ≡ list_all is_ascii_digit bytes.now }
{
    bytes.iter().all(|byte| byte.is_ascii_digit())
}

fn begins_well(bytes: &[u8]) -> bool
    ensures { result ≡ begins_well bytes.now }
{
    match bytes {
        [] => false,
        [_] => true,
        [first, ..] => *first != b'0',
    }
}

fn are_digits(bytes: &[u8]) -> bool
    ensures { result ≡ are_digits bytes.now }
{
    are_all_digits(bytes) && begins_well(bytes)
}

fn begins_with_zero(bytes: &[u8]) -> bool
    ensures { result ≡ is_first 48 bytes.now }
{
    match bytes {
        [] => false,
        [first, ..] => *first == b'0',
    }
}

/// What follows a minus at the beginning.
fn after_minus(field: &str) -> Option<&str>
    ensures { option_map (λ s. s.now) result ≡ after_minus field.now }
{
    field.strip_prefix("-")
}

fn above_zero(field: &Text) -> Whole
    ensures { result ≡ above_zero field.now }
{
    if are_digits(field.as_str().as_bytes()) {
        number(field)
    } else {
        Whole::Beyond
    }
}

fn below_zero(alloc: Global, digits: &str) -> Result<Whole, Memory>
    ensures { IfOk result (λ n. n ≡ below_zero digits.now) }
{
    let bytes = digits.as_bytes();
    if !are_digits(bytes) || begins_with_zero(bytes) {
        return Ok(Whole::Beyond);
    }
    let copy = Text::of(alloc, digits)?;
    Ok(negated(&copy))
}

/// The number that a field is. Its cost is the length of the field.
pub(crate) fn whole(alloc: Global, field: &Text) -> Result<Whole, Memory>
    ensures { IfOk result (λ n. n ≡ whole field.now) }
{
    match after_minus(field.as_str()) {
        Some(digits) => below_zero(alloc, digits),
        None => Ok(above_zero(field)),
    }
}

fn fits(n: Whole) -> bool
    ensures { result ≡ fits n }
{
    match n {
        Whole::Fits(_) => true,
        Whole::Beyond => false,
    }
}

/// Whether the field is a whole number of 64 bits. Its cost is the length of the field.
pub(crate) fn is_whole(alloc: Global, field: &Text) -> Result<bool, Memory>
    ensures { IfOk result (λ told. told ≡ is_whole field.now) }
{
    Ok(fits(whole(alloc, field)?))
}
