//! What the arguments of the command ask for.

ghost use Rattle.std.specs.Prelude.{◌≡◌, ℕ, IfOk, IfSome, IfNone, map};
ghost use Rattle.std.specs.Option.{option_map};
ghost use Rattle.std.specs.String.{string_bytes};
ghost use Rattle.db_arguments.specs.Arguments.{AsksFor, AskForNoStore, AskForNothing};
ghost use Rattle.db_arguments.specs.Reading.{AskFor, degree_by, given_text, limit_by, wanted, wanted_by};

use crate::numbers::{degree_of, limit_of, rows_of};
use crate::parsing::parse;
use ct_base::Memory;
use std::alloc::Global;

/// How much the content of a store may weigh: the greatest limit, and the limit where no option gives one.
pub const STORE_LIMIT: u64 = 1 << 36;

/// How many threads are at work on a statement at most where no option gives a degree.
pub const DEFAULT_DEGREE: u32 = 1;

/// A FILE, how much its content may weigh, and how many threads may be at work on a statement, 1 to 16.
#[derive(Clone, Copy, Debug, PartialEq, Eq)]
pub struct Store<'a> {
    pub file: &'a str,
    pub limit: u64,
    pub degree: u32,
}

/// What the arguments of the command ask for.
#[derive(Clone, Copy, Debug, PartialEq, Eq)]
pub enum Asked<'a> {
    /// To run the script on standard input over a store.
    Over(Store<'a>),
    /// To generate a script for so many rows, and to run it.
    Rows(u32),
}

/// The limit where the option is given this value, or isn't given.
fn limit_by(value: Option<&str>) -> Option<u64>
    ensures { result ≡ limit_by (given_text value.entry) }
{
    match value {
        Some(value) => limit_of(value),
        None => Some(STORE_LIMIT),
    }
}

/// The degree where the option is given this value, or isn't given.
fn degree_by(value: Option<&str>) -> Option<u32>
    ensures { result ≡ degree_by (given_text value.entry) }
{
    match value {
        Some(value) => degree_of(value),
        None => Some(DEFAULT_DEGREE),
    }
}

/// What is asked for by a FILE, a limit and a degree.
fn asked_over<'a>(file: &'a str, limit: Option<&str>, degree: Option<&str>) -> Option<Asked<'a>>
    ensures { option_map wanted_by result ≡ wanted (Some file.now) (given_text limit.entry) (given_text degree.entry) None }
{
    let limit = limit_by(limit)?;
    let degree = degree_by(degree)?;
    Some(Asked::Over(Store {
        file,
        limit,
        degree,
    }))
}

/// What is asked for by a FILE, a limit, a degree and a number of rows, where these are given.
fn asked_by<'a>(
    file: Option<&'a str>,
    limit: Option<&str>,
    degree: Option<&str>,
    rows: Option<&str>,
) -> Option<Asked<'a>>
    ensures { option_map wanted_by result ≡ wanted (given_text file.entry) (given_text limit.entry) (given_text degree.entry) (given_text rows.entry) }
{
    match (file, limit, degree, rows) {
        (Some(file), limit, degree, None) => asked_over(file, limit, degree),
        (None, None, None, Some(rows)) => Some(Asked::Rows(rows_of(rows)?)),
        _ => None,
    }
}

/// Reads the arguments of the command, `ctxsql FILE [--limit N] [--degree N]` or `ctxsql --generate N`; None where they are of neither form.
/// Its cost is their length.
pub fn read_arguments<'a>(
    alloc: Global,
    arguments: &'a [String],
) -> Result<Option<Asked<'a>>, Memory>
    ensures some { IfOk result (λ asked. IfSome asked (λ a. AskFor (map string_bytes arguments.now) (wanted_by a))) }
    ensures none { IfOk result (λ asked. IfNone asked (AskForNothing (map string_bytes arguments.now))) }
{
    let Some(given) = parse(alloc, arguments)? else {
        return Ok(None);
    };
    Ok(asked_by(given.file, given.limit, given.degree, given.rows))
}

/// The FILE, where the arguments ask for a store. Its cost is their length.
pub fn file_of<'a>(alloc: Global, arguments: &'a [String]) -> Result<Option<&'a str>, Memory>
    ensures some { IfOk result (λ found. IfSome found (λ file. (limit : ℕ) × AsksFor (map string_bytes arguments.now) file.now limit)) }
    ensures none { IfOk result (λ found. IfNone found (AskForNoStore (map string_bytes arguments.now))) }
{
    match read_arguments(alloc, arguments)? {
        Some(Asked::Over(store)) => Ok(Some(store.file)),
        Some(Asked::Rows(_)) => Ok(None),
        None => Ok(None),
    }
}
