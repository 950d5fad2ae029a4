//! What the arguments of the command ask for.

ghost use Rattle.std.specs.Prelude.{◌≡◌, map};
ghost use Rattle.std.specs.Option.{option_map};
ghost use Rattle.std.specs.String.{string_bytes};
ghost use Rattle.ctxcsv.specs.Arguments.{asked, asks, is_option_like, with_key, without_key};

/// What the arguments of the command ask for.
#[derive(Clone, Copy)]
pub struct Asked<'a> {
    /// The name of the table.
    pub table: &'a str,
    /// The name of the column that is the key, where one is given.
    pub key: Option<&'a str>,
}

/// Whether the argument begins with `-`.
fn is_option_like(argument: &str) -> bool
    ensures { result ≡ is_option_like argument.now }
{
    match argument.as_bytes() {
        [first, ..] => *first == b'-',
        [] => false,
    }
}

/// What three arguments ask for.
fn with_key<'a>(first: &'a str, second: &'a str, third: &'a str) -> Option<Asked<'a>>
    ensures { option_map asks result ≡ with_key first.now second.now third.now }
{
    if second == "--key" {
        return Some(Asked {
            table: first,
            key: Some(third),
        });
    }
    if first == "--key" {
        return Some(Asked {
            table: third,
            key: Some(second),
        });
    }
    None
}

/// What one argument asks for.
fn without_key(table: &str) -> Option<Asked<'_>>
    ensures { option_map asks result ≡ without_key table.now }
{
    if is_option_like(table) {
        return None;
    }
    Some(Asked { table, key: None })
}

/// Reads the arguments of the command `ctxcsv TABLE [--key NAME]`; None where they aren't of this form.
pub fn parse(arguments: &[String]) -> Option<Asked<'_>>
    ensures { option_map asks result ≡ asked (map string_bytes arguments.now) }
{
    match arguments {
        [table] => without_key(table.as_str()),
        [first, second, third] => with_key(first.as_str(), second.as_str(), third.as_str()),
        _ => None,
    }
}
