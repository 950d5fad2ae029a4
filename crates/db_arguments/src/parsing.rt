//! Parsing the arguments, which the crate `clap` does.

ghost use Rattle.std.specs.Prelude.{◌≡◌, ◌⊎◌, [], false, IfOk, IfErr, map};
ghost use Rattle.std.specs.String.{string_bytes};
ghost use Rattle.clap.specs.Words.{fault_of, found_of, kind_of, matches_of, rows_of, rule_of, IsAmong};
ghost use Rattle.db_arguments.specs.Form.{app, option_arg};
ghost use Rattle.db_arguments.specs.Gathering.{AreGathered};

use clap::error::ErrorKind;
use clap::{Arg, ArgAction, ArgMatches, Command, Error};
use ct_base::Memory;
use std::alloc::Global;

/// The texts that arguments give, where they give them.
#[derive(Clone, Copy)]
pub(crate) struct Given<'a> {
    pub(crate) file: Option<&'a str>,
    pub(crate) limit: Option<&'a str>,
    pub(crate) degree: Option<&'a str>,
    pub(crate) rows: Option<&'a str>,
}

/// The option of this name, which takes a value.
fn option<'a>(alloc: Global, name: &'a str) -> Arg<'a>
    ensures rule { rule_of result ≡ option_arg name.now }
    ensures local { result.global ≡ false }
{
    Arg::new(alloc, name).long(name).action(ArgAction::Set)
}

/// Matches the words of the arguments with the command's form: three options, each at most once with one value, and a FILE. The command has no help of
/// its own, so `--help` is no option.
fn matches<'a>(alloc: Global, words: &'a [String]) -> Result<ArgMatches<'a>, Error>
    ensures taken { IfOk result (λ m. (fault_of app (map string_bytes words.now) ≡ []) × (rows_of (found_of m) ≡ matches_of app (map string_bytes words.now))) }
    ensures refused { IfErr result (λ e. (kind_of e ≡ ErrorKind.OutOfMemory) ⊎ IsAmong (kind_of e) (fault_of app (map string_bytes words.now))) }
{
    let command = Command::new(alloc, "ctxsql")
        .no_binary_name(true)
        .disable_help_flag(true)
        .arg(option(alloc, "limit"))?
        .arg(option(alloc, "degree"))?
        .arg(option(alloc, "generate"))?
        .arg(Arg::new(alloc, "file"))?;
    command.try_get_matches_from(words)
}

/// Parses the arguments; None where they aren't options with their values and at most one FILE.
pub(crate) fn parse<'a>(alloc: Global, arguments: &'a [String]) -> Result<Option<Given<'a>>, Memory>
    ensures { IfOk result (AreGathered (map string_bytes arguments.now)) }
{
    match matches(alloc, arguments) {
        Ok(matches) => {
            let file = matches.get_str("file");
            let limit = matches.get_str("limit");
            let degree = matches.get_str("degree");
            let rows = matches.get_str("generate");
            Ok(Some(Given {
                file,
                limit,
                degree,
                rows,
            }))
        }
        Err(error) => match error.kind() {
            ErrorKind::OutOfMemory => Err(Memory),
            _ => Ok(None),
        },
    }
}
