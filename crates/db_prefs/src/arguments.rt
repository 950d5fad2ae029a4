//! What the arguments of these procedures spell.

ghost use Rattle.std.specs.Prelude.{◌≡◌, map, IfOk};
ghost use Rattle.std.specs.Char.{to_ascii_lowercase};
ghost use Rattle.std.specs.Option.{option_map};
ghost use Rattle.db_prefs.specs.Arguments.{are_texts_and_flag as texts_and_flag, is_flagged as flagged, lower_at as lower_there};

use ct_base::{Memory, Text};
use db_call::text_at;
use st_parse::Arg;
use std::alloc::Global;

/// The text in ASCII lower case.
fn lower_case(alloc: Global, text: &str) -> Result<Text, Memory>
    ensures { IfOk result (λ lower. lower ≡ map to_ascii_lowercase text.now) }
{
    let lower = text.to_ascii_lowercase(alloc)?;
    Ok(Text::owned(lower))
}

/// The text at a place of the arguments in ASCII lower case; None where there is no text.
pub(crate) fn lower_at(alloc: Global, args: &[Arg], place: usize) -> Result<Option<Text>, Memory>
    ensures { IfOk result (λ found. found ≡ lower_there place args.now) }
{
    match text_at(args, place) {
        Some(text) => Ok(Some(lower_case(alloc, text)?)),
        None => Ok(None),
    }
}

/// Whether the arguments are three texts and a truth value.
pub(crate) fn are_texts_and_flag(args: &[Arg]) -> bool
    ensures { result ≡ texts_and_flag args.now }
{
    matches!(
        args,
        [Arg::Text(_), Arg::Text(_), Arg::Text(_), Arg::Flag(_)]
    )
}

/// Whether the fourth argument is TRUE.
pub(crate) fn is_flagged(args: &[Arg]) -> bool
    ensures { result ≡ flagged args.now }
{
    match args {
        [_, _, _, Arg::Flag(flag), ..] => *flag,
        _ => false,
    }
}
