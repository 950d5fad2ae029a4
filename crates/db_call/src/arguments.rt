//! The arguments of a procedure.

ghost use Rattle.std.specs.Prelude.{◌≡◌, map, IfOk};
ghost use Rattle.std.specs.Char.{to_ascii_lowercase};
ghost use Rattle.std.specs.List.{list_all};
ghost use Rattle.std.specs.Option.{option_map};
ghost use Rattle.db_call.specs.Arguments.{are_texts as are_so_many_texts, is_text_argument, argument_name as name_there, spells_word as is_this_word, spelt_name as name_spelt, argument_text as text_there, text_of as its_text};

use ct_base::{Memory, Name, NameFault};
use st_parse::Arg;
use std::alloc::Global;

/// The name that a text spells, in any ASCII case; None where it spells none.
pub fn spelt_name(alloc: Global, text: &str) -> Result<Option<Name>, Memory>
    ensures { IfOk result (λ found. found ≡ name_spelt text.now) }
{
    match Name::read(alloc, text) {
        Ok(name) => Ok(Some(name)),
        Err(NameFault::NotAName) => Ok(None),
        Err(NameFault::Memory) => Err(Memory),
    }
}

/// The text that an argument is, if it is one.
fn text_of(arg: &Arg) -> Option<&str>
    ensures { option_map (λ t. t.now) result ≡ its_text arg.now }
{
    match arg {
        Arg::Text(text) => Some(text.as_str()),
        Arg::Number(_) | Arg::Flag(_) => None,
    }
}

/// The text at a place of the arguments, counted from 0; None where there is none, or it is no text. Its cost is the place.
pub fn text_at(args: &[Arg], place: usize) -> Option<&str>
    ensures { option_map (λ t. t.now) result ≡ text_there place args.now }
{
    let mut before = place;
    let mut rest = args;
    while let [first, later @ ..] = rest {
        if before == 0 {
            return text_of(first);
        }
        before -= 1;
        rest = later;
    }
    None
}

/// The name that the text at a place spells, in any ASCII case; None where there is no text, or it spells no name.
pub fn name_at(alloc: Global, args: &[Arg], place: usize) -> Result<Option<Name>, Memory>
    ensures { IfOk result (λ found. found ≡ name_there place args.now) }
{
    match text_at(args, place) {
        Some(text) => spelt_name(alloc, text),
        None => Ok(None),
    }
}

fn are_all_texts(args: &[Arg]) -> bool
    ensures { result ≡ list_all is_text_argument args.now }
{
    args.iter().all(|arg| matches!(arg, Arg::Text(_)))
}

/// Whether there are exactly `count` arguments, all of them texts.
pub fn are_texts(args: &[Arg], count: usize) -> bool
    ensures { result ≡ are_so_many_texts count args.now }
{
    args.len() == count && are_all_texts(args)
}

/// Whether there is a text, and it is this word, in any ASCII case.
pub fn spells_word(text: Option<&str>, word: &str) -> bool
    requires lower { map to_ascii_lowercase word.now ≡ word.now }
    ensures { result ≡ is_this_word word.now (option_map (λ t. t.now) text.entry) }
{
    match text {
        Some(text) => text.eq_ignore_ascii_case(word),
        None => false,
    }
}
