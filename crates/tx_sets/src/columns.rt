//! The columns of a sub-index, as a text tells them.

ghost use Rattle.std.specs.Prelude.{◌≡◌, ◌∷◌, ◌<◌, [], IfOk, IfSome, MatchOption, length};
ghost use Rattle.std.specs.Option.{option_map};
ghost use Rattle.tx_sets.specs.Columns.{between_commas, column_in, columns_of};

use ct_base::{Memory, Name, NameFault};
use std::alloc::Global;

/// What stands before the first comma and behind it; None where there is no comma.
fn split_comma(text: &str) -> Option<(&str, &str)>
    ensures parts { MatchOption result (between_commas text.now ≡ text.now ∷ []) (λ x. between_commas text.now ≡ x.0.now ∷ between_commas x.1.now) }
    ensures shorter { IfSome result (λ x. length x.1.now < length text.now) }
{
    text.split_once(',')
}

/// The name that a text spells in any ASCII case, with white space around it or without; None where it spells none.
fn read_column(alloc: Global, text: &str) -> Result<Option<Name>, Memory>
    ensures { IfOk result (λ found. found ≡ column_in text.now) }
{
    match Name::read(alloc, text.trim()) {
        Ok(name) => Ok(Some(name)),
        Err(NameFault::NotAName) => Ok(None),
        Err(NameFault::Memory) => Err(Memory),
    }
}

/// The columns that a text tells: names in any ASCII case with commas between them, and white space where one likes. None exactly where
/// the text isn't of this form. How many there are isn't asked, nor whether one comes twice. Its cost is linear in the length of the text.
pub fn read_columns(alloc: Global, text: &str) -> Result<Option<Vec<Name>>, Memory>
    ensures { IfOk result (λ found. option_map (λ v. v.items) found ≡ columns_of text.now) }
{
    let mut names = Vec::new(alloc);
    let mut rest = text;
    'columns: while let Some((first, later)) = split_comma(rest) {
        let Some(name) = read_column(alloc, first)? else {
            return Ok(None);
        };
        names.push(name)?;
        rest = later;
    }
    let Some(name) = read_column(alloc, rest)? else {
        return Ok(None);
    };
    names.push(name)?;
    Ok(Some(names))
}
