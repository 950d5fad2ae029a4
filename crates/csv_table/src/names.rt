//! The names of the table and of its columns.

ghost use Rattle.std.specs.Prelude.{◌≡◌, ◌<◌, ◌≤◌, [], bytes_eq, get_or, length, map, IfErr, IfOk, IfSome, is_some};
ghost use Rattle.std.specs.Char.{to_ascii_lowercase};
ghost use Rattle.std.specs.List.{AllByRecursion, list_any, remove};
ghost use Rattle.std.specs.Option.{option_map};
ghost use Rattle.ct_base.specs.Names.{IsName};
ghost use Rattle.csv.specs.Records.{fields_of};
ghost use Rattle.st_parse.specs.Keywords.{keyword_of};
ghost use Rattle.csv_table.specs.Faults.{ColumnNameFault, HeaderFault, UnknownFault, is_plain_name};
ghost use Rattle.csv_table.specs.Steps.{is_word};
ghost use Rattle.csv_table.specs.Tables.{AreNamesOf, IsKeyAt, IsPlainName, names_apart};

use crate::refusals::Refusal;
use crate::texts::{line_of, texts_of};
use csv::ByteRecord;
use ct_base::{COLUMN_LIMIT, Memory, Name, NameFault, Text};
use st_parse::{LexFault, Lexeme, lexeme_at};
use std::alloc::Global;

fn is_word(lexeme: &Lexeme) -> bool
    ensures { result ≡ is_word lexeme.now }
{
    match lexeme {
        Lexeme::Word(_) => true,
        _ => false,
    }
}

/// Whether a word that is spelt as a name in lower case is a keyword.
#[tactic(auto, using(crate::proofs::Words::word_read, crate::proofs::Words::some_read))]
fn is_keyword(alloc: Global, word: &str) -> Result<bool, Memory>
    requires { IsName word.now }
    ensures { IfOk result (λ told. told ≡ is_some (keyword_of word.now)) }
{
    match lexeme_at(alloc, word) {
        Ok((lexeme, _)) => Ok(is_word(&lexeme)),
        Err(LexFault::NoLexeme) => Ok(false),
        Err(LexFault::Memory) => Err(Memory),
    }
}

/// The name that a text is, in lower case, where it is one and no keyword. Its cost is the length of the text.
#[tactic(auto, using(crate::proofs::TableSteps::plain_is, crate::proofs::FaultSteps::plain_told, crate::proofs::FaultSteps::keyword_told, crate::proofs::FaultSteps::no_name_told))]
pub(crate) fn plain_name(alloc: Global, text: &str) -> Result<Option<Name>, Memory>
    ensures name { IfOk result (λ found. IfSome found (λ name. name ≡ map to_ascii_lowercase text.now)) }
    ensures plain { IfOk result (λ found. IfSome found (λ name. IsPlainName name)) }
    ensures told { IfOk result (λ found. is_some found ≡ is_plain_name text.now) }
{
    match Name::read(alloc, text) {
        Ok(name) => {
            if is_keyword(alloc, name.as_str())? {
                return Ok(None);
            }
            Ok(Some(name))
        }
        Err(NameFault::NotAName) => Ok(None),
        Err(NameFault::Memory) => Err(Memory),
    }
}

fn is_same(name: &Name, other: &Name) -> bool
    ensures { result ≡ bytes_eq name.now other.now }
{
    name.as_str() == other.as_str()
}

/// Whether one of the names is this.
fn has_name(names: &[Name], name: &Name) -> bool
    ensures { result ≡ list_any (bytes_eq name.now) names.now }
{
    names.iter().any(|other| name.as_str() == other.as_str())
}

/// Whether no two names are the same.
fn are_apart(names: &[Name]) -> bool
    ensures { result ≡ names_apart names.now }
{
    let mut rest = names;
    'names: while let [first, others @ ..] = rest {
        if has_name(others, first) {
            return false;
        }
        rest = others;
    }
    true
}

/// The names that the fields of a header are, which begins on this line.
#[tactic(auto, using(crate::proofs::TableSteps::all_push))]
fn plain_names(alloc: Global, header: &[Text], line: u64) -> Result<Vec<Name>, Refusal>
    ensures lower { IfOk result (λ names. map (map to_ascii_lowercase) header.now ≡ names.items) }
    ensures plain { IfOk result (λ names. AllByRecursion IsPlainName names.items) }
    ensures cause { IfErr result (λ e. ColumnNameFault header.now e) }
{
    let mut names = Vec::new(alloc);
    let mut rest = header;
    'fields: while let [field, after @ ..] = rest {
        let Some(name) = plain_name(alloc, field.as_str())? else {
            let field = header.len() - rest.len() + 1;
            return Err(Refusal::ColumnName { line, field });
        };
        names.push(name)?;
        rest = after;
    }
    Ok(names)
}

/// The names of the columns, by the header.
#[tactic(auto, using(crate::proofs::TableSteps::names_are))]
pub(crate) fn names_of(alloc: Global, header: &ByteRecord) -> Result<Vec<Name>, Refusal>
    ensures names { IfOk result (λ names. AreNamesOf (fields_of header.now) names.items) }
    ensures cause { IfErr result (λ e. HeaderFault (fields_of header.now) e) }
{
    let line = line_of(header);
    let texts = texts_of(alloc, header, line)?;
    if texts.is_empty() {
        return Err(Refusal::NoColumn);
    }
    if texts.len() > COLUMN_LIMIT {
        return Err(Refusal::TooManyColumns { line });
    }
    let names = plain_names(alloc, texts.as_slice(), line)?;
    if !are_apart(names.as_slice()) {
        return Err(Refusal::TwoColumns { line });
    }
    Ok(names)
}

/// The place of the column that has this name.
fn place_of_name(names: &[Name], name: &Name) -> Option<usize>
    ensures place { IfSome result (λ place. place < length names.now) }
    ensures name { IfSome result (λ place. get_or names.now place [] ≡ name.now) }
    ensures told { is_some result ≡ list_any (bytes_eq name.now) names.now }
{
    let mut rest = names;
    'names: while let [first, others @ ..] = rest {
        if is_same(name, first) {
            return Some(names.len() - rest.len());
        }
        rest = others;
    }
    None
}

/// The place of the key among the columns.
pub(crate) fn key_place(alloc: Global, names: &[Name], key: Option<&str>) -> Result<usize, Refusal>
    requires { 1 ≤ length names.now }
    ensures place { IfOk result (λ place. place < length names.now) }
    ensures key { IfOk result (λ place. IsKeyAt (option_map (λ k. k.now) key.entry) place names.now) }
    ensures cause { IfErr result (λ e. UnknownFault (option_map (λ k. k.now) key.entry) names.now e) }
{
    let Some(key) = key else {
        return Ok(0);
    };
    let Some(name) = plain_name(alloc, key)? else {
        return Err(Refusal::UnknownKey);
    };
    let Some(place) = place_of_name(names, &name) else {
        return Err(Refusal::UnknownKey);
    };
    Ok(place)
}

/// The name at this place, and the others in their order.
pub(crate) fn split_names(names: Vec<Name>, place: usize) -> (Name, Vec<Name>)
    requires { place < length names.items }
    ensures name { result.0 ≡ get_or names.items place result.0 }
    ensures others { result.1.items ≡ remove names.items place }
{
    let mut names = names;
    let name = names.remove(place);
    (name, names)
}
