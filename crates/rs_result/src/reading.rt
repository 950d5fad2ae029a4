//! From a text to the descriptor that it is.

ghost use Rattle.std.specs.Prelude.{◌≡◌, ◌==◌, List, IfOk, IfSome, IfNone, Some, None};
ghost use Rattle.std.specs.Option.{option_map};
ghost use Rattle.std.specs.Str.{chars};
ghost use Rattle.rs_result.specs.Grammar.{IsDescriptorText, IsNoDescriptorText};
ghost use Rattle.rs_result.specs.Reading.{count_of, descriptor, descriptor_of, direction_of, group_of, hits_of, key_named, key_of, order_of, part_of};

use crate::descriptors::{Descriptor, HitKey, HitKeys, ResultPart};
use crate::lexemes::Lexeme;
use crate::lexing::lex;
use crate::pieces::{Piece, Separator, read_pieces};
use ct_base::{Listed, Memory, Name};
use std::alloc::Global;

/// Whether the greatest comes first, by what follows a key.
fn direction_of(lexemes: &[Lexeme]) -> Option<bool>
    ensures { result ≡ direction_of lexemes.now }
{
    match lexemes {
        [] => Some(false),
        [Lexeme::Word(word)] => {
            if word.as_str() == "asc" {
                Some(false)
            } else if word.as_str() == "desc" {
                Some(true)
            } else {
                None
            }
        }
        _ => None,
    }
}

fn key_named(name: &Name, down: bool) -> Result<HitKey, Memory>
    ensures { IfOk result (λ key. key ≡ key_named name.now down) }
{
    if name.as_str() == "score" {
        return Ok(HitKey::Score(down));
    }
    Ok(HitKey::Column(name.clone()?, down))
}

impl Piece for HitKey {
    ghost piece_of = { key_of };

    fn read(_alloc: Global, lexemes: &[Lexeme]) -> Result<Option<HitKey>, Memory> {
        let [Lexeme::Word(name), rest @ ..] = lexemes else {
            return Ok(None);
        };
        match direction_of(rest) {
            None => Ok(None),
            Some(down) => Ok(Some(key_named(name, down)?)),
        }
    }
}

/// The keys of an order; none where nothing stands here.
fn order_of(alloc: Global, lexemes: &[Lexeme]) -> Result<Option<HitKeys>, Memory>
    ensures { IfOk result (λ keys. keys ≡ order_of lexemes.now) }
{
    match lexemes {
        [] => Ok(Some(Listed::empty(alloc))),
        [Lexeme::Word(order), Lexeme::Word(by), rest @ ..] => {
            if order.as_str() == "order" && by.as_str() == "by" {
                read_pieces(alloc, Separator::Comma, rest)
            } else {
                Ok(None)
            }
        }
        _ => Ok(None),
    }
}

/// The hits that are asked for, by what follows the word `hits`.
fn hits_of(alloc: Global, lexemes: &[Lexeme]) -> Result<Option<ResultPart>, Memory>
    ensures { IfOk result (λ part. part ≡ hits_of lexemes.now) }
{
    let [
        Lexeme::Number(first),
        Lexeme::Word(to),
        Lexeme::Number(last),
        rest @ ..,
    ] = lexemes
    else {
        return Ok(None);
    };
    if to.as_str() != "to" {
        return Ok(None);
    }
    match order_of(alloc, rest)? {
        None => Ok(None),
        Some(keys) => Ok(Some(ResultPart::Hits {
            first: *first,
            last: *last,
            keys,
        })),
    }
}

/// The column whose values are counted, by what follows the word `group`.
fn group_of(lexemes: &[Lexeme]) -> Result<Option<ResultPart>, Memory>
    ensures { IfOk result (λ part. part ≡ group_of lexemes.now) }
{
    match lexemes {
        [Lexeme::Word(name)] => Ok(Some(ResultPart::Group(name.clone()?))),
        _ => Ok(None),
    }
}

/// The count, by what follows the word `count`.
fn count_of(lexemes: &[Lexeme]) -> Option<ResultPart>
    ensures { result ≡ count_of lexemes.now }
{
    match lexemes {
        [] => Some(ResultPart::Count),
        _ => None,
    }
}

impl Piece for ResultPart {
    ghost piece_of = { part_of };

    fn read(alloc: Global, lexemes: &[Lexeme]) -> Result<Option<ResultPart>, Memory> {
        let [Lexeme::Word(word), rest @ ..] = lexemes else {
            return Ok(None);
        };
        if word.as_str() == "count" {
            Ok(count_of(rest))
        } else if word.as_str() == "group" {
            group_of(rest)
        } else if word.as_str() == "hits" {
            hits_of(alloc, rest)
        } else {
            Ok(None)
        }
    }
}

/// The descriptor that the lexemes are.
fn descriptor_of(alloc: Global, lexemes: &[Lexeme]) -> Result<Option<Descriptor>, Memory>
    ensures { IfOk result (λ parts. parts ≡ descriptor_of lexemes.now) }
{
    match read_pieces(alloc, Separator::Slash, lexemes)? {
        None => Ok(None),
        Some(parts) => {
            if parts.as_slice().len() > 8 {
                return Ok(None);
            }
            Ok(Some(parts))
        }
    }
}

/// Reads a descriptor: its parts in their order. A number outside 1 to 100,000 is 0. There is no descriptor exactly where the text
/// isn't of the form. Its cost is the length of the text.
pub fn read(alloc: Global, text: &str) -> Result<Option<Descriptor>, Memory>
    ensures reads { IfOk result (λ found. found ≡ descriptor (chars text.now)) }

    // the same in the grammar's own words
    ensures descriptor { IfOk result (λ found. IfSome found (λ d. IsDescriptorText (chars text.now) d)) }
    ensures none { IfOk result (λ found. IfNone found (IsNoDescriptorText (chars text.now))) }
{
    match lex(alloc, text)? {
        None => Ok(None),
        Some(lexemes) => descriptor_of(alloc, lexemes.as_slice()),
    }
}
