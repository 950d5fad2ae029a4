//! The places in the keys of entries: those of the words that have a pattern.

ghost use Rattle.std.specs.Prelude.{◌≡◌, ◌++◌, ◌∷◌, [], length, flat_map, IfOk, OnOk};
ghost use Rattle.std.specs.Str.{is_utf8};
ghost use Rattle.cat_walk.specs.Scanned.{IsTried, is_word_of, places_in};

use crate::probing::joined;
use ct_base::{Bytes, Memory};
use q_match::matches;
use q_tree::PatternBit;
use std::alloc::Global;
use std::str::from_utf8;

/// An entry: the rest of its key, and its value.
pub(crate) type Entry = (Vec<u8>, Vec<u8>);

/// Whether bytes are a text.
pub(crate) fn is_utf8(bytes: &[u8]) -> bool
    ensures { result ≡ is_utf8 bytes.now }
{
    match from_utf8(bytes) {
        Ok(_) => true,
        Err(_) => false,
    }
}

/// Whether a word is a text, and has the pattern.
fn is_word_of(alloc: Global, pattern: &[PatternBit], word: &[u8]) -> Result<bool, Memory>
    ensures { IfOk result (λ is. is ≡ is_word_of pattern.now word.now) }
{
    if is_utf8(word) {
        matches(alloc, pattern, word)
    } else {
        Ok(false)
    }
}

/// The bytes that follow the literal in the word that was tried last, and whether that word has the pattern.
#[derive(Drop)]
struct Tried {
    more: Vec<u8>,
    has: bool,
}

/// Tries the word of the literal and these bytes.
fn try_word(
    alloc: Global,
    pattern: &[PatternBit],
    literal: &[u8],
    more: &[u8],
) -> Result<Tried, Memory>
    ensures more { IfOk result (λ tried. tried.more.items ≡ more.now) }
    ensures has { IfOk result (λ tried. tried.has ≡ is_word_of pattern.now (literal.now ++ more.now)) }
{
    let word = joined(alloc, literal, more)?;
    let has = is_word_of(alloc, pattern, &word)?;
    let more = Vec::from_slice(alloc, more)?;
    Ok(Tried { more, has })
}

/// Whether the word of the literal and these bytes has the pattern. It is tried only where it isn't the one that was tried last.
#[tactic(auto, using(crate::proofs::ScannedKeys::tried_last))]
fn has_pattern(
    alloc: Global,
    pattern: &[PatternBit],
    literal: &[u8],
    last: &mut Tried,
    more: &[u8],
) -> Result<bool, Memory>
    requires { IsTried pattern.now literal.now last.old }
    ensures has { IfOk result (λ has. has ≡ is_word_of pattern.now (literal.now ++ more.now)) }
    ensures tried { OnOk result (IsTried pattern.now literal.now last.new) }
{
    if last.more.as_slice() == more {
        return Ok(last.has);
    }
    let next = try_word(alloc, pattern, literal, more)?;
    let has = next.has;
    *last = next;
    Ok(has)
}

/// Appends a place.
pub(crate) fn put_place(alloc: Global, places: &mut Vec<Bytes>, place: &[u8]) -> Result<(), Memory>
    ensures { OnOk result (places.new.items ≡ places.old.items ++ place.now ∷ []) }
{
    let place = Vec::from_slice(alloc, place)?;
    places.push(Bytes::of(place))?;
    Ok(())
}

/// Appends what follows the word in the rest of a key, if the word has the pattern.
#[tactic(auto, using(crate::proofs::ScannedKeys::place_missing, crate::proofs::ScannedKeys::place_put, crate::proofs::ScannedKeys::place_passed))]
fn put_place_in(
    alloc: Global,
    pattern: &[PatternBit],
    literal: &[u8],
    more: usize,
    last: &mut Tried,
    rest: &[u8],
    places: &mut Vec<Bytes>,
) -> Result<(), Memory>
    requires { IsTried pattern.now literal.now last.old }
    ensures tried { OnOk result (IsTried pattern.now literal.now last.new) }
    ensures places { OnOk result (places.new.items ≡ places.old.items ++ places_in pattern.now literal.now more rest.now) }
{
    if more >= rest.len() {
        return Ok(());
    }
    if has_pattern(alloc, pattern, literal, last, &rest[..more])? {
        put_place(alloc, places, &rest[more..])?;
    }
    Ok(())
}

/// Appends the places in the rests of some keys. Its cost is the length of the keys, and for each word, whose entries follow one
/// another, the length of the pattern times that of the word.
pub(crate) fn put_places_in(
    alloc: Global,
    pattern: &[PatternBit],
    literal: &[u8],
    more: usize,
    entries: &[Entry],
    places: &mut Vec<Bytes>,
) -> Result<(), Memory>
    ensures { OnOk result (places.new.items ≡ places.old.items ++ flat_map (λ e. places_in pattern.now literal.now more e.0.items) entries.now) }
{
    let mut last = try_word(alloc, pattern, literal, &[])?;
    let mut rest = entries;
    while let [entry, later @ ..] = rest {
        put_place_in(
            alloc,
            pattern,
            literal,
            more,
            &mut last,
            entry.0.as_slice(),
            places,
        )?;
        rest = later;
    }
    Ok(())
}

/// Appends the rests of some keys.
pub(crate) fn put_rests(
    alloc: Global,
    entries: &[Entry],
    places: &mut Vec<Bytes>,
) -> Result<(), Memory>
    ensures { OnOk result (places.new.items ≡ places.old.items ++ flat_map (λ e. e.0.items ∷ []) entries.now) }
{
    let mut rest = entries;
    while let [entry, later @ ..] = rest {
        put_place(alloc, places, entry.0.as_slice())?;
        rest = later;
    }
    Ok(())
}
