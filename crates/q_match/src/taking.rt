//! Which keys a slot takes.
//!
//! A pattern is taken piece by piece. After each piece a mark tells for each place of the key whether the pieces so far may end there. So
//! the key is gone through once for each piece, whatever the wildcards.

ghost use Rattle.std.specs.Prelude.{◌≡◌, ◌∷◌, ◌+◌, ◌&&◌, ◌||◌, eqb, Bool, ℕ, List, true, false, length, IfOk, OnOk};
ghost use Rattle.std.specs.Str.{chars};
ghost use Rattle.q_tree.specs.Slots.{begins, is_end, has_key, has_pattern, matches, takes};
ghost use Rattle.q_match.specs.Places.{at_some, moved, piece, spread, unmarked};

use crate::characters::characters;
use ct_base::{Memory, split_first};
use q_tree::{Pattern, PatternBit, Slot};
use std::alloc::Global;
use tx_chars::Key;

/// The marks before the first piece: that of the first place alone.
fn first_marks(alloc: Global, key: &[u32]) -> Result<Vec<bool>, Memory>
    ensures { IfOk result (λ v. v.items ≡ true ∷ unmarked key.now) }
{
    let mut marks = Vec::new(alloc);
    marks.push(true)?;
    let mut left = key;
    while let [_, more @ ..] = left {
        marks.push(false)?;
        left = more;
    }
    Ok(marks)
}

/// Whether a place is marked, and the character behind it is the wanted one.
fn passes_char(mark: bool, wanted: u32, c: u32) -> bool
    ensures { result ≡ (mark && eqb wanted c) }
{
    mark && wanted == c
}

/// Puts the marks after a character in place of those that `out` has.
fn put_after_char(
    out: &mut Vec<bool>,
    marks: &[bool],
    key: &[u32],
    wanted: u32,
) -> Result<(), Memory>
    ensures { OnOk result (out.new.items ≡ false ∷ moved (λ c. eqb wanted c) marks.now key.now) }
{
    out.clear();
    out.push(false)?;
    let mut rest = marks;
    let mut left = key;
    while let [c, more @ ..] = left {
        let [mark, later @ ..] = rest else {
            return Ok(());
        };
        out.push(passes_char(*mark, wanted, *c))?;
        rest = later;
        left = more;
    }
    Ok(())
}

/// Whether a place is marked, whatever character is behind it.
fn passes_any(mark: bool, _c: u32) -> bool
    ensures { result ≡ (mark && true) }
{
    mark
}

/// The marks after any one character.
fn after_one(alloc: Global, marks: &[bool], key: &[u32]) -> Result<Vec<bool>, Memory>
    ensures { IfOk result (λ v. v.items ≡ false ∷ moved (λ c. true) marks.now key.now) }
{
    let mut out = Vec::new(alloc);
    out.push(false)?;
    let mut rest = marks;
    let mut left = key;
    while let [c, more @ ..] = left {
        let [mark, later @ ..] = rest else {
            return Ok(out);
        };
        out.push(passes_any(*mark, *c))?;
        rest = later;
        left = more;
    }
    Ok(out)
}

/// Whether one of two is marked.
fn is_either(a: bool, b: bool) -> bool
    ensures { result ≡ (a || b) }
{
    a || b
}

/// The marks after any characters, or none.
fn after_many(alloc: Global, marks: &[bool]) -> Result<Vec<bool>, Memory>
    ensures { IfOk result (λ v. v.items ≡ spread false marks.now) }
{
    let mut out = Vec::new(alloc);
    let mut before = false;
    for mark in marks {
        before = is_either(before, *mark);
        out.push(before)?;
    }
    Ok(out)
}

/// The marks after the characters of a text. Those after one character are made in the memory of those before the last one.
fn after_text(alloc: Global, marks: &[bool], key: &[u32], text: &str) -> Result<Vec<bool>, Memory>
    requires { length marks.now ≡ length key.now + 1 }
    ensures places { IfOk result (λ v. (has : List ℕ → Bool) → at_some has v.items key.now ≡ at_some (begins has (chars text.now)) marks.now key.now) }
    ensures length { IfOk result (λ v. length v.items ≡ length key.now + 1) }
{
    let mut at = Vec::from_slice(alloc, marks)?;
    let mut spare = Vec::new(alloc);
    let mut rest = text;
    while let Some((c, after)) = split_first(rest) {
        put_after_char(&mut spare, &at, key, c as u32)?;
        let last = at;
        at = spare;
        spare = last;
        rest = after;
    }
    Ok(at)
}

/// The marks after a piece of a pattern.
fn after_bit(
    alloc: Global,
    marks: &[bool],
    key: &[u32],
    bit: &PatternBit,
) -> Result<Vec<bool>, Memory>
    requires { length marks.now ≡ length key.now + 1 }
    ensures places { IfOk result (λ v. (has : List ℕ → Bool) → at_some has v.items key.now ≡ at_some (piece bit.now has) marks.now key.now) }
    ensures length { IfOk result (λ v. length v.items ≡ length key.now + 1) }
{
    match bit {
        PatternBit::Chars(text) => after_text(alloc, marks, key, text.as_str()),
        PatternBit::One => after_one(alloc, marks, key),
        PatternBit::Many => after_many(alloc, marks),
    }
}

/// Whether the last place is marked, after all characters.
fn is_at_end(marks: &[bool], key: &[u32]) -> bool
    ensures { result ≡ at_some is_end marks.now key.now }
{
    let mut rest = marks;
    let mut left = key;
    while let [_, more @ ..] = left {
        let [_, later @ ..] = rest else {
            return false;
        };
        rest = later;
        left = more;
    }
    match rest {
        [] => false,
        [last, ..] => *last,
    }
}

/// Whether characters have a pattern. Its cost is the length of the pattern times that of the key, and it takes memory for the marks of
/// two pieces.
fn is_match(alloc: Global, pattern: &[PatternBit], key: &[u32]) -> Result<bool, Memory>
    ensures { IfOk result (λ is. is ≡ matches pattern.now key.now) }
{
    let mut marks = first_marks(alloc, key)?;
    let mut rest = pattern;
    while let [bit, later @ ..] = rest {
        marks = after_bit(alloc, &marks, key, bit)?;
        rest = later;
    }
    Ok(is_at_end(&marks, key))
}

/// Whether a key has a pattern, by its characters; of bytes that aren't UTF-8 these are the numbers that they spell. Its cost is the length
/// of the pattern times that of the key, whatever the wildcards.
pub fn matches(alloc: Global, pattern: &[PatternBit], key: &[u8]) -> Result<bool, Memory>
    ensures { IfOk result (λ is. is ≡ matches pattern.now (chars key.now)) }
{
    let key = characters(alloc, key)?;
    is_match(alloc, pattern, &key)
}

/// Whether one of the keys is this one.
fn is_among(keys: &[Key], key: &[u8]) -> bool
    ensures { result ≡ has_key keys.now key.now }
{
    keys.iter().any(|k| k.as_slice() == key)
}

/// Whether a key has one of the patterns. Where there is none, it takes no memory.
fn has_pattern(alloc: Global, patterns: &[Pattern], key: &[u8]) -> Result<bool, Memory>
    ensures { IfOk result (λ is. is ≡ has_pattern patterns.now key.now) }
{
    if patterns.is_empty() {
        return Ok(false);
    }
    let key = characters(alloc, key)?;
    let mut rest = patterns;
    while let [pattern, later @ ..] = rest {
        if is_match(alloc, pattern.as_slice(), &key)? {
            return Ok(true);
        }
        rest = later;
    }
    Ok(false)
}

/// Whether a slot takes a key: Any takes each. Its cost is the length of the slot's keys, and that of its patterns times that of the key.
pub fn takes(alloc: Global, slot: &Slot, key: &[u8]) -> Result<bool, Memory>
    ensures { IfOk result (λ is. is ≡ takes slot.now key.now) }
{
    let Slot::Takes { keys, patterns } = slot else {
        return Ok(true);
    };
    if is_among(keys.as_slice(), key) {
        return Ok(true);
    }
    has_pattern(alloc, patterns.as_slice(), key)
}
