//! Slots that are the same.

ghost use Rattle.std.specs.Prelude.{◌≡◌, bytes_eq};
ghost use Rattle.q_tree.specs.Slots.{same_keys, same_bit, same_pattern, same_patterns, same_slot};

use crate::flats::{Pattern, PatternBit, Slot};
use ct_base::Text;
use tx_chars::Key;

fn same_key(a: &Key, b: &Key) -> bool
    ensures { result ≡ bytes_eq a.now b.now }
{
    a.as_slice() == b.as_slice()
}

fn same_text(a: &Text, b: &Text) -> bool
    ensures { result ≡ bytes_eq a.now b.now }
{
    a.as_str() == b.as_str()
}

fn same_keys(a: &[Key], b: &[Key]) -> bool
    ensures { result ≡ same_keys a.now b.now }
{
    let mut others = b;
    for key in a {
        let [other, rest @ ..] = others else {
            return false;
        };
        if !same_key(key, other) {
            return false;
        }
        others = rest;
    }
    others.is_empty()
}

fn same_bit(a: &PatternBit, b: &PatternBit) -> bool
    ensures { result ≡ same_bit a.now b.now }
{
    match (a, b) {
        (PatternBit::Chars(x), PatternBit::Chars(y)) => same_text(x, y),
        (PatternBit::One, PatternBit::One) => true,
        (PatternBit::Many, PatternBit::Many) => true,
        _ => false,
    }
}

fn same_pattern(a: &[PatternBit], b: &[PatternBit]) -> bool
    ensures { result ≡ same_pattern a.now b.now }
{
    let mut others = b;
    for bit in a {
        let [other, rest @ ..] = others else {
            return false;
        };
        if !same_bit(bit, other) {
            return false;
        }
        others = rest;
    }
    others.is_empty()
}

fn same_patterns(a: &[Pattern], b: &[Pattern]) -> bool
    ensures { result ≡ same_patterns a.now b.now }
{
    let mut others = b;
    for pattern in a {
        let [other, rest @ ..] = others else {
            return false;
        };
        if !same_pattern(pattern.as_slice(), other.as_slice()) {
            return false;
        }
        others = rest;
    }
    others.is_empty()
}

/// Whether two slots are the same: any word, or the same keys and patterns in the same order. Its cost is linear in their bytes.
pub fn same_slot(a: &Slot, b: &Slot) -> bool
    ensures { result ≡ same_slot a.now b.now }
{
    match (a, b) {
        (Slot::Any, Slot::Any) => true,
        (
            Slot::Takes { keys, patterns },
            Slot::Takes {
                keys: others,
                patterns: more,
            },
        ) => {
            same_keys(keys.as_slice(), others.as_slice())
                && same_patterns(patterns.as_slice(), more.as_slice())
        }
        _ => false,
    }
}
