//! Which keys slots take.

use ct_base::{Listed, Memory, Text};
use q_match::takes;
use q_tree::{Pattern, PatternBit, Slot};
use std::alloc::Global;
use std::test::Fail;
use tx_chars::Key;

/// A piece of a pattern: `_` is any one character, `%` any characters, and another text itself.
fn piece(alloc: Global, text: &str) -> Result<PatternBit, Memory> {
    match text {
        "_" => Ok(PatternBit::One),
        "%" => Ok(PatternBit::Many),
        _ => Ok(PatternBit::Chars(Text::of(alloc, text)?)),
    }
}

fn pattern(alloc: Global, pieces: &'static [&'static str]) -> Result<Pattern, Memory> {
    let mut pattern = Listed::empty(alloc);
    for text in pieces {
        pattern = pattern.with(piece(alloc, text)?)?;
    }
    Ok(pattern)
}

/// A slot of this key and of the pattern of these pieces.
fn slot(alloc: Global, key: &str, pieces: &'static [&'static str]) -> Result<Slot, Memory> {
    let key = Key::of(Vec::from_slice(alloc, key.as_bytes())?);
    let pattern = pattern(alloc, pieces)?;
    Ok(Slot::Takes {
        keys: Listed::empty(alloc).with(key)?,
        patterns: Listed::empty(alloc).with(pattern)?,
    })
}

/// Whether a slot of `dog` and of the pattern takes a key.
fn is_taken(
    alloc: Global,
    pieces: &'static [&'static str],
    key: &'static str,
) -> Result<bool, Memory> {
    let slot = slot(alloc, "dog", pieces)?;
    takes(alloc, &slot, key.as_bytes())
}

/// The pieces of a pattern, and keys with whether a slot of `dog` and of the pattern takes them.
static CASES: [(&[&str], &str, bool); 12] = [
    (&["caf", "%"], "dog", true),
    (&["caf", "%"], "dogs", false),
    (&["caf", "%"], "caf", true),
    (&["caf", "%"], "cafeteria", true),
    (&["caf", "%"], "ca", false),
    // a character may have several bytes
    (&["caf", "_"], "café", true),
    (&["caf", "_"], "caf", false),
    (&["_", "é"], "né", true),
    (&["_", "é"], "née", false),
    // `%` may have to give back what it could take
    (&["%", "ab", "%", "b"], "xababb", true),
    (&["%", "ab", "%", "b"], "xab", false),
    (&["%"], "", true),
];

#[test]
fn keys_of_slots(rt: HostRuntime) -> Result<(), Fail> {
    for (pieces, key, is) in &CASES {
        assert!(rt; is_taken(rt.alloc(), pieces, key)? == *is, "{key}");
    }
    Ok(())
}

#[test]
fn any_takes_each_key(rt: HostRuntime) -> Result<(), Fail> {
    assert!(rt; takes(rt.alloc(), &Slot::Any, b"dog")?);
    Ok(())
}
