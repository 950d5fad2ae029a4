//! The bytes under which a slot is noted.

ghost use Rattle.std.specs.Prelude.{◌≡◌, ◌++◌, IfOk, OnOk};
ghost use Rattle.ix_slots.specs.SlotBytes.{bit_bytes, bits_bytes, patterns_bytes, keys_bytes, slot_bytes};

use ct_base::Memory;
use q_tree::{Pattern, PatternBit, Slot};
use std::alloc::Global;
use tx_chars::Key;

/// Puts a piece of a pattern.
fn put_bit(out: &mut Vec<u8>, bit: &PatternBit) -> Result<(), Memory>
    ensures { OnOk result (out.new.items ≡ out.old.items ++ bit_bytes bit.now) }
{
    match bit {
        PatternBit::Chars(text) => out.extend_from_slice(text.as_str().as_bytes())?,
        PatternBit::One => out.push(b'_')?,
        PatternBit::Many => out.push(b'%')?,
    }
    Ok(())
}

fn put_pattern(out: &mut Vec<u8>, pattern: &[PatternBit]) -> Result<(), Memory>
    ensures { OnOk result (out.new.items ≡ out.old.items ++ bits_bytes pattern.now) }
{
    for bit in pattern {
        put_bit(out, bit)?;
    }
    Ok(())
}

/// Puts patterns, and a space behind each.
fn put_patterns(out: &mut Vec<u8>, patterns: &[Pattern]) -> Result<(), Memory>
    ensures { OnOk result (out.new.items ≡ out.old.items ++ patterns_bytes patterns.now) }
{
    let mut rest = patterns;
    while let [pattern, later @ ..] = rest {
        put_pattern(out, pattern.as_slice())?;
        out.push(b' ')?;
        rest = later;
    }
    Ok(())
}

/// Puts keys, and a space behind each.
fn put_keys(out: &mut Vec<u8>, keys: &[Key]) -> Result<(), Memory>
    ensures { OnOk result (out.new.items ≡ out.old.items ++ keys_bytes keys.now) }
{
    let mut rest = keys;
    while let [key, later @ ..] = rest {
        out.extend_from_slice(key.as_slice())?;
        out.push(b' ')?;
        rest = later;
    }
    Ok(())
}

/// The stream, and then the keys and patterns of the slot. Slots that aren't the same seldom have the same bytes.
pub(crate) fn slot_bytes(alloc: Global, stream: u8, slot: &Slot) -> Result<Vec<u8>, Memory>
    ensures { IfOk result (λ v. v.items ≡ slot_bytes stream slot.now) }
{
    let mut out = Vec::new(alloc);
    out.push(stream)?;
    if let Slot::Takes { keys, patterns } = slot {
        put_keys(&mut out, keys.as_slice())?;
        put_patterns(&mut out, patterns.as_slice())?;
    }
    Ok(out)
}
