//! The characters that bytes spell.

ghost use Rattle.std.specs.Prelude.{◌≡◌, IfOk};
ghost use Rattle.std.specs.Str.{chars, continuation_len, lead_bits};

use ct_base::Memory;
use std::alloc::Global;

/// How many bytes follow the first byte of a character.
fn continuation_len(byte: u8) -> u8
    ensures { result ≡ continuation_len byte }
{
    if byte < 128 {
        0
    } else if byte < 224 {
        1
    } else if byte < 240 {
        2
    } else {
        3
    }
}

/// What the first byte of a character has of its number.
fn lead_bits(byte: u8) -> u32
    ensures { result ≡ lead_bits byte }
{
    let bits = if byte < 128 {
        byte
    } else if byte < 224 {
        byte.saturating_sub(192)
    } else if byte < 240 {
        byte - 224
    } else {
        byte - 240
    };
    bits as u32
}

/// The characters of bytes, as numbers. Where the bytes aren't UTF-8 these need be no characters.
pub(crate) fn characters(alloc: Global, bytes: &[u8]) -> Result<Vec<u32>, Memory>
    ensures { IfOk result (λ v. v.items ≡ chars bytes.now) }
{
    let mut out = Vec::new(alloc);
    let [first, later @ ..] = bytes else {
        return Ok(out);
    };
    let mut left = continuation_len(*first);
    let mut value = lead_bits(*first);
    let mut rest = later;
    while let [byte, later @ ..] = rest {
        if left == 0 {
            out.push(value)?;
            left = continuation_len(*byte);
            value = lead_bits(*byte);
        } else {
            left -= 1;
            value = value * 64 + byte.saturating_sub(128) as u32;
        }
        rest = later;
    }
    if left == 0 {
        out.push(value)?;
    }
    Ok(out)
}
