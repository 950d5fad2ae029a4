//! Varints: a number as seven bits a byte, the lowest first, with the top bit set on each byte but the last.

ghost use Rattle.std.specs.Prelude.{◌≡◌, ℕ, ◌<◌, ◌≤◌, ◌++◌, length, take, IfSome, IfNone, OnOk, OnErr};
ghost use Rattle.ct_bytes.specs.Varints.{varint, IsVarintAt};

use ct_base::Memory;

/// The varint with which the bytes begin: its number, and how many bytes it takes.
fn first_varint(bytes: &[u8]) -> Option<(u32, usize)>
    ensures some { IfSome result (λ r. IsVarintAt bytes.now 0 r.0 r.1) }
    ensures none { IfNone result ((n next : ℕ) → IsVarintAt bytes.now 0 n next → ⊥) }
    ensures within { IfSome result (λ r. r.1 ≤ length bytes.now) }
{
    let mut number = 0;
    let mut weight = 1;
    for i in 0..5 {
        let byte = *bytes.get(i)?;
        number += u64::from(byte % 128) * weight;
        if byte < 128 {
            // The last byte is 0 only where it is the only one.
            if byte == 0 && i > 0 {
                return None;
            }
            let number = u32::try_from(number).ok()?;
            return Some((number, i + 1));
        }
        weight *= 128;
    }
    None
}

/// The number that a varint spells from `at` on, and the place after it. It reads five bytes at most.
///
/// There is none where the bytes end early, where they spell a number from 2^32 on, or where they spell it with
/// more bytes than it needs. Each number has one spelling.
pub fn read_varint(bytes: &[u8], at: usize) -> Option<(u32, usize)>
    ensures some { IfSome result (λ r. IsVarintAt bytes.now at r.0 r.1) }
    ensures none { IfNone result ((n next : ℕ) → IsVarintAt bytes.now at n next → ⊥) }
    ensures within { IfSome result (λ r. r.1 ≤ length bytes.now) }
{
    let rest = bytes.get(at..)?;
    let (number, len) = first_varint(rest)?;
    Some((number, at + len))
}

/// How many bytes a varint takes, from 1 to 5.
pub fn varint_len(n: u32) -> usize
    ensures { result ≡ length (varint n) }
{
    match n {
        0..0x80 => 1,
        0x80..0x4000 => 2,
        0x4000..0x20_0000 => 3,
        0x20_0000..0x1000_0000 => 4,
        _ => 5,
    }
}

/// Five bytes that begin with a varint, and how many bytes it has.
fn spell(n: u32) -> ([u8; 5], usize)
    ensures spelt { take result.1 result.0 ≡ varint n }
    ensures within { result.1 ≤ length result.0 }
{
    let mut bytes = [0; 5];
    let mut rest = n;
    let mut last = 0;
    while rest >= 128 {
        bytes[last] = (rest % 128) as u8 + 128;
        rest /= 128;
        last += 1;
    }
    bytes[last] = rest as u8;
    (bytes, last + 1)
}

/// Puts a number at the end, in its one spelling of 1 to 5 bytes.
pub fn put_varint(out: &mut Vec<u8>, n: u32) -> Result<(), Memory>
    ensures ok { OnOk result (out.new.items ≡ out.old.items ++ varint n) }
    ensures err { OnErr result (out.new.items ≡ out.old.items) }
{
    let (bytes, len) = spell(n);
    out.extend_from_slice(&bytes[..len])?;
    Ok(())
}
