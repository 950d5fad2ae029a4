//! Texts as bytes: the length as a varint, and then the bytes.

ghost use Rattle.std.specs.Prelude.{◌≡◌, ℕ, List, ◌^◌, ◌<◌, ◌≤◌, ◌++◌, length, IfSome, IfNone, OnOk, OnErr};
ghost use Rattle.ct_bytes.specs.Varints.{IsTextAt, text_bytes};

use crate::varints::{put_varint, read_varint};
use ct_base::Memory;

/// The text that stands from `at` on, and the place after it. Nothing is copied.
///
/// There is none where no varint stands, and where fewer bytes follow than it says.
pub fn read_text(bytes: &[u8], at: usize) -> Option<(&[u8], usize)>
    ensures some { IfSome result (λ r. IsTextAt bytes.now at r.0.now r.1) }
    ensures none { IfNone result ((text : List ℕ) (next : ℕ) → IsTextAt bytes.now at text next → ⊥) }
    ensures within { IfSome result (λ r. r.1 ≤ length bytes.now) }
{
    let (len, start) = read_varint(bytes, at)?;
    let end = start + len as usize;
    let text = bytes.get(start..end)?;
    Some((text, end))
}

/// Puts a text after its length at the end.
pub fn put_text(out: &mut Vec<u8>, text: &[u8]) -> Result<(), Memory>
    requires { length text.now < 2 ^ 32 }
    ensures ok { OnOk result (out.new.items ≡ out.old.items ++ text_bytes text.now) }
    ensures err { OnErr result (out.new.items ≡ out.old.items) }
{
    let before = out.len();
    put_varint(out, text.len() as u32)?;
    if out.extend_from_slice(text).is_err() {
        out.truncate(before);
        return Err(Memory);
    }
    Ok(())
}
