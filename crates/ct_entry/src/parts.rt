//! The parts of a key from its bytes.

ghost use Rattle.std.specs.Prelude.{IfOk, IsTrue, ◌↔◌};
ghost use Rattle.std.specs.Option.{option_map};
ghost use Rattle.ct_entry.specs.Keys.{key, IsRowPart};
ghost use Rattle.ct_entry.specs.KeyParts.{SpellsKey};

use crate::kinds::Kind;
use ct_base::{Memory, Name};
use ct_bytes::read_row_key;
use std::alloc::Global;

/// The kind, the owner and the rest that the bytes of a key spell; None where they spell no kind or no owner. Whether keys of
/// the kind have such a rest isn't tested.
pub fn key_parts(alloc: Global, bytes: &[u8]) -> Result<Option<(Kind, &[u8], &[u8])>, Memory>
    ensures { IfOk result (λ found. SpellsKey bytes.now (option_map (λ parts. key parts.0 parts.1.now parts.2.now) found)) }
{
    let [code, length, rest @ ..] = bytes else {
        return Ok(None);
    };
    let Some(kind) = Kind::of_code(*code) else {
        return Ok(None);
    };
    let Some((owner, part)) = rest.split_at_checked(usize::from(*length)) else {
        return Ok(None);
    };
    match Name::of_bytes(alloc, owner)? {
        Some(_name) => Ok(Some((kind, owner, part))),
        None => Ok(None),
    }
}

/// Whether the rest of a key is a row key: whether it has 8 bytes.
pub fn is_row_part(part: &[u8]) -> bool
    ensures { IsTrue result ↔ IsRowPart part.now }
{
    match read_row_key(part, 0) {
        Some(_row) => part.len() == 8,
        None => false,
    }
}
