//! The names of tables, columns, indexes and the like.

ghost use Rattle.std.specs.Prelude.{◌≡◌, ◌==◌, IfOk, IsErrOf, ◌↔◌, true, false, map};
ghost use Rattle.std.specs.Char.{to_ascii_lowercase};
ghost use Rattle.std.specs.List.{list_all};
ghost use Rattle.ct_base.specs.Names.{is_spelling, is_name_byte, is_kept, kept_name, IsName};
ghost use Rattle.ct_base.specs.declared.names.NameFault.TheVariants.{Memory as OutOfMemory};
ghost use Rattle.std.specs.String.{string_bytes};

use crate::faults::Memory;
use crate::limits::NAME_LIMIT;
use crate::reading::push_ascii;
use std::alloc::Global;
use std::marker::Model;
use thiserror::Error;

/// A name of 1 to 30 bytes: an ASCII letter and then letters, digits, `_`, `$` and `#`, kept in lower case.
#[derive(Clone, Debug, Drop)]
pub struct Name {
    text: String,
}

impl Model for Name {
    ghost use Rattle.std.specs.Prelude.{ℕ, List};
    ghost use Rattle.std.specs.String.{string_bytes};
    ghost use Rattle.ct_base.specs.Names.{IsName};

    ghost Value = { List ℕ };

    ghost view = { λ n. string_bytes n.text };

    ghost invariant = { λ n. IsName (string_bytes n.text) };
}

/// Why a text gave no name.
#[derive(Clone, Copy, Debug, PartialEq, Eq, Error)]
pub enum NameFault {
    /// The text isn't spelt as a name.
    #[error("not a name")]
    NotAName,
    #[error("out of memory")]
    Memory,
}

impl From<Memory> for NameFault {
    ghost from_gives = { λ _ fault. fault ≡ OutOfMemory };

    fn from(_: Memory) -> NameFault {
        NameFault::Memory
    }
}

/// Whether the bytes spell a name, in any ASCII case.
fn is_spelling(bytes: &[u8]) -> bool
    ensures { result ≡ is_spelling bytes.now }
{
    match bytes {
        [] => false,
        [first, rest @ ..] => {
            first.is_ascii_alphabetic() && rest.len() < NAME_LIMIT && are_name_bytes(rest)
        }
    }
}

/// Whether the byte may stand in a name after its first letter.
fn is_name_byte(byte: u8) -> bool
    ensures { result ≡ is_name_byte byte }
{
    byte.is_ascii_alphanumeric() || byte == b'_' || byte == b'$' || byte == b'#'
}

fn are_name_bytes(bytes: &[u8]) -> bool
    ensures { result ≡ list_all is_name_byte bytes.now }
{
    bytes.iter().all(|byte| is_name_byte(*byte))
}

fn are_lower(bytes: &[u8]) -> bool
    ensures { result ≡ list_all (λ b. to_ascii_lowercase b == b) bytes.now }
{
    bytes.iter().all(|byte| byte.to_ascii_lowercase() == *byte)
}

/// Whether the bytes are those that a name is kept as.
fn is_kept(bytes: &[u8]) -> bool
    ensures { result ≡ is_kept bytes.now }
{
    is_spelling(bytes) && are_lower(bytes)
}

/// The text of these bytes in ASCII lower case, where all of them are ASCII.
fn lower_case(alloc: Global, bytes: &[u8]) -> Result<String, Memory>
    requires { is_spelling bytes.now ≡ true }
    ensures { IfOk result (λ lower. string_bytes lower ≡ map to_ascii_lowercase bytes.now) }
{
    let mut lower = String::new(alloc);
    for byte in bytes {
        push_ascii(&mut lower, byte.to_ascii_lowercase() as char)?;
    }
    Ok(lower)
}

impl Name {
    /// Reads a name in any ASCII case. Its cost is the length of the text.
    pub fn read(alloc: Global, text: &str) -> Result<Name, NameFault>
        ensures name { IfOk result (λ name. name ≡ map to_ascii_lowercase text.now) }
        ensures spelt { IfOk result (λ _. is_spelling text.now ≡ true) }
        ensures not_a_name { IsErrOf result NameFault.NotAName ↔ (is_spelling text.now ≡ false) }
    {
        let bytes = text.as_bytes();
        if !is_spelling(bytes) {
            return Err(NameFault::NotAName);
        }
        let text = lower_case(alloc, bytes)?;
        Ok(Name { text })
    }

    /// The name that is kept as these bytes; None where they spell no name in lower case. Its cost is the length of the bytes.
    pub fn of_bytes(alloc: Global, bytes: &[u8]) -> Result<Option<Name>, Memory>
        ensures { IfOk result (λ found. found ≡ kept_name bytes.now) }
    {
        if !is_kept(bytes) {
            return Ok(None);
        }
        let text = lower_case(alloc, bytes)?;
        Ok(Some(Name { text }))
    }

    /// The name in lower case.
    pub fn as_str(&self) -> &str
        ensures text { result.now ≡ self.now }
        ensures name { IsName self.now }
    {
        self.text.as_str()
    }
}
