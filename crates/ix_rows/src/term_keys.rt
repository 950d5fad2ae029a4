//! Terms as keys of a map in memory.

ghost use Rattle.std.specs.Prelude.{◌≡◌, [], Some, IfOk, OnOk, get_or, nat_eq, refl};
ghost use Rattle.std.specs.Ordering.{nat_cmp};
ghost use Rattle.std.specs.Cmp.{partial_equiv_from_equiv};
ghost use Rattle.std.specs.Cmp.Lexicographic.{nat_list_cmp_total, nat_list_eq_equiv, pointwise, slice_cmp, texts_po, texts_ties};
ghost use Rattle.ix_rows.specs.FirstBytes.{key_number};

use ct_base::Memory;
use ct_keep::byte_cmp;
use std::alloc::Global;
use std::cmp::Ordering;
use std::marker::Model;

/// How many bytes of a term its number has.
const NUMBERED: usize = 8;

/// A term in the order of its bytes. The number of its first bytes stands beside them, so that two terms are mostly told apart without
/// a look at their bytes, which lie elsewhere in memory. It begins with the first byte, since terms of fields have other streams.
#[derive(Drop)]
pub(crate) struct TermKey {
    number: u64,
    bytes: Vec<u8>,
}

impl Model for TermKey {
    ghost use Rattle.std.specs.Prelude.{ℕ, List, ◌≡◌};
    ghost use Rattle.ix_rows.specs.FirstBytes.{key_number};

    ghost Value = { List ℕ };

    ghost view = { λ k. k.bytes.items };

    ghost invariant = { λ k. k.number ≡ key_number k.bytes.items };
}

/// The byte at this place, and 0 behind the last one.
fn byte_at(bytes: &[u8], place: usize) -> u8
    ensures { result ≡ get_or bytes.now place 0 }
{
    match bytes.get(place) {
        Some(byte) => *byte,
        None => 0,
    }
}

/// The number of the first eight bytes, the highest first, with zeros behind fewer.
fn key_number(bytes: &[u8]) -> u64
    ensures { result ≡ key_number bytes.now }
{
    u64::from_be_bytes([
        byte_at(bytes, 0),
        byte_at(bytes, 1),
        byte_at(bytes, 2),
        byte_at(bytes, 3),
        byte_at(bytes, 4),
        byte_at(bytes, 5),
        byte_at(bytes, 6),
        byte_at(bytes, 7),
    ])
}

impl TermKey {
    /// The term without bytes. It takes no memory.
    pub(crate) fn new(alloc: Global) -> TermKey
        ensures { result ≡ [] }
    {
        TermKey {
            number: 0,
            bytes: Vec::new(alloc),
        }
    }

    /// A copy of a term.
    pub(crate) fn of(alloc: Global, term: &[u8]) -> Result<TermKey, Memory>
        ensures { IfOk result (λ k. k ≡ term.now) }
    {
        Ok(TermKey {
            number: key_number(term),
            bytes: Vec::from_slice(alloc, term)?,
        })
    }

    /// Becomes this term, in the same memory.
    pub(crate) fn set(&mut self, term: &[u8]) -> Result<(), Memory>
        ensures { OnOk result (self.new ≡ term.now) }
    {
        self.bytes.clear();
        self.number = 0;
        self.bytes.extend_from_slice(term)?;
        self.number = key_number(term);
        Ok(())
    }

    /// Its bytes.
    pub(crate) fn as_slice(&self) -> &[u8]
        ensures { result.now ≡ self.now }
    {
        self.bytes.as_slice()
    }
}

/// The order of bytes with their numbers. Where the numbers are the same, the shorter of two short ones is less, since the other
/// has only zeros behind it, and others are compared byte by byte.
fn numbered_cmp<'a>(number: u64, bytes: &'a [u8], other: u64, others: &'a [u8]) -> Ordering
    requires first { number ≡ key_number bytes.now }
    requires second { other ≡ key_number others.now }
    ensures { result ≡ slice_cmp nat_cmp bytes.now others.now }
{
    if number < other {
        return Ordering::Less;
    }
    if other < number {
        return Ordering::Greater;
    }
    if bytes.len() <= NUMBERED && others.len() <= NUMBERED {
        return bytes.len().cmp(&others.len());
    }
    byte_cmp(bytes, others)
}

/// The order of terms.
fn term_cmp<'a>(a: &'a TermKey, b: &'a TermKey) -> Ordering
    ensures { result ≡ slice_cmp nat_cmp a.now b.now }
{
    numbered_cmp(a.number, a.as_slice(), b.number, b.as_slice())
}

impl PartialEq for TermKey {
    ghost eq = { pointwise nat_eq };

    ghost laws = { partial_equiv_from_equiv nat_list_eq_equiv };

    fn eq(&self, other: &TermKey) -> bool {
        self.as_slice() == other.as_slice()
    }
}

impl Eq for TermKey {
    ghost laws = { nat_list_eq_equiv };
}

impl PartialOrd for TermKey {
    ghost partial_cmp = { λ x y. Some (slice_cmp nat_cmp x y) };

    ghost laws = { texts_po };

    fn partial_cmp(&self, other: &TermKey) -> Option<Ordering> {
        Some(self.cmp(other))
    }
}

impl Ord for TermKey {
    ghost cmp = { slice_cmp nat_cmp };

    ghost total = { nat_list_cmp_total };

    ghost matches_partial_cmp = { λ x y. refl };

    ghost matches_eq = { texts_ties };

    fn cmp(&self, other: &TermKey) -> Ordering {
        term_cmp(self, other)
    }
}
