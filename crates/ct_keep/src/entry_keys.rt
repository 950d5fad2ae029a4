//! Keys in the order of their bytes, compared byte by byte, and maps that are keyed by them.

ghost use Rattle.std.specs.Prelude.{◌≡◌, ◌↔◌, ◌≤◌, ◌<◌, IsTrue, IfOk, OnOk, OnErr, Some, length, nat_eq, refl};
ghost use Rattle.std.specs.Option.{option_copied};
ghost use Rattle.std.specs.Ordering.{nat_cmp};
ghost use Rattle.std.specs.Cmp.{on_equiv, on_per, on_po, on_total, partial_equiv_from_equiv};
ghost use Rattle.std.specs.Cmp.Lexicographic.{nat_list_cmp_total, nat_list_eq_equiv, pointwise, slice_cmp, texts_po, texts_ties};
ghost use Rattle.ct_keep.specs.EntryKeys.{key_bytes, entry_key_order, key_room, found_at};

use ct_base::Memory;
use std::cmp::Ordering;
use std::collections::BTreeMap;

/// A key of an entry, in the order of its bytes.
#[derive(Debug, Drop)]
pub struct EntryKey {
    bytes: Vec<u8>,
}

impl EntryKey {
    /// The key of these bytes. It takes no memory.
    pub fn of(bytes: Vec<u8>) -> EntryKey
        ensures { key_bytes result ≡ bytes.items }
    {
        EntryKey { bytes }
    }

    /// Its bytes.
    pub fn as_slice(&self) -> &[u8]
        ensures { result.now ≡ key_bytes self.now }
    {
        self.bytes.as_slice()
    }

    /// Its bytes, without a copy.
    pub fn into_bytes(self) -> Vec<u8>
        ensures { result.items ≡ key_bytes self }
    {
        self.bytes
    }

    /// Another key, of these bytes, by the same allocator.
    fn another(&self, key: &[u8]) -> Result<EntryKey, Memory>
        ensures { IfOk result (λ k. key_bytes k ≡ key.now) }
    {
        Ok(EntryKey {
            bytes: Vec::from_slice(*self.bytes.allocator(), key)?,
        })
    }

    /// Makes room for a key. Its own bytes go.
    pub fn make_room(&mut self, key: &[u8]) -> Result<(), Memory>
        ensures ok { OnOk result (length key.now ≤ key_room self.new) }
        ensures keeps { key_room self.old ≤ key_room self.new }
        ensures full { OnErr result (key_room self.old < length key.now) }
    {
        self.bytes.clear();
        self.bytes.reserve(key.len())?;
        Ok(())
    }

    /// Becomes this key, in the memory that it has; false, and no such key, exactly where it has no room for it.
    pub fn set(&mut self, key: &[u8]) -> bool
        ensures room { IsTrue result ↔ length key.now ≤ key_room self.old }
        ensures bytes { IsTrue result → key_bytes self.new ≡ key.now }
        ensures keeps { key_room self.old ≤ key_room self.new }
    {
        if key.len() > self.bytes.capacity() {
            return false;
        }
        self.bytes.clear();
        let Ok(()) = self.bytes.extend_from_slice(key) else {
            unreachable!()
        };
        true
    }
}

/// The order of bytes, compared one after the other. Keys mostly differ within a few bytes, where this costs less than the order of
/// slices, which looks at many at once.
pub fn byte_cmp<'a>(a: &'a [u8], b: &'a [u8]) -> Ordering
    ensures { result ≡ slice_cmp nat_cmp a.now b.now }
{
    PartialOrd::partial_cmp(&a, &b).unwrap_or(Ordering::Equal)
}

impl PartialEq for EntryKey {
    ghost eq = { λ x y. pointwise nat_eq (key_bytes x) (key_bytes y) };

    ghost laws = { on_per key_bytes (partial_equiv_from_equiv nat_list_eq_equiv) };

    fn eq(&self, other: &EntryKey) -> bool {
        self.as_slice() == other.as_slice()
    }
}

impl Eq for EntryKey {
    ghost laws = { on_equiv key_bytes nat_list_eq_equiv };
}

impl PartialOrd for EntryKey {
    ghost partial_cmp = { λ x y. Some (entry_key_order x y) };

    ghost laws = { on_po key_bytes texts_po };

    fn partial_cmp(&self, other: &EntryKey) -> Option<Ordering> {
        Some(self.cmp(other))
    }
}

impl Ord for EntryKey {
    ghost cmp = { entry_key_order };

    ghost total = { on_total key_bytes nat_list_cmp_total };

    ghost matches_partial_cmp = { λ x y. refl };

    ghost matches_eq = { λ x y. texts_ties (key_bytes x) (key_bytes y) };

    fn cmp(&self, other: &EntryKey) -> Ordering {
        byte_cmp(self.as_slice(), other.as_slice())
    }
}

/// The value of a key, by going through all entries.
fn value_among<'m, V>(map: &'m BTreeMap<EntryKey, V>, key: &[u8]) -> Option<&'m V>
    ensures { option_copied result ≡ found_at key.now map.now.entries }
{
    for (other, value) in map {
        if byte_cmp(key, other.as_slice()).is_eq() {
            return Some(value);
        }
    }
    None
}

/// The value of a key, with a key by whose allocator a copy is made. Its cost is the logarithm of the number of entries; where memory for
/// the copy is wanting, it is that number.
pub fn value_of<'m, V>(map: &'m BTreeMap<EntryKey, V>, like: &EntryKey, key: &[u8]) -> Option<&'m V>
    ensures { option_copied result ≡ found_at key.now map.now.entries }
{
    match like.another(key) {
        Ok(key) => map.get(&key),
        Err(Memory) => value_among(map, key),
    }
}
