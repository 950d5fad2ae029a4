//! What stands in lists, written and read.

ghost use Rattle.std.specs.Prelude.{◌≡◌, ◌≤◌, ℕ, List, Bool, length, IfOk};
ghost use Rattle.tx_settings.specs.PrefsBytes.{Reads, ReadsList, are_listed, listed};
ghost use Rattle.tx_settings.specs.PrefsPromises.{NoneBegins};
ghost use Rattle.q_stored.specs.Writing.{PutsWithin};

use crate::writing::{BYTE_LIMIT, put_count};
use ct_base::{Listed, Memory};
use ct_bytes::read_varint;
use std::alloc::Global;

/// What can be written as bytes, and read from them.
pub(crate) trait Item: Drop + Sized {
    /// Its bytes.
    ghost spelling: { Self → List ℕ };

    /// What it keeps where it is written.
    ghost rule: { Self → Bool };

    /// Puts its bytes at the end; false where there are more bytes then than may be stored, of which not all need to be there.
    fn put(&self, out: &mut Vec<u8>) -> Result<bool, Memory>
        ensures { IfOk result (PutsWithin out.old.items out.new.items (rule self.now) (spelling self.now)) };

    /// The item that stands from `at` on, and the place after it.
    fn read(alloc: Global, bytes: &[u8], at: usize) -> Result<Option<(Self, usize)>, Memory>
        ensures { IfOk result (Reads rule spelling bytes.now at) };

    /// The bytes of no item begin those of another.
    ghost apart: { NoneBegins spelling };

    /// Each item has a byte.
    ghost some: { (x : Self) → 1 ≤ length (spelling x) };
}

/// Puts items at the end: how many, and each of them.
pub(crate) fn put_list<T: Item>(out: &mut Vec<u8>, items: &[T]) -> Result<bool, Memory>
    ensures { IfOk result (PutsWithin out.old.items out.new.items (are_listed T.rule items.now) (listed T.spelling items.now)) }
{
    if items.len() > BYTE_LIMIT {
        return Ok(false);
    }
    put_count(out, items.len())?;
    let mut rest = items;
    while let [first, later @ ..] = rest {
        if !first.put(out)? {
            return Ok(false);
        }
        rest = later;
    }
    Ok(out.len() <= BYTE_LIMIT)
}

/// The items that stand from `at` on after their number, and the place after them.
pub(crate) fn read_list<T: Item>(
    alloc: Global,
    bytes: &[u8],
    at: usize,
) -> Result<Option<(Vec<T>, usize)>, Memory>
    ensures { IfOk result (ReadsList (are_listed T.rule) (listed T.spelling) bytes.now at) }
{
    let Some((count, start)) = read_varint(bytes, at) else {
        return Ok(None);
    };
    let mut items = Vec::new(alloc);
    let mut place = start;
    'items: while items.len() < count as usize {
        let Some((item, next)) = T::read(alloc, bytes, place)? else {
            return Ok(None);
        };
        items.push(item)?;
        place = next;
    }
    Ok(Some((items, place)))
}

/// The same as a list that owns its items.
fn read_listed<T: Item>(
    alloc: Global,
    bytes: &[u8],
    at: usize,
) -> Result<Option<(Listed<T>, usize)>, Memory>
    ensures { IfOk result (Reads (are_listed T.rule) (listed T.spelling) bytes.now at) }
{
    match read_list(alloc, bytes, at)? {
        Some((items, next)) => Ok(Some((Listed::of(items), next))),
        None => Ok(None),
    }
}

impl<T: Item> Item for Listed<T> {
    ghost use Rattle.tx_settings.specs.PrefsBytes.{are_listed, listed};
    ghost use Rattle.tx_settings.specs.laws.Apart.{listed_apart};
    ghost use Rattle.q_stored.specs.laws.Items.{some_listed};

    ghost spelling = { listed T.spelling };

    ghost rule = { are_listed T.rule };

    fn put(&self, out: &mut Vec<u8>) -> Result<bool, Memory> {
        put_list(out, self.as_slice())
    }

    fn read(alloc: Global, bytes: &[u8], at: usize) -> Result<Option<(Listed<T>, usize)>, Memory> {
        read_listed(alloc, bytes, at)
    }

    ghost apart = { listed_apart T.spelling T.apart };

    ghost some = { some_listed T.spelling };
}
