//! What a keeper holds under a prefix of its keys.
#![tactic(auto, using(crate::specs::laws::Composing::reads_on, crate::specs::laws::Composing::reads_short))]

ghost use Rattle.std.specs.Prelude.{◌≡◌, ◌≤◌, ◌++◌, true, IfOk, OnOk, IfSome, IsTrue, [], ◌∷◌, map, length, drop};
ghost use Rattle.std.specs.FinMap.{entries};
ghost use Rattle.ct_keep.specs.Handed.{entry_seen};
ghost use Rattle.ct_keep.specs.Content.{begins_with, entries_above, first_entry};
ghost use Rattle.ct_keep.specs.KeeperViews.{Finds, OnlyReads, Told};
ghost use Rattle.ct_keep.specs.Tail.{tail, rest_under};
ghost use Rattle.ct_keep.specs.Looks.{next_looks, scan_looks, LooksAtMost};

use crate::keepers::{KeepFault, Keeper};
use ct_base::Memory;
use std::alloc::Global;

/// An entry: a key, or the rest of one, and its value.
type Entry = (Vec<u8>, Vec<u8>);

/// Whether the key begins with the prefix.
fn begins(prefix: &[u8], key: &[u8]) -> bool
    ensures value { result ≡ begins_with prefix.now key.now }
    ensures longer { IsTrue result → length prefix.now ≤ length key.now }
{
    key.starts_with(prefix)
}

/// The key without its first bytes.
fn rest_of(alloc: Global, prefix: &[u8], key: &[u8]) -> Result<Vec<u8>, Memory>
    requires { length prefix.now ≤ length key.now }
    ensures { IfOk result (λ rest. rest.items ≡ drop (length prefix.now) key.now) }
{
    Ok(Vec::from_slice(alloc, &key[prefix.len()..])?)
}

/// The one and then the other.
fn joined(alloc: Global, first: &[u8], second: &[u8]) -> Result<Vec<u8>, Memory>
    ensures { IfOk result (λ both. both.items ≡ first.now ++ second.now) }
{
    let mut both = Vec::from_slice(alloc, first)?;
    both.extend_from_slice(second)?;
    Ok(both)
}

/// Puts an entry at the end.
fn push(found: &mut Vec<Entry>, entry: Entry) -> Result<(), Memory>
    ensures { OnOk result (found.new.items ≡ found.old.items ++ entry ∷ []) }
{
    found.push(entry)?;
    Ok(())
}

/// The first entry above the last key, if it is under the prefix: the rest of its key, and its value. Its key becomes the last one.
fn step_under<K: Keeper>(
    alloc: Global,
    keeper: &mut K,
    prefix: &[u8],
    last: &mut Vec<u8>,
) -> Result<Option<Entry>, KeepFault>
    requires ready { (K.view keeper.old).ready }
    requires begins { begins_with prefix.now last.old.items ≡ true }
    ensures entry { Finds K.view keeper.old result (λ m found. entry_seen found ≡ rest_under prefix.now (first_entry (entries_above last.old.items m))) }
    ensures last { IfOk result (λ found. IfSome found (λ e. last.new.items ≡ prefix.now ++ e.0.items)) }
    ensures reads { OnlyReads K.view keeper.old keeper.new result }
    ensures at_most { Told K.view keeper.old (λ m. LooksAtMost K.view keeper.old keeper.new (next_looks last.old.items m)) }
{
    let Some((key, value)) = keeper.next_after(alloc, last)? else {
        return Ok(None);
    };
    if !begins(prefix, &key) {
        return Ok(None);
    }
    let rest = rest_of(alloc, prefix, &key)?;
    *last = key;
    Ok(Some((rest, value)))
}

/// Exactly the entries whose key begins with the prefix and is longer, in order: the rest of each key, and the value.
///
/// It costs what it finds and one step more, each step the logarithm of the content. It never answers Full.
pub fn scan<K: Keeper>(
    alloc: Global,
    keeper: &mut K,
    prefix: &[u8],
) -> Result<Vec<(Vec<u8>, Vec<u8>)>, KeepFault>
    requires { (K.view keeper.old).ready }
    ensures entries { Finds K.view keeper.old result (λ m found. map (λ e. (e.0.items, e.1.items)) found.items ≡ entries (tail prefix.now m)) }
    ensures reads { OnlyReads K.view keeper.old keeper.new result }
    ensures at_most { Told K.view keeper.old (λ m. LooksAtMost K.view keeper.old keeper.new (scan_looks prefix.now m)) }
{
    let mut found = Vec::new(alloc);
    let mut last = joined(alloc, prefix, &[])?;
    'steps: for _ in 0..u64::MAX {
        match step_under(alloc, keeper, prefix, &mut last)? {
            None => return Ok(found),
            Some(entry) => push(&mut found, entry)?,
        }
    }
    // so many entries fit into no memory
    Err(KeepFault::Memory)
}

/// The first of the entries whose key begins with the prefix and whose rest is greater than `after`: the rest of its key, and its value; None exactly where there is none.
///
/// It takes one look-up, and never answers Full.
pub fn next_under<K: Keeper>(
    alloc: Global,
    keeper: &mut K,
    prefix: &[u8],
    after: &[u8],
) -> Result<Option<(Vec<u8>, Vec<u8>)>, KeepFault>
    requires { (K.view keeper.old).ready }
    ensures entry { Finds K.view keeper.old result (λ m found. entry_seen found ≡ first_entry (entries_above after.now (tail prefix.now m))) }
    ensures reads { OnlyReads K.view keeper.old keeper.new result }
    ensures at_most { Told K.view keeper.old (λ m. LooksAtMost K.view keeper.old keeper.new (next_looks (prefix.now ++ after.now) m)) }
{
    let mut last = joined(alloc, prefix, after)?;
    step_under(alloc, keeper, prefix, &mut last)
}

/// The first of the entries whose key begins with the prefix and is longer: the rest of its key, and its value; None exactly where there is none.
///
/// It takes one look-up, and never answers Full.
pub fn first_under<K: Keeper>(
    alloc: Global,
    keeper: &mut K,
    prefix: &[u8],
) -> Result<Option<(Vec<u8>, Vec<u8>)>, KeepFault>
    requires { (K.view keeper.old).ready }
    ensures entry { Finds K.view keeper.old result (λ m found. entry_seen found ≡ first_entry (entries (tail prefix.now m))) }
    ensures reads { OnlyReads K.view keeper.old keeper.new result }
    ensures at_most { Told K.view keeper.old (λ m. LooksAtMost K.view keeper.old keeper.new (next_looks prefix.now m)) }
{
    next_under(alloc, keeper, prefix, &[])
}
