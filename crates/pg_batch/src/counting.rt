//! How many entries stand under each owner after some changes.
//!
//! The entries that come are counted before a commit, since their owners may be new and take memory, and those that go behind it: so where
//! the commit fails, the counts go back without taking memory.

ghost use Rattle.std.specs.Prelude.{◌≡◌, ◌<◌, ◌^◌, ◌∷◌, [], ℕ, List, Some, IsTrue, OnOk, OnErr, map};
ghost use Rattle.std.specs.Option.{option_map};
ghost use Rattle.ct_keep.specs.Content.{Content, after};
ghost use Rattle.ct_keep.specs.Counting.{owner_prefix, prefix_count, PrefixCounts, AreCounts};
ghost use Rattle.ct_keep.specs.SeenChanges.{change_of};
ghost use Rattle.pg_batch.specs.ByKey.{KeysRise};
ghost use Rattle.pg_batch.specs.Counts.{WereThere, CountsCame, CountsLeft, CountsWent, SameCounts};

use ct_base::Memory;
use ct_keep::{Change, OwnerCounts};
use pg_directory::EntryAt;
use std::alloc::Global;

/// No owner has so many entries: a file of at most 2^43 bytes has no room for them.
const MOST: u64 = 1 << 63;

/// The prefix of a key's kind and owner, where something follows it.
fn prefix_of(key: &[u8]) -> Option<&[u8]>
    ensures { option_map (λ p. p.now) result ≡ owner_prefix key.now }
{
    let [_, size, rest @ ..] = key else {
        return None;
    };
    let size = usize::from(*size);
    if size < rest.len() {
        Some(&key[..size + 2])
    } else {
        None
    }
}

/// Whether the owner of a key has a count that may rise.
fn has_room(counts: &OwnerCounts, key: &[u8]) -> bool
    ensures { IsTrue result → (p : List ℕ) → owner_prefix key.now ≡ Some p → prefix_count p counts.now < 2 ^ 63 }
{
    match prefix_of(key) {
        Some(prefix) => counts.at(prefix) < MOST,
        None => true,
    }
}

/// Counts the entry that a change brings, where there was none.
fn count_one(
    alloc: Global,
    counts: &mut OwnerCounts,
    change: &Change,
    had: Option<EntryAt>,
) -> Result<(), Memory>
    ensures ok { OnOk result (CountsCame (change_of change.now ∷ []) (had ∷ []) counts.old counts.new) }
    ensures err { OnErr result (counts.new ≡ counts.old) }
{
    if change.value.is_none() || had.is_some() {
        return Ok(());
    }
    if !has_room(counts, &change.key) {
        return Err(Memory);
    }
    counts.add(alloc, &change.key)
}

/// Takes the count of the entry away again that a change brought.
fn uncount_one(counts: &mut OwnerCounts, change: &Change, had: Option<EntryAt>)
    ensures { CountsLeft (change_of change.now ∷ []) (had ∷ []) counts.old counts.new }
{
    if change.value.is_some() && had.is_none() {
        counts.remove(&change.key);
    }
}

/// Takes the count of the entry away that a change takes away.
fn uncount_gone(counts: &mut OwnerCounts, change: &Change, had: Option<EntryAt>)
    ensures { CountsWent (change_of change.now ∷ []) (had ∷ []) counts.old counts.new }
{
    if change.value.is_none() && had.is_some() {
        counts.remove(&change.key);
    }
}

/// Counts the entries that some changes bring: those that they put under keys that had no place. After an error the counts mean what they
/// did. Each costs the logarithm of the number of owners, and takes memory only for an owner that is new. Where a count would be greater than
/// 2^63 it answers Memory: no store has so many entries.
pub fn count_new(
    alloc: Global,
    counts: &mut OwnerCounts,
    changes: &[Change],
    had: &[Option<EntryAt>],
) -> Result<(), Memory>
    ensures ok { OnOk result (CountsCame (map change_of changes.now) had.now counts.old counts.new) }
    ensures err { OnErr result (SameCounts counts.old counts.new) }
{
    for i in 0..changes.len().min(had.len()) {
        let Ok(()) = count_one(alloc, counts, &changes[i], had[i]) else {
            uncount_new(counts, &changes[..i], &had[..i]);
            return Err(Memory);
        };
    }
    Ok(())
}

/// Takes the counts of the entries away again that some changes brought, where their commit failed. It takes no memory.
pub fn uncount_new(counts: &mut OwnerCounts, changes: &[Change], had: &[Option<EntryAt>])
    ensures left { CountsLeft (map change_of changes.now) had.now counts.old counts.new }
    ensures back { (before : PrefixCounts) → CountsCame (map change_of changes.now) had.now before counts.old → SameCounts before counts.new }
{
    for i in 0..changes.len().min(had.len()) {
        uncount_one(counts, &changes[i], had[i]);
    }
}

/// Takes the counts of the entries away that some changes took away, once they are committed. It takes no memory.
pub fn count_gone(counts: &mut OwnerCounts, changes: &[Change], had: &[Option<EntryAt>])
    ensures went { CountsWent (map change_of changes.now) had.now counts.old counts.new }
    ensures counts { (m : Content) (before : PrefixCounts) → KeysRise (map change_of changes.now) → WereThere m (map change_of changes.now) had.now → AreCounts m before
        → CountsCame (map change_of changes.now) had.now before counts.old → AreCounts (after (map change_of changes.now) m) counts.new }
{
    for i in 0..changes.len().min(had.len()) {
        uncount_gone(counts, &changes[i], had[i]);
    }
}
