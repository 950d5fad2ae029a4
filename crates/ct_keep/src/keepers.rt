//! What every keeper promises.

ghost use Rattle.std.specs.Prelude.{◌≡◌, ◌+◌, ◌≤◌, ◌<◌, ◌↔◌, ℕ, List, Option, IsTrue, Some, None, Ok, Err, IfOk, OnErr, length};
ghost use Rattle.std.specs.Option.{option_map};
ghost use Rattle.std.specs.FinMap.{get};
ghost use Rattle.ct_base.specs.Told.{took, IsNothing, IsSaid};
ghost use Rattle.ct_site.specs.FaultCounts.{CountsFaults, ends_after};
ghost use Rattle.ct_keep.specs.Content.{Content, after, entries_above, first_entry};
ghost use Rattle.ct_keep.specs.Changes.{AreWell, HoldsWell};
ghost use Rattle.ct_keep.specs.Counting.{count_under, IsOwner};
ghost use Rattle.ct_keep.specs.KeeperViews.{Finds, Told, KeeperView, SameButContent, OnlyReads, Goes, AnswersCommit, IsDurable, KeeperHears, KeeperSays, PassesRoom, fault_of, looked_up, committed};
ghost use Rattle.ct_keep.specs.Handed.{handed};

use crate::batches::Batch;
use ct_base::Memory;
use ct_site::Failed;
use std::alloc::Global;
use thiserror::Error;

/// Why a call of a keeper failed.
#[derive(Clone, Copy, Debug, PartialEq, Eq, Error)]
pub enum KeepFault {
    /// There was no memory. All is as before the call, but that the counts of look-ups and of commits may have risen.
    #[error("out of memory")]
    Memory,
    /// The disk failed: its count of faults rose by one, or stands at its type's end. From then on the keeper may be asked to hear
    /// and to say alone.
    #[error("the disk failed")]
    Disk,
    /// The content would weigh too much. All is as before the call, but that the counts of commits and of such refusals rose, or
    /// stand at their type's end, and that the counts of look-ups may have risen where the call makes some before it commits.
    #[error("the store is full")]
    Full,
}

impl From<Memory> for KeepFault {
    ghost use Rattle.std.specs.Prelude.{◌≡◌};
    ghost use Rattle.ct_keep.specs.declared.keepers.KeepFault.TheVariants.{Memory as OutOfMemory};

    ghost from_gives = { λ _ fault. fault ≡ OutOfMemory };

    fn from(_: Memory) -> KeepFault {
        KeepFault::Memory
    }
}

/// A keeper of a content, beside which a script is heard and replies are said.
pub trait Keeper {
    /// What is known of the keeper.
    ghost view: { Self → KeeperView };

    /// The value of a key; None exactly where the content has no such entry. It never answers Full.
    fn fetch(&mut self, alloc: Global, key: &[u8]) -> Result<Option<Vec<u8>>, KeepFault>
        requires { (view self.old).ready }
        ensures value { Finds view self.old result (λ m found. option_map (λ v. v.items) found ≡ get m key.now) }
        ensures reads { OnlyReads view self.old self.new result }
        ensures counts { (view self.new).counts ≡ looked_up key.now None (view self.old).counts };

    /// The entry with the least key that is greater; None exactly where there is none. It never answers Full.
    fn next_after(
        &mut self,
        alloc: Global,
        key: &[u8],
    ) -> Result<Option<(Vec<u8>, Vec<u8>)>, KeepFault>
        requires { (view self.old).ready }
        ensures entry { Finds view self.old result (λ m found. option_map (λ e. (e.0.items, e.1.items)) found ≡ first_entry (entries_above key.now m)) }
        ensures reads { OnlyReads view self.old self.new result }
        ensures counts { (view self.new).counts ≡ looked_up key.now (handed result) (view self.old).counts };

    /// How many entries stand under an owner: those whose key begins with its prefix and is longer. A keeper keeps these counts
    /// with its commits, so it costs the logarithm of the number of owners. It needs no memory, and makes no call of a disk.
    fn count(&self, owner: &[u8]) -> u64
        requires ready { (view self.now).ready }
        requires owner { IsOwner owner.now }
        ensures { Told view self.now (λ m. result ≡ count_under owner.now m) };

    /// Does what the batch says, all of it or none. At each moment a stop leaves the old content or the new one, and after
    /// Ok the new one. It syncs the disk four times at most.
    fn commit(&mut self, alloc: Global, batch: Batch) -> Result<(), KeepFault>
        requires ready { (view self.old).ready }
        requires well { AreWell (view self.old).well batch }
        ensures kept { SameButContent (view self.old) (view self.new) (fault_of result) }
        ensures goes { (m : Content) → (view self.old).content ≡ Some m → Goes m (after batch m) (view self.old) (view self.new) (fault_of result) }
        ensures answers { (m : Content) → (view self.old).content ≡ Some m → AnswersCommit (fault_of result) (view self.old).fixed.limit m (after batch m) }
        ensures counts { (view self.new).counts ≡ committed (fault_of result) (view self.old).counts }
        ensures syncs { (view self.new).disk_syncs ≤ (view self.old).disk_syncs + 4 };

    /// Takes bytes of the script into the beginning of `into`, and answers how many. 0 means the end of the script. It may be
    /// called after Disk too.
    fn hear(&mut self, into: &mut [u8]) -> Result<usize, Failed>
        requires { 0 < length into.old }
        ensures bound { IfOk result (λ count. count ≤ length into.old) }
        ensures hears { KeeperHears (took result into.new) (view self.old) (view self.new) }
        ensures end { result ≡ Ok 0 → IsNothing (view self.new).beside.left }
        ensures ends { (view self.new).beside.ends ≡ ends_after result (view self.old).beside.ends }
        ensures cause { CountsFaults (view self.old).beside.hear_faults (view self.new).beside.hear_faults result };

    /// Says bytes from the beginning of `bytes`, at least one, and answers how many. Where it is told what was said and how many bytes
    /// may be said in all, it fails only where these would be too many. It may be called after Disk too.
    fn say(&mut self, bytes: &[u8]) -> Result<usize, Failed>
        requires { 0 < length bytes.now }
        ensures bound { IfOk result (λ count. count ≤ length bytes.now) }
        ensures some { IfOk result (λ count. 0 < count) }
        ensures says { KeeperSays (took result bytes.now) (view self.old) (view self.new) }
        ensures passes { OnErr result (PassesRoom (view self.old).fixed.say_room (view self.old).beside.said bytes.now) }
        ensures cause { CountsFaults (view self.old).beside.say_faults (view self.new).beside.say_faults result };

    /// Between two calls a stop leaves what it holds.
    ghost settled: { (k : Self) → (view k).ready → IsDurable (view k) };

    /// Each entry that it holds is within the bounds, and one that it may hold.
    ghost holds: { (k : Self) → (view k).ready → (m : Content) → (view k).content ≡ Some m → HoldsWell (view k).well m };

    /// A stop may leave what it holds, with what was said by now.
    ghost may_stay: { (k : Self) → (view k).ready → (m : Content) (said : List ℕ) → (view k).content ≡ Some m → IsSaid (view k).beside.said said → (view k).now (Some m) said };

    /// The present is a moment since each earlier time.
    ghost counts_now: { (k : Self) (t : ℕ) (stopped : Option Content) (said : List ℕ) → t ≤ (view k).time.clock → (view k).now stopped said → (view k).time.since t stopped said };

    /// Since now there is no other moment.
    ghost only_now: { (k : Self) (stopped : Option Content) (said : List ℕ) → (view k).time.since (view k).time.clock stopped said → (view k).now stopped said };
}

/// Tells which entries a store may hold, each by itself.
pub trait Shape {
    /// Whether an entry is well shaped.
    ghost is_well: { Self → List ℕ → List ℕ → Type 0 };

    /// Whether an entry is well shaped.
    fn well(&self, alloc: Global, key: &[u8], value: &[u8]) -> Result<bool, Memory>
        ensures { IfOk result (λ well. IsTrue well ↔ is_well self.now key.now value.now) };
}
