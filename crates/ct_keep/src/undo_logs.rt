//! What undoes puts.

ghost use Rattle.std.specs.Prelude.{◌≡◌, None, Some, [], IsSome, OnOk, OnErr};
ghost use Rattle.std.specs.FinMap.{get, insert};
ghost use Rattle.ct_keep.specs.Undoing.{before_puts, replaced_last, HaveEntries};

use crate::key_lists::KeyList;
use crate::sorted_entries::SortedEntries;
use ct_base::Memory;
use std::alloc::Global;

/// A key, and the value that it had before it got another one.
#[derive(Debug, Drop)]
pub(crate) struct OldEntry {
    pub(crate) key: Vec<u8>,
    pub(crate) value: Vec<u8>,
}

/// What undoes puts without taking memory: the values that were replaced, and the keys that are new.
#[derive(Drop)]
pub(crate) struct UndoLog {
    pub(crate) replaced: Vec<OldEntry>,
    pub(crate) added: KeyList,
}

impl UndoLog {
    /// Of no puts. It takes no memory.
    pub(crate) fn new(alloc: Global) -> UndoLog
        ensures replaced { result.replaced.items ≡ [] }
        ensures added { result.added ≡ [] }
    {
        UndoLog {
            replaced: Vec::new(alloc),
            added: KeyList::new(alloc),
        }
    }

    /// Gives a key that has an entry another value.
    fn replace(
        &mut self,
        held: &mut SortedEntries,
        key: Vec<u8>,
        value: Vec<u8>,
    ) -> Result<(), Memory>
        requires there { IsSome (get held.old key.items) }
        requires noted { HaveEntries (replaced_last self.old.replaced.items) held.old }
        ensures ok { OnOk result (held.new ≡ insert held.old key.items value.items) }
        ensures err { OnErr result (held.new ≡ held.old) }
        ensures undone { before_puts self.new held.new ≡ before_puts self.old held.old }
        ensures noted { HaveEntries (replaced_last self.new.replaced.items) held.new }
    {
        self.replaced.reserve(1)?;
        let value = held.replace(&key, value);
        self.replaced.push_reserved(OldEntry { key, value });
        Ok(())
    }

    /// Adds an entry whose key is new.
    fn add(
        &mut self,
        alloc: Global,
        held: &mut SortedEntries,
        key: Vec<u8>,
        value: Vec<u8>,
    ) -> Result<(), Memory>
        requires absent { get held.old key.items ≡ None }
        requires noted { HaveEntries (replaced_last self.old.replaced.items) held.old }
        ensures ok { OnOk result (held.new ≡ insert held.old key.items value.items) }
        ensures err { OnErr result (held.new ≡ held.old) }
        ensures undone { before_puts self.new held.new ≡ before_puts self.old held.old }
        ensures noted { HaveEntries (replaced_last self.new.replaced.items) held.new }
    {
        self.added.push(&key)?;
        held.add(alloc, key, value)?;
        Ok(())
    }

    /// Gives a key a value.
    pub(crate) fn put(
        &mut self,
        alloc: Global,
        held: &mut SortedEntries,
        key: Vec<u8>,
        value: Vec<u8>,
    ) -> Result<(), Memory>
        requires { HaveEntries (replaced_last self.old.replaced.items) held.old }
        ensures ok { OnOk result (held.new ≡ insert held.old key.items value.items) }
        ensures err { OnErr result (held.new ≡ held.old) }
        ensures undone { before_puts self.new held.new ≡ before_puts self.old held.old }
        ensures noted { HaveEntries (replaced_last self.new.replaced.items) held.new }
    {
        if held.value_at(&key).is_some() {
            self.replace(held, key, value)
        } else {
            self.add(alloc, held, key, value)
        }
    }

    /// Undoes the puts. It needs no memory.
    pub(crate) fn undo(self, held: &mut SortedEntries)
        requires { HaveEntries (replaced_last self.replaced.items) held.old }
        ensures { held.new ≡ before_puts self held.old }
    {
        let UndoLog {
            mut replaced,
            added,
        } = self;
        while let Some(OldEntry { key, value }) = replaced.pop() {
            let _ = held.replace(&key, value);
        }
        added.take_from(held);
    }
}
