//! Changes that are made together.

ghost use Rattle.std.specs.Prelude.{◌≡◌, ◌++◌, [], ◌∷◌, Some, None, OnOk, OnErr, map};
ghost use Rattle.ct_keep.specs.SeenChanges.{change_of};

use ct_base::Memory;
use std::alloc::Global;
use std::marker::Model;

/// A change of a batch: a key, and the value that it is to have, or None where the entry is to go.
#[derive(Debug, Drop)]
pub struct Change {
    pub key: Vec<u8>,
    pub value: Option<Vec<u8>>,
}

/// The changes of one commit, in order; the last change on a key counts. It is seen as the list of its changes.
#[derive(Debug, Drop)]
pub struct Batch {
    changes: Vec<Change>,
}

impl Model for Batch {
    ghost use Rattle.std.specs.Prelude.{List, ℕ, Option, map};
    ghost use Rattle.ct_keep.specs.SeenChanges.{change_of};

    ghost Value = { List (List ℕ × Option (List ℕ)) };

    ghost view = { λ b. map change_of b.changes.items };
}

impl Batch {
    /// A batch without a change. It takes no memory; its later changes do.
    pub fn new(alloc: Global) -> Batch
        ensures { result ≡ [] }
    {
        Batch {
            changes: Vec::new(alloc),
        }
    }

    /// Adds the change that a key is to have a value.
    pub fn put(&mut self, key: Vec<u8>, value: Vec<u8>) -> Result<(), Memory>
        ensures ok { OnOk result (self.new ≡ self.old ++ (key.items, Some value.items) ∷ []) }
        ensures err { OnErr result (self.new ≡ self.old) }
    {
        self.changes.push(Change {
            key,
            value: Some(value),
        })?;
        Ok(())
    }

    /// Adds the change that an entry is to go.
    pub fn remove(&mut self, key: Vec<u8>) -> Result<(), Memory>
        ensures ok { OnOk result (self.new ≡ self.old ++ (key.items, None) ∷ []) }
        ensures err { OnErr result (self.new ≡ self.old) }
    {
        self.changes.push(Change { key, value: None })?;
        Ok(())
    }

    /// Adds the changes of another batch, in order: all of them or none.
    pub fn append(&mut self, other: Batch) -> Result<(), Memory>
        ensures ok { OnOk result (self.new ≡ self.old ++ other) }
        ensures err { OnErr result (self.new ≡ self.old) }
    {
        let mut changes = other.changes;
        self.changes.append(&mut changes)?;
        Ok(())
    }

    /// The changes, in order.
    pub fn changes(&self) -> &[Change]
        ensures { map change_of result.now ≡ self.now }
    {
        self.changes.as_slice()
    }

    /// The changes, in order, without a copy.
    pub fn into_changes(self) -> Vec<Change>
        ensures { map change_of result.items ≡ self }
    {
        self.changes
    }
}
