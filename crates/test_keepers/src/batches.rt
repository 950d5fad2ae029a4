//! Keepers in memory, and batches for them.

ghost use Rattle.std.specs.Prelude.{◌≤◌, length, true, IfOk, IsTrue, [], ◌∷◌};
ghost use Rattle.ct_keep.specs.SeenChanges.{change_of};
ghost use Rattle.ct_keep.specs.Changes.{AnyEntry, AreWell};
ghost use Rattle.tb_table.specs.Shapes.{HaveShortTexts};

use ct_base::{Memory, Name, Text};
use ct_keep::{Batch, Change, KeepFault, Keeper, MemKeeper};
use std::alloc::Global;

/// Whether a keeper may hold what the change puts: a key of 1 to 600 bytes, and a value of at most 10,000.
pub fn is_entry(change: &Change) -> bool
    ensures { IsTrue result → AreWell AnyEntry (change_of change.now ∷ []) }
{
    match &change.value {
        None => true,
        Some(value) => !change.key.is_empty() && change.key.len() <= 600 && value.len() <= 10_000,
    }
}

/// Whether a keeper may hold what the changes put. Its cost is linear in their number.
pub fn are_entries(batch: &Batch) -> bool
    ensures { IsTrue result → AreWell AnyEntry batch.now }
{
    for change in batch.changes() {
        if !is_entry(change) {
            return false;
        }
    }
    true
}

/// Commits the changes, if the keeper may hold what they put; else it answers `Full`.
pub fn commit(alloc: Global, keeper: &mut MemKeeper, batch: Batch) -> Result<(), KeepFault> {
    if !are_entries(&batch) {
        return Err(KeepFault::Full);
    }
    keeper.commit(alloc, batch)
}

/// A keeper in memory with no script, which may hold a million bytes and say none.
pub fn new_keeper(alloc: Global) -> Result<MemKeeper, Memory> {
    MemKeeper::new(alloc, Vec::new(alloc), 1_000_000, 0)
}

/// The name that a text is; a text that is none is answered as if there were no memory.
pub fn named(alloc: Global, text: &str) -> Result<Name, Memory> {
    Name::read(alloc, text).map_err(|_| Memory)
}

/// The texts of a row whose only text stands in the second column.
pub fn one_text(alloc: Global, text: &str) -> Result<Vec<(u8, Text)>, Memory>
    requires { length text.now ≤ 100 }
    ensures { IfOk result (λ texts. HaveShortTexts texts.items) }
{
    let mut texts = Vec::new(alloc);
    texts.push((1, Text::of(alloc, text)?))?;
    Ok(texts)
}
