//! The one commit of a statement.
#![tactic(auto, using(ct_keep::specs::laws::Composing::reads_on, ct_keep::specs::laws::Composing::reads_short))]

ghost use Rattle.std.specs.Prelude.{◌≡◌, ◌≤◌, Some, Err, IfOk};
ghost use Rattle.ct_keep.specs.Content.{Content, after, weight};
ghost use Rattle.ct_keep.specs.KeeperViews.{AtMostOneCommit, SameButContent, Told, counted, fault_of, is_full};
ghost use Rattle.db_state.specs.Plans.{CommitGives, Returns, line_for_all};
ghost use Rattle.db_state.specs.Shapes.{AcceptsStatements, AreStoreChanges};

use ct_base::Memory;
use ct_keep::{Batch, KeepFault, Keeper};
use std::alloc::Global;

/// A reply with a fixed text.
pub fn fixed_reply(alloc: Global, text: &[u8]) -> Result<Vec<u8>, Memory>
    ensures { IfOk result (λ reply. reply.items ≡ text.now) }
{
    Ok(Vec::from_slice(alloc, text)?)
}

/// Commits a batch of entries that a store has, and gives the reply.
pub(crate) fn commit<K: Keeper>(
    alloc: Global,
    keeper: &mut K,
    batch: Batch,
    reply: Vec<u8>,
) -> Result<Vec<u8>, KeepFault>
    requires accepts { AcceptsStatements (K.view keeper.old) }
    requires entries { AreStoreChanges batch }
    ensures kept { SameButContent (K.view keeper.old) (K.view keeper.new) (fault_of result) }
    ensures fulls { (K.view keeper.new).counts.fulls ≡ counted (is_full (fault_of result)) (K.view keeper.old).counts.fulls }
    ensures once { AtMostOneCommit (K.view keeper.old) (K.view keeper.new) }
    ensures light { Told K.view keeper.old (λ m. weight (after batch m) ≤ weight m → result ≡ Err KeepFault.Full → ⊥) }
    ensures gives { CommitGives batch reply.items (K.view keeper.old) (K.view keeper.new) result }
    ensures tells { Returns (line_for_all reply.items) (K.view keeper.old) (K.view keeper.new) result }
{
    keeper.commit(alloc, batch)?;
    Ok(reply)
}
