//! What a statement that changes something comes to, before its commit.
#![tactic(auto, using(ct_keep::specs::laws::Composing::reads_on, ct_keep::specs::laws::Composing::reads_short))]

ghost use Rattle.std.specs.Prelude.{◌≡◌, ◌≤◌, Err};
ghost use Rattle.ct_keep.specs.Content.{after, weight};
ghost use Rattle.ct_keep.specs.KeeperViews.{Told};
ghost use Rattle.db_state.specs.Plans.{CarriesOut, IsNoHeavier, IsStorePlan};
ghost use Rattle.db_state.specs.Shapes.{AcceptsStatements, AreStoreChanges};

use crate::committing::{commit, fixed_reply};
use ct_keep::{Batch, KeepFault, Keeper};
use db_cond::{Fault, fault_line};
use std::alloc::Global;

/// What a statement comes to.
#[derive(Drop)]
pub enum Plan<'a> {
    /// It is refused.
    Refused(Fault<'a>),
    /// Its change is to be committed.
    Done(Batch),
}

/// Commits a batch, and replies by the line. There is no commit where there is no memory for the line.
fn commit_batch<K: Keeper>(
    alloc: Global,
    keeper: &mut K,
    batch: Batch,
    line: &[u8],
) -> Result<Vec<u8>, KeepFault>
    requires accepts { AcceptsStatements (K.view keeper.old) }
    requires entries { AreStoreChanges batch }
    ensures done { CarriesOut K.view keeper.old keeper.new result (Plan.Done batch) line.now }
    ensures light { Told K.view keeper.old (λ m. weight (after batch m) ≤ weight m → result ≡ Err KeepFault.Full → ⊥) }
{
    let reply = fixed_reply(alloc, line)?;
    commit(alloc, keeper, batch, reply)
}

/// Carries out a plan, by at most one commit: the line of the refusal, or that of the statement, with its change. There is always
/// room for a plan that makes the content no heavier.
pub fn carry_out<K: Keeper>(
    alloc: Global,
    keeper: &mut K,
    plan: Plan,
    line: &[u8],
) -> Result<Vec<u8>, KeepFault>
    requires accepts { AcceptsStatements (K.view keeper.old) }
    requires entries { IsStorePlan plan }
    ensures done { CarriesOut K.view keeper.old keeper.new result plan.entry line.now }
    ensures light { Told K.view keeper.old (λ m. IsNoHeavier m plan.entry → result ≡ Err KeepFault.Full → ⊥) }
{
    match plan {
        Plan::Refused(fault) => Ok(fault_line(alloc, fault)?),
        Plan::Done(batch) => commit_batch(alloc, keeper, batch, line),
    }
}
