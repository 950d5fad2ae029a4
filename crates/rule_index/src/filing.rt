//! The entries of rules that come and go.

ghost use Rattle.std.specs.Prelude.{◌≡◌, ◌∷◌, [], ◌≤◌, length, map, true, IfOk, IfSome};
ghost use Rattle.std.specs.List.{list_all};
ghost use Rattle.std.specs.Option.{option_map};
ghost use Rattle.ct_entry.specs.Keys.{anchor_part};
ghost use Rattle.q_tree.specs.Soundness.{is_key, is_sound};
ghost use Rattle.q_tree.specs.ReducedQueries.{reduced_of};
ghost use Rattle.q_stored.specs.Anchoring.{are_anchor_keys};
ghost use Rattle.q_stored.specs.Storing.{SpellsQuery};
ghost use Rattle.rule_index.specs.Changes.{Adds, filing_change, lost_changes, outcome_changes, query_change, taken_changes};
ghost use Rattle.rule_index.specs.Kept.{IsKept, KeepsRules};
ghost use Rattle.rule_index.specs.Outcomes.{Faulty, Outcome as AnyOutcome};
ghost use Rattle.rule_index.specs.Shapes.{KeepsShape};
ghost use Rattle.rule_index.specs.Spelling.{filed_under, query_anchors};

use crate::outcomes::Kept;
use ct_base::{Memory, Name, RowKey, Text};
use ct_bytes::row_key_bytes;
use ct_entry::{Kind, put_entry, remove_entry};
use ct_keep::Batch;
use q_stored::{Anchors, anchors_of};
use q_tree::Flat;
use std::alloc::Global;
use tx_chars::Key;

/// The rest of the key of a rule under an anchor, which is empty for rules that are found everywhere.
fn anchor_part(alloc: Global, anchor: &[u8], row: RowKey) -> Result<Vec<u8>, Memory>
    requires { length anchor.now ≤ 255 }
    ensures { IfOk result (λ part. part.items ≡ anchor_part anchor.now row.0) }
{
    let mut part = Vec::new(alloc);
    part.push(anchor.len() as u8)?;
    part.extend_from_slice(anchor)?;
    part.extend_from_slice(&row_key_bytes(row))?;
    Ok(part)
}

/// Adds the change that a rule is filed under an anchor, or that it is so no more.
fn file_under(
    alloc: Global,
    changes: &mut Batch,
    index: &Name,
    row: RowKey,
    anchor: &[u8],
    filed: bool,
) -> Result<(), Memory>
    requires { length anchor.now ≤ 255 }
    ensures { Adds changes.old changes.new result (filing_change filed index.now row.0 anchor.now ∷ []) }
{
    let part = anchor_part(alloc, anchor, row)?;
    if filed {
        put_entry(alloc, changes, Kind::Anchors, index, &part, Vec::new(alloc))
    } else {
        remove_entry(alloc, changes, Kind::Anchors, index, &part)
    }
}

/// Adds the change that a row's rule is the query of these bytes.
fn put_query(
    alloc: Global,
    changes: &mut Batch,
    index: &Name,
    row: RowKey,
    bytes: Vec<u8>,
) -> Result<(), Memory>
    ensures { Adds changes.old changes.new result (query_change index.now row.0 bytes.items ∷ []) }
{
    let part = row_key_bytes(row);
    put_entry(alloc, changes, Kind::Rules, index, &part, bytes)
}

/// Adds the changes that a rule is filed under keys, or that it is so no more.
fn file_keys(
    alloc: Global,
    changes: &mut Batch,
    index: &Name,
    row: RowKey,
    keys: &[Key],
    filed: bool,
) -> Result<(), Memory>
    requires { list_all is_key keys.now ≡ true }
    ensures { Adds changes.old changes.new result (map (filing_change filed index.now row.0) keys.now) }
{
    let mut rest = keys;
    while let [key, later @ ..] = rest {
        file_under(alloc, changes, index, row, key.as_slice(), filed)?;
        rest = later;
    }
    Ok(())
}

/// Adds the changes that a rule is filed under its anchors, or that it is so no more.
fn file_anchors(
    alloc: Global,
    changes: &mut Batch,
    index: &Name,
    row: RowKey,
    anchors: &Anchors,
    filed: bool,
) -> Result<(), Memory>
    requires { are_anchor_keys anchors.now ≡ true }
    ensures { Adds changes.old changes.new result (map (filing_change filed index.now row.0) (filed_under anchors.now)) }
{
    match anchors.keys() {
        Some(keys) => file_keys(alloc, changes, index, row, keys, filed),
        None => file_under(alloc, changes, index, row, &[], filed),
    }
}

/// Adds the changes that a rule is filed under the anchors of its query, if it has one, or that it is so no more.
fn file_query(
    alloc: Global,
    changes: &mut Batch,
    index: &Name,
    row: RowKey,
    query: &Option<Flat>,
    filed: bool,
) -> Result<(), Memory>
    requires { IfSome query.now (λ q. is_sound (reduced_of q) ≡ true) }
    ensures { Adds changes.old changes.new result (map (filing_change filed index.now row.0) (query_anchors (option_map reduced_of query.now))) }
{
    match query {
        Some(query) => {
            let anchors = anchors_of(alloc, query)?;
            file_anchors(alloc, changes, index, row, &anchors, filed)
        }
        None => Ok(()),
    }
}

/// Adds the changes of a rule that was taken: its query, and the keys under which it is found.
fn put_taken(
    alloc: Global,
    changes: &mut Batch,
    index: &Name,
    row: RowKey,
    query: &Option<Flat>,
    bytes: Vec<u8>,
) -> Result<(), Memory>
    requires { SpellsQuery bytes.items (option_map reduced_of query.now) }
    ensures { Adds changes.old changes.new result (taken_changes index.now row.0 (option_map reduced_of query.now)) }
{
    put_query(alloc, changes, index, row, bytes)?;
    file_query(alloc, changes, index, row, query, true)
}

/// Adds the change that a rule is faulty, with this text.
fn put_fault(
    alloc: Global,
    changes: &mut Batch,
    index: &Name,
    row: RowKey,
    text: Text,
) -> Result<(), Memory>
    ensures { Adds changes.old changes.new result (outcome_changes index.now row.0 (Faulty text)) }
{
    let part = row_key_bytes(row);
    put_entry(
        alloc,
        changes,
        Kind::RuleFaults,
        index,
        &part,
        text.into_bytes(),
    )
}

/// Adds the changes of what became of a row's rule. At an error some of them may be there.
fn put_kept(
    alloc: Global,
    changes: &mut Batch,
    index: &Name,
    row: RowKey,
    kept: Kept,
) -> Result<(), Memory>
    requires { KeepsRules kept }
    ensures { (o : AnyOutcome) → IsKept kept o → Adds changes.old changes.new result (outcome_changes index.now row.0 o) }
{
    match kept {
        Kept::Taken { query, bytes } => put_taken(alloc, changes, index, row, &query, bytes),
        Kept::Faulty(text) => put_fault(alloc, changes, index, row, text),
    }
}

/// Adds the changes of what became of a row's rule. At an error some of them may be there.
pub(crate) fn put_outcome(
    alloc: Global,
    changes: &mut Batch,
    index: &Name,
    row: RowKey,
    kept: Kept,
) -> Result<(), Memory>
    requires { KeepsRules kept }
    ensures changes { (o : AnyOutcome) → IsKept kept o → Adds changes.old changes.new result (outcome_changes index.now row.0 o) }
    ensures shaped { KeepsShape changes.old changes.new result }
{
    // Read so that the proof knows that it is a name.
    let _named = index.as_str();
    put_kept(alloc, changes, index, row, kept)
}

/// Adds the changes by which a row's rule is lost, whatever became of it: its query, with the keys under which this was found, and its
/// fault. At an error some of them may be there.
pub(crate) fn put_loss(
    alloc: Global,
    changes: &mut Batch,
    index: &Name,
    row: RowKey,
    query: &Option<Flat>,
) -> Result<(), Memory>
    requires { IfSome query.now (λ q. is_sound (reduced_of q) ≡ true) }
    ensures { Adds changes.old changes.new result (lost_changes index.now row.0 (query_anchors (option_map reduced_of query.now))) }
{
    let part = row_key_bytes(row);
    remove_entry(alloc, changes, Kind::Rules, index, &part)?;
    remove_entry(alloc, changes, Kind::RuleFaults, index, &part)?;
    file_query(alloc, changes, index, row, query, false)
}
