//! The entries of rule indexes.
#![tactic(auto, using(ct_keep::specs::laws::Composing::reads_on, ct_keep::specs::laws::Composing::reads_short))]

ghost use Rattle.std.specs.Prelude.{◌≡◌, [], ◌∷◌, IfOk, IfSome, OnErr, Some, None, true};
ghost use Rattle.std.specs.Option.{option_map};
ghost use Rattle.ct_keep.specs.KeeperViews.{Finds, OnlyReads};
ghost use Rattle.ct_keep.specs.Looks.{look, LooksAtMost};
ghost use Rattle.ct_entry.specs.declared.kinds.Kind.TheVariants as kind;
ghost use Rattle.ct_entry.specs.Keys.{key, bytes, at, row_part};
ghost use Rattle.tx_settings.specs.Attributes.{can_be_set};
ghost use Rattle.q_tree.specs.Soundness.{is_sound};
ghost use Rattle.q_tree.specs.ReducedQueries.{reduced_of};
ghost use Rattle.rule_index.specs.Changes.{Adds, entry_change};
ghost use Rattle.rule_index.specs.Readings.{HasQuery, HasRulesParts, IsEntryOf};
ghost use Rattle.rule_index.specs.Shapes.{KeepsShape};
ghost use Rattle.rule_index.specs.Spelling.{rules_bytes};

use ct_base::{Memory, Name, RowKey};
use ct_bytes::{put_text, read_text, row_key_bytes};
use ct_entry::{Kind, fetch_entry, put_entry};
use ct_keep::{Batch, KeepFault, Keeper};
use q_stored::{StoredFault, decode};
use q_tree::Flat;
use std::alloc::Global;
use tb_table::Target;
use tx_settings::Prefs;

/// What the entry of a rule index says.
#[derive(Debug, Drop)]
pub(crate) struct RulesEntry {
    pub(crate) target: Target,
    /// How it reads rules and documents.
    pub(crate) prefs: Prefs,
}

/// The bytes of the entry of a rule index.
fn rules_value(alloc: Global, target: &Target, prefs: &Prefs) -> Result<Vec<u8>, Memory>
    ensures { IfOk result (λ v. v.items ≡ rules_bytes target.now.table target.now.column prefs.now) }
{
    let mut value = Vec::new(alloc);
    value.push(3)?;
    put_text(&mut value, target.table.as_str().as_bytes())?;
    value.extend_from_slice(&[target.column, 0])?;
    prefs.put(&mut value)?;
    value.extend_from_slice(&[0; 8])?;
    Ok(value)
}

/// Adds the change that a rule index is on this target and reads so.
pub(crate) fn put_rules(
    alloc: Global,
    changes: &mut Batch,
    index: &Name,
    target: &Target,
    prefs: &Prefs,
) -> Result<(), Memory>
    requires { can_be_set prefs.now.lexer ≡ true }
    ensures ok { Adds changes.old changes.new result (entry_change index.now target.now.table target.now.column prefs.now ∷ []) }
    ensures err { OnErr result (changes.new ≡ changes.old) }
    ensures shaped { KeepsShape changes.old changes.new result }
{
    // Read so that the proof knows that both are names, and that the column is below 256.
    let _named = index.as_str();
    let _table = target.table.as_str();
    let _column = target.column;
    prefs.keep_rules();
    let value = rules_value(alloc, target, prefs)?;
    put_entry(alloc, changes, Kind::Indexes, index, &[], value)
}

/// The table, the column and the preferences, where the bytes are those of a rule index.
fn parts(alloc: Global, value: &[u8]) -> Result<Option<(&[u8], u8, Prefs)>, Memory>
    ensures parts { IfOk result (λ found. HasRulesParts value.now (option_map (λ r. (r.0.now, r.1, r.2)) found)) }
    ensures set { IfOk result (λ found. IfSome found (λ r. can_be_set r.2.lexer ≡ true)) }
{
    let Some((table, at)) = read_text(value, 1) else {
        return Ok(None);
    };
    let Some(column) = value.get(at) else {
        return Ok(None);
    };
    let Some(read) = Prefs::read(alloc, value, at + 2)? else {
        return Ok(None);
    };
    Ok(Some((table, *column, read.0)))
}

/// The rule index that the bytes spell. They are written again, and compared.
pub(crate) fn rules_of(alloc: Global, value: &[u8]) -> Result<Option<RulesEntry>, Memory>
    ensures entry { IfOk result (λ found. IsEntryOf (Some value.now) found) }
    ensures set { IfOk result (λ found. IfSome found (λ e. can_be_set e.prefs.lexer ≡ true)) }
{
    let Some((table, column, prefs)) = parts(alloc, value)? else {
        return Ok(None);
    };
    let Some(table) = Name::of_bytes(alloc, table)? else {
        return Ok(None);
    };
    prefs.keep_rules();
    let target = Target { table, column };
    let written = rules_value(alloc, &target, &prefs)?;
    if written.as_slice() == value {
        Ok(Some(RulesEntry { target, prefs }))
    } else {
        Ok(None)
    }
}

/// What the entry of a rule index says. None where there is no such index, or its entry isn't that of one. It never answers Full.
pub(crate) fn read_rules<K: Keeper>(
    alloc: Global,
    keeper: &mut K,
    index: &Name,
) -> Result<Option<RulesEntry>, KeepFault>
    requires { (K.view keeper.old).ready }
    ensures entry { Finds K.view keeper.old result (λ m found. IsEntryOf (at m (key kind.Indexes index.now [])) found) }
    ensures set { IfOk result (λ found. IfSome found (λ e. can_be_set e.prefs.lexer ≡ true)) }
    ensures reads { OnlyReads K.view keeper.old keeper.new result }
    ensures at_most { LooksAtMost K.view keeper.old keeper.new (look (bytes (key kind.Indexes index.now [])) None) }
{
    let Some(value) = fetch_entry(alloc, keeper, Kind::Indexes, index, &[])? else {
        return Ok(None);
    };
    let found = rules_of(alloc, &value)?;
    Ok(found)
}

/// The query that bytes are stored for; None where that finds nothing, or they are those of none.
fn query_in(alloc: Global, value: &[u8]) -> Result<Option<Flat>, Memory>
    ensures query { IfOk result (λ found. HasQuery (Some value.now) (option_map reduced_of found)) }
    ensures sound { IfOk result (λ found. IfSome found (λ q. is_sound (reduced_of q) ≡ true)) }
{
    match decode(alloc, value) {
        Ok(found) => Ok(found),
        Err(StoredFault::BadQuery) => Ok(None),
        Err(StoredFault::Memory) => Err(Memory),
    }
}

/// The query of a rule that was taken; None where it finds nothing, and where the row has no such rule.
///
/// It takes one look-up, and never answers Full.
pub(crate) fn rule_query<K: Keeper>(
    alloc: Global,
    keeper: &mut K,
    index: &Name,
    row: RowKey,
) -> Result<Option<Flat>, KeepFault>
    requires { (K.view keeper.old).ready }
    ensures query { Finds K.view keeper.old result (λ m found. HasQuery (at m (key kind.Rules index.now (row_part row.0))) (option_map reduced_of found)) }
    ensures sound { IfOk result (λ found. IfSome found (λ q. is_sound (reduced_of q) ≡ true)) }
    ensures reads { OnlyReads K.view keeper.old keeper.new result }
    ensures at_most { LooksAtMost K.view keeper.old keeper.new (look (bytes (key kind.Rules index.now (row_part row.0))) None) }
{
    let part = row_key_bytes(row);
    let Some(value) = fetch_entry(alloc, keeper, Kind::Rules, index, &part)? else {
        return Ok(None);
    };
    let found = query_in(alloc, &value)?;
    Ok(found)
}
