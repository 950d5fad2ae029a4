//! The rows that a SELECT finds.
#![tactic(auto, using(ct_keep::specs::laws::Composing::reads_on, ct_keep::specs::laws::Composing::reads_short))]

ghost use Rattle.std.specs.Prelude.{ℕ, ◌≡◌, ◌+◌, List, map, is_some, IfOk, IfSome, OnOk};
ghost use Rattle.ct_keep.specs.KeeperViews.{OnlyReads};
ghost use Rattle.tb_table.specs.Tables.{Tables};
ghost use Rattle.db_state.specs.States.{OverStates, Sees};
ghost use Rattle.db_rows.specs.Reading.{IsOwn};
ghost use Rattle.db_rows.specs.Texts.{left_of};
ghost use Rattle.db_rows.specs.Walking.{with_met};
ghost use Rattle.db_select.specs.Giving.{GivesOver, GivesScores};
ghost use Rattle.db_select.specs.Hits.{HoldOwn, PutsIfMet, TriesHit, TriesHits, hits_of, met_among, rows_left, unscored as unscored_row, unsearched_rows};

use crate::finds::FoundRow;
use ct_base::{Memory, Name};
use ct_keep::{KeepFault, Keeper};
use db_rows::{MetRow, RowRead, Shown, read_if_met, rows_meeting};
use ix_search::Hit;
use st_parse::Cond;
use std::alloc::Global;
use tb_table::Column;

/// Puts a row that was found, if it meets the conditions.
fn push_met(rows: &mut Vec<FoundRow>, hit: Hit, read: Option<RowRead>) -> Result<(), Memory>
    ensures hits { OnOk result (hits_of rows.new.items ≡ with_met (is_some read) hit (hits_of rows.old.items)) }
    ensures own { (ts : Tables) (t : List ℕ) → IfSome read (IsOwn ts t hit.key) → OnOk result (HoldOwn ts t rows.old.items → HoldOwn ts t rows.new.items) }
    ensures left { (places : List ℕ) → OnOk result (rows_left places rows.new.items ≡ rows_left places rows.old.items + left_of places read) }
{
    let Some(read) = read else {
        return Ok(());
    };
    rows.push(FoundRow { hit, read })?;
    Ok(())
}

/// Puts a row that was found, if it meets all conditions.
fn note_hit<K: Keeper>(
    alloc: Global,
    keeper: &mut K,
    table: &Name,
    columns: &[Column],
    conds: &[Cond],
    shown: &Shown,
    rows: &mut Vec<FoundRow>,
    hit: Hit,
) -> Result<(), KeepFault>
    requires { (K.view keeper.old).ready }
    ensures hits { PutsIfMet K.view keeper.old table.now columns.now conds.now hit result rows.old.items rows.new.items }
    ensures own { OverStates K.view keeper.old (λ m c. OnOk result (HoldOwn m.tables table.now rows.old.items → HoldOwn m.tables table.now rows.new.items)) }
    ensures reads { OnlyReads K.view keeper.old keeper.new result }
    ensures once { TriesHit K.view keeper.old keeper.new shown.now columns.now conds.now result rows.old.items rows.new.items }
{
    let read = read_if_met(alloc, keeper, table, columns, conds, shown, hit.key)?;
    push_met(rows, hit, read)?;
    Ok(())
}

/// Of rows that were found those that meet all conditions. Of each row it reads only what the conditions are on, each text once, and
/// keeps of that what is shown.
pub(crate) fn met_hits<K: Keeper>(
    alloc: Global,
    keeper: &mut K,
    table: &Name,
    columns: &[Column],
    conds: &[Cond],
    shown: &Shown,
    found: &[Hit],
) -> Result<Vec<FoundRow>, KeepFault>
    requires { (K.view keeper.old).ready }
    ensures hits { GivesOver K.view keeper.old table.now columns.now result (λ m x rows. hits_of rows.items ≡ met_among x conds.now found.now) }
    ensures own { Sees K.view keeper.old result (λ m rows. HoldOwn m.tables table.now rows.items) }
    ensures reads { OnlyReads K.view keeper.old keeper.new result }
    ensures once { TriesHits K.view keeper.old keeper.new shown.now columns.now conds.now found.now result }
{
    let mut rows = Vec::new(alloc);
    for hit in found {
        note_hit(alloc, keeper, table, columns, conds, shown, &mut rows, *hit)?;
    }
    Ok(rows)
}

/// A row with the score 0, for which no SCORE asks.
fn unscored(row: MetRow) -> FoundRow
    ensures { result ≡ unscored_row row }
{
    let MetRow { key, read } = row;
    FoundRow {
        hit: Hit { key, score: 0 },
        read,
    }
}

/// Rows with the score 0.
fn unscored_rows(alloc: Global, rows: Vec<MetRow>) -> Result<Vec<FoundRow>, Memory>
    ensures { IfOk result (λ found. found.items ≡ map unscored_row rows.items) }
{
    let mut found = Vec::new(alloc);
    for row in rows {
        found.push(unscored(row))?;
    }
    Ok(found)
}

/// The rows that meet all conditions, in order of their keys, where nothing is searched.
///
/// It walks over the rows that the conditions on the key bound.
pub(crate) fn unsearched_hits<K: Keeper>(
    alloc: Global,
    keeper: &mut K,
    table: &Name,
    columns: &[Column],
    conds: &[Cond],
    shown: &Shown,
) -> Result<Vec<FoundRow>, KeepFault>
    requires { (K.view keeper.old).ready }
    ensures hits { GivesScores K.view keeper.old table.now columns.now result (λ m x. unsearched_rows m table.now x conds.now) }
    ensures own { Sees K.view keeper.old result (λ m rows. HoldOwn m.tables table.now rows.items) }
    ensures reads { OnlyReads K.view keeper.old keeper.new result }
{
    let rows = rows_meeting(alloc, keeper, table, columns, conds, shown)?;
    let found = unscored_rows(alloc, rows)?;
    Ok(found)
}
