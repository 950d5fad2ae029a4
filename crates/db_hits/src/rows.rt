//! Hits with their values in the columns that a descriptor names.
#![tactic(auto, using(ct_keep::specs::laws::Composing::reads_on, ct_keep::specs::laws::Composing::reads_short))]

ghost use Rattle.std.specs.Prelude.{◌≡◌, ◌++◌, ◌∷◌, ◌*◌, [], length, map, IfOk, OnOk};
ghost use Rattle.ct_keep.specs.KeeperViews.{OnlyReads};
ghost use Rattle.rs_result.specs.Comparing.{ranked};
ghost use Rattle.db_state.specs.States.{Sees};
ghost use Rattle.db_rows.specs.Sources.{source_value};
ghost use Rattle.db_rows.specs.Values.{row_values};
ghost use Rattle.db_hits.specs.Rows.{ReadsWithin, names_of as names_in, rank_read, sources_of as sources_in};

use crate::checking::is_named;
use ct_base::{Memory, Name, RowKey, Value};
use ct_keep::{KeepFault, Keeper};
use db_rows::{RowRead, Source, column_value, source_of};
use ix_search::Hit;
use rs_result::{ResultPart, ResultRow};
use std::alloc::Global;
use tb_table::Column;

/// A hit with its values.
pub(crate) type HitRow = ResultRow<()>;

/// Puts a copy of a name.
fn push_name(names: &mut Vec<Name>, name: &Name) -> Result<(), Memory>
    ensures { OnOk result (names.new.items ≡ names.old.items ++ name.now ∷ []) }
{
    names.push(name.clone()?)?;
    Ok(())
}

/// Puts a copy of the name of a column, if the parts name it.
fn push_if_named(names: &mut Vec<Name>, parts: &[ResultPart], column: &Column) -> Result<(), Memory>
    ensures { OnOk result (names.new.items ≡ names.old.items ++ names_in parts.now (column.now ∷ [])) }
{
    if is_named(parts, column) {
        return push_name(names, &column.name);
    }
    Ok(())
}

/// The names of the columns that the parts of a descriptor name, each once, in the order of the table. Its cost is the number of the
/// table's columns times that of the names.
pub(crate) fn names_of(
    alloc: Global,
    parts: &[ResultPart],
    columns: &[Column],
) -> Result<Vec<Name>, Memory>
    ensures { IfOk result (λ names. names.items ≡ names_in parts.now columns.now) }
{
    let mut names = Vec::new(alloc);
    for column in columns {
        push_if_named(&mut names, parts, column)?;
    }
    Ok(names)
}

/// Where the values in columns of these names come from.
pub(crate) fn sources_of(
    alloc: Global,
    names: &[Name],
    columns: &[Column],
) -> Result<Vec<Source>, Memory>
    ensures { IfOk result (λ sources. sources.items ≡ sources_in columns.now names.now) }
{
    let mut sources = Vec::new(alloc);
    for name in names {
        sources.push(source_of(name, columns))?;
    }
    Ok(sources)
}

/// Puts a value.
fn push_value(values: &mut Vec<Option<Value>>, value: Option<Value>) -> Result<(), Memory>
    ensures { OnOk result (values.new.items ≡ values.old.items ++ value ∷ []) }
{
    values.push(value)?;
    Ok(())
}

/// The values of a row that come from these places; each of its texts is read once.
fn values_of<K: Keeper>(
    alloc: Global,
    keeper: &mut K,
    table: &Name,
    sources: &[Source],
    row: RowKey,
) -> Result<Vec<Option<Value>>, KeepFault>
    requires { (K.view keeper.old).ready }
    ensures values { Sees K.view keeper.old result (λ m values. values.items ≡ map (source_value row.0 (row_values m.tables table.now row.0)) sources.now) }
    ensures reads { OnlyReads K.view keeper.old keeper.new result }
    ensures within { ReadsWithin K.view keeper.old keeper.new sources.now (λ n. n) }
{
    let mut read = RowRead::nothing(alloc);
    let mut values = Vec::new(alloc);
    for source in sources {
        let value = column_value(alloc, keeper, table, row, &mut read, *source)?;
        push_value(&mut values, value)?;
    }
    Ok(values)
}

/// A hit with its values.
fn row_of<K: Keeper>(
    alloc: Global,
    keeper: &mut K,
    table: &Name,
    sources: &[Source],
    hit: Hit,
) -> Result<HitRow, KeepFault>
    requires { (K.view keeper.old).ready }
    ensures row { Sees K.view keeper.old result (λ m row. ranked row ≡ rank_read m.tables table.now sources.now hit) }
    ensures reads { OnlyReads K.view keeper.old keeper.new result }
    ensures within { ReadsWithin K.view keeper.old keeper.new sources.now (λ n. n) }
{
    let values = values_of(alloc, keeper, table, sources, hit.key)?;
    Ok(ResultRow {
        key: hit.key,
        score: hit.score,
        values,
        item: (),
    })
}

/// Puts a row.
fn push_row(rows: &mut Vec<HitRow>, row: HitRow) -> Result<(), Memory>
    ensures { OnOk result (rows.new.items ≡ rows.old.items ++ row ∷ []) }
{
    rows.push(row)?;
    Ok(())
}

/// Hits with their values that come from these places. Of each it reads each text once, and its numbers where they are asked for.
pub(crate) fn rows_of<K: Keeper>(
    alloc: Global,
    keeper: &mut K,
    table: &Name,
    sources: &[Source],
    hits: &[Hit],
) -> Result<Vec<HitRow>, KeepFault>
    requires { (K.view keeper.old).ready }
    ensures rows { Sees K.view keeper.old result (λ m rows. map ranked rows.items ≡ map (rank_read m.tables table.now sources.now) hits.now) }
    ensures reads { OnlyReads K.view keeper.old keeper.new result }
    ensures within { ReadsWithin K.view keeper.old keeper.new sources.now (λ n. length hits.now * n) }
{
    let mut rows = Vec::new(alloc);
    for hit in hits {
        let row = row_of(alloc, keeper, table, sources, *hit)?;
        push_row(&mut rows, row)?;
    }
    Ok(rows)
}
