//! The fields of a line.
#![tactic(auto, using(ct_keep::specs::laws::Composing::reads_on, ct_keep::specs::laws::Composing::reads_short))]

ghost use Rattle.std.specs.Prelude.{◌≡◌, [], ◌∷◌, ◌++◌, map, IfOk, OnOk};
ghost use Rattle.std.specs.List.{cons_option, filter_map};
ghost use Rattle.ct_keep.specs.KeeperViews.{OnlyReads};
ghost use Rattle.db_rows.specs.Reading.{IsReadOf, OverRow};
ghost use Rattle.db_rows.specs.Texts.{ReadsOnce};
ghost use Rattle.db_select.specs.Fields.{field_among, fields_among, found_value, read_fields};

use crate::sources::FieldSource;
use ct_base::{Memory, Name, Value};
use ct_keep::{KeepFault, Keeper};
use db_rows::{RowRead, column_value};
use ix_search::Hit;
use std::alloc::Global;

/// The value of a field of a row; None where the row has none.
fn field<K: Keeper>(
    alloc: Global,
    keeper: &mut K,
    table: &Name,
    hit: Hit,
    read: &mut RowRead,
    source: FieldSource,
) -> Result<Option<Value>, KeepFault>
    requires { (K.view keeper.old).ready }
    ensures value { OverRow K.view keeper.old table.now hit.key.0 read.old (λ vs. IfOk result (λ value. value ≡ found_value hit vs source)) }
    ensures read { OverRow K.view keeper.old table.now hit.key.0 read.old (λ vs. OnOk result (IsReadOf vs read.new)) }
    ensures reads { OnlyReads K.view keeper.old keeper.new result }
    ensures once { ReadsOnce K.view keeper.old keeper.new read.old read.new result (λ places. field_among places source) }
{
    match source {
        FieldSource::Column(source) => column_value(alloc, keeper, table, hit.key, read, source),
        FieldSource::Score => Ok(Some(Value::Number(i64::from(hit.score)))),
    }
}

/// Puts a value.
fn push_value(values: &mut Vec<Option<Value>>, value: Option<Value>) -> Result<(), Memory>
    ensures { OnOk result (values.new.items ≡ values.old.items ++ value ∷ []) }
{
    values.push(value)?;
    Ok(())
}

/// The value of each field of a row that was found, of which this was read before.
pub(crate) fn field_values<K: Keeper>(
    alloc: Global,
    keeper: &mut K,
    table: &Name,
    sources: &[FieldSource],
    hit: Hit,
    read: &mut RowRead,
) -> Result<Vec<Option<Value>>, KeepFault>
    requires { (K.view keeper.old).ready }
    ensures values { OverRow K.view keeper.old table.now hit.key.0 read.old (λ vs. IfOk result (λ values. values.items ≡ map (found_value hit vs) sources.now)) }
    ensures read { OverRow K.view keeper.old table.now hit.key.0 read.old (λ vs. OnOk result (IsReadOf vs read.new)) }
    ensures reads { OnlyReads K.view keeper.old keeper.new result }
    ensures once { ReadsOnce K.view keeper.old keeper.new read.old read.new result (λ places. fields_among places sources.now) }
{
    let mut values = Vec::new(alloc);
    for source in sources {
        let value = field(alloc, keeper, table, hit, read, *source)?;
        push_value(&mut values, value)?;
    }
    Ok(values)
}

/// Puts a value, where there is one.
fn push_some(fields: &mut Vec<Value>, value: Option<Value>) -> Result<(), Memory>
    ensures { OnOk result (fields.new.items ≡ fields.old.items ++ cons_option value []) }
{
    if let Some(value) = value {
        fields.push(value)?;
    }
    Ok(())
}

/// The values that are there.
fn present(alloc: Global, values: Vec<Option<Value>>) -> Result<Vec<Value>, Memory>
    ensures { IfOk result (λ fields. fields.items ≡ filter_map (λ value. value) values.items) }
{
    let mut fields = Vec::new(alloc);
    for value in values {
        push_some(&mut fields, value)?;
    }
    Ok(fields)
}

/// The fields of a row that was found, of which this was read before.
pub(crate) fn row_fields<K: Keeper>(
    alloc: Global,
    keeper: &mut K,
    table: &Name,
    sources: &[FieldSource],
    hit: Hit,
    read: &mut RowRead,
) -> Result<Vec<Value>, KeepFault>
    requires { (K.view keeper.old).ready }
    ensures fields { OverRow K.view keeper.old table.now hit.key.0 read.old (λ vs. IfOk result (λ fields. fields.items ≡ read_fields sources.now hit vs)) }
    ensures reads { OnlyReads K.view keeper.old keeper.new result }
    ensures once { ReadsOnce K.view keeper.old keeper.new read.old read.new result (λ places. fields_among places sources.now) }
{
    let values = field_values(alloc, keeper, table, sources, hit, read)?;
    let fields = present(alloc, values)?;
    Ok(fields)
}
