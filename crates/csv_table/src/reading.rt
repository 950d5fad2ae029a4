//! From a CSV text to its table, and to its script.

ghost use Rattle.std.specs.Prelude.{◌≡◌, ◌≤◌, false, ℕ, List, length, map, IfErr, IfOk, OnOk};
ghost use Rattle.std.specs.Char.{to_ascii_lowercase};
ghost use Rattle.std.specs.Option.{option_map};
ghost use Rattle.ct_base.specs.Limits.{row_limit};
ghost use Rattle.csv.specs.Records.{fields_of};
ghost use Rattle.csv_table.specs.Faults.{CountFault, RecordsFault, ScriptFault, TableFault, TableNameFault};
ghost use Rattle.csv_table.specs.Scripts.{IsScriptOfText};
ghost use Rattle.csv_table.specs.Tables.{HasRecords, IsPlainName, IsTableOf, IsWritable, is_view};

use crate::names::{key_place, names_of, plain_name, split_names};
use crate::records::records;
use crate::refusals::Refusal;
use crate::rows::{check_keys, columns_of, rows_of};
use crate::spelling::script;
use crate::tables::Table;
use crate::texts::line_of;
use csv::ByteRecord;
use ct_base::{Listed, Name, ROW_LIMIT};
use std::alloc::Global;

/// Refuses more records than a table has rows.
fn check_count(records: &[ByteRecord]) -> Result<(), Refusal>
    ensures count { OnOk result (length records.now ≤ row_limit) }
    ensures cause { IfErr result (λ e. CountFault (length records.now) e) }
{
    match records.get(ROW_LIMIT as usize) {
        Some(record) => Err(Refusal::TooManyRows {
            line: line_of(record),
        }),
        None => Ok(()),
    }
}

/// Whether this is the name of a view.
fn is_view(name: &str) -> bool
    ensures { result ≡ is_view name.now }
{
    name == "ctx_user_pending" || name == "ctx_user_index_errors"
}

/// The name of the table, in lower case. No table has the name of a view.
#[tactic(auto, using(crate::proofs::FaultSteps::no_table_name, crate::proofs::FaultSteps::view_told))]
fn table_name(alloc: Global, text: &str) -> Result<Name, Refusal>
    ensures name { IfOk result (λ name. name ≡ map to_ascii_lowercase text.now) }
    ensures plain { IfOk result (λ name. IsPlainName name) }
    ensures no_view { IfOk result (λ name. is_view name ≡ false) }
    ensures cause { IfErr result (λ e. TableNameFault text.now e) }
{
    let Some(name) = plain_name(alloc, text)? else {
        return Err(Refusal::TableName);
    };
    if is_view(name.as_str()) {
        return Err(Refusal::TableName);
    }
    Ok(name)
}

/// The table of this name that records are, the header first.
fn table_of_records(
    alloc: Global,
    name: Name,
    key: Option<&str>,
    header: &ByteRecord,
    records: &[ByteRecord],
) -> Result<Table, Refusal>
    requires plain { IsPlainName name }
    requires no_view { is_view name ≡ false }
    ensures table { IfOk result (λ t. (text spelt : List ℕ) → HasRecords text (fields_of header.now) (map fields_of records.now)
        → map to_ascii_lowercase spelt ≡ name → IsTableOf text spelt (option_map (λ k. k.now) key.entry) t) }
    ensures writable { IfOk result (λ t. IsWritable t) }
    ensures cause { IfErr result (λ e. RecordsFault (option_map (λ k. k.now) key.entry) (fields_of header.now) (map fields_of records.now) e) }
{
    let names = names_of(alloc, header)?;
    let width = names.len();
    let all = names.as_slice();
    let place = key_place(alloc, all, key)?;
    check_count(records)?;
    let rows = rows_of(alloc, records, width, place)?;
    let each = rows.as_slice();
    check_keys(alloc, each)?;
    let (key, others) = split_names(names, place);
    let columns = columns_of(alloc, others, each)?;
    let columns = Listed::of(columns);
    let rows = Listed::of(rows);
    Ok(Table {
        name,
        key,
        columns,
        rows,
    })
}

/// The table that a CSV text is. Its first record is the header. The key is the column that `key` names, in any ASCII case, or else
/// the first one. Its cost is the length of the text, and a logarithm of the number of rows for each of them.
pub fn table_of(alloc: Global, text: &[u8], name: &str, key: Option<&str>) -> Result<Table, Refusal>
    ensures table { IfOk result (λ t. IsTableOf text.now name.now (option_map (λ k. k.now) key.entry) t) }
    ensures writable { IfOk result (λ t. IsWritable t) }
    ensures cause { IfErr result (λ e. TableFault text.now name.now (option_map (λ k. k.now) key.entry) e) }
{
    let plain = table_name(alloc, name)?;
    let records = records(alloc, text)?;
    let [header, rows @ ..] = records.as_slice() else {
        return Err(Refusal::NoColumn);
    };
    let table = table_of_records(alloc, plain, key, header, rows)?;
    Ok(table)
}

/// The script of the table that a CSV text is.
pub fn script_of(
    alloc: Global,
    text: &[u8],
    name: &str,
    key: Option<&str>,
) -> Result<Vec<u8>, Refusal>
    ensures script { IfOk result (λ script. IsScriptOfText text.now name.now (option_map (λ k. k.now) key.entry) script.items) }
    ensures cause { IfErr result (λ e. ScriptFault text.now name.now (option_map (λ k. k.now) key.entry) e) }
{
    let table = table_of(alloc, text, name, key)?;
    let script = script(alloc, &table)?;
    Ok(script)
}
