//! The rows of a table, and the types of its columns.

ghost use Rattle.std.specs.Prelude.{◌≡◌, ◌<◌, ◌+◌, ◌⊎◌, ◌==◌, ◌||◌, ℕ, ℤ, true, false, [], get_or, is_some, length, map, IfErr, IfOk, OnOk};
ghost use Rattle.std.specs.BTreeMap.{get};
ghost use Rattle.std.specs.List.{AllByRecursion, IsDistinct, list_all};
ghost use Rattle.std.specs.Ordering.{int_cmp, int_eq};
ghost use Rattle.csv.specs.Records.{fields_of};
ghost use Rattle.csv_table.specs.declared.refusals.Refusal.TheVariants.{FieldCount, NoKey, Memory as OutOfMemory};
ghost use Rattle.csv_table.specs.Faults.{HasOne, KeysFault, RowFault};
ghost use Rattle.csv_table.specs.Tables.{IsField, IsFullRow, columns_from, key_numbers, longest, number_in, put_at, sort_of, text_sort, values_at};
ghost use Rattle.csv_table.specs.Wholes.{is_whole, whole};

use crate::refusals::Refusal;
use crate::tables::{Column, Row, Sort};
use crate::texts::{check_texts, line_of, texts_of};
use crate::wholes::{is_whole, whole};
use csv::ByteRecord;
use ct_base::{Listed, Memory, Name, Text};
use st_parse::Whole;
use std::alloc::Global;
use std::collections::BTreeMap;

/// How many bytes a VARCHAR2 takes at most.
const VARCHAR2_LIMIT: u16 = 4000;

/// The field at this place, and the others in their order.
#[tactic(auto, using(crate::proofs::TableSteps::put_back, crate::proofs::TableSteps::all_removed, crate::proofs::TableSteps::removed_count, crate::proofs::FaultSteps::got_at))]
fn split_field(fields: Vec<Text>, place: usize) -> (Text, Vec<Text>)
    requires { place < length fields.items }
    ensures whole { put_at place result.0 result.1.items ≡ fields.items }
    ensures field { get_or fields.items place [] ≡ result.0 }
    ensures count { length result.1.items + 1 ≡ length fields.items }
    ensures fields { AllByRecursion IsField fields.items → AllByRecursion IsField result.1.items }
{
    let mut fields = fields;
    let field = fields.remove(place);
    (field, fields)
}

/// Refuses a record that hasn't so many fields.
fn check_width(fields: &[Text], width: usize, line: u64) -> Result<(), Refusal>
    ensures width { OnOk result (length fields.now ≡ width) }
    ensures cause { IfErr result (λ e. (e ≡ FieldCount line (length fields.now) width) × ((length fields.now == width) ≡ false)) }
{
    if fields.len() != width {
        return Err(Refusal::FieldCount {
            line,
            count: fields.len(),
            wanted: width,
        });
    }
    Ok(())
}

/// Refuses a key that is no whole number.
fn check_key(alloc: Global, key: &Text, line: u64, field: usize) -> Result<(), Refusal>
    ensures whole { OnOk result (is_whole key.now ≡ true) }
    ensures cause { IfErr result (λ e. (e ≡ OutOfMemory) ⊎ ((e ≡ NoKey line field) × (is_whole key.now ≡ false))) }
{
    if !is_whole(alloc, key)? {
        return Err(Refusal::NoKey { line, field });
    }
    Ok(())
}

/// The row that a record is. It has a value for each of `width` columns, and the key's stands at `place`.
#[tactic(auto, using(crate::proofs::TableSteps::full_row))]
fn row_of(alloc: Global, record: &ByteRecord, width: usize, place: usize) -> Result<Row, Refusal>
    requires { place < width }
    ensures fields { IfOk result (λ row. put_at place row.key row.values ≡ fields_of record.now) }
    ensures full { IfOk result (λ row. (count : ℕ) → count + 1 ≡ width → IsFullRow count row) }
    ensures cause { IfErr result (λ e. RowFault width place (fields_of record.now) e) }
{
    let line = line_of(record);
    let fields = texts_of(alloc, record, line)?;
    let texts = fields.as_slice();
    check_width(texts, width, line)?;
    check_texts(texts, line)?;
    let (key, values) = split_field(fields, place);
    check_key(alloc, &key, line, place + 1)?;
    Ok(Row {
        line,
        key,
        values: Listed::of(values),
    })
}

/// The rows that records are.
#[tactic(auto, using(crate::proofs::TableSteps::all_push))]
pub(crate) fn rows_of(
    alloc: Global,
    records: &[ByteRecord],
    width: usize,
    place: usize,
) -> Result<Vec<Row>, Refusal>
    requires { place < width }
    ensures fields { IfOk result (λ rows. map (λ r. put_at place r.key r.values) rows.items ≡ map fields_of records.now) }
    ensures full { IfOk result (λ rows. (count : ℕ) → count + 1 ≡ width → AllByRecursion (IsFullRow count) rows.items) }
    ensures cause { IfErr result (λ e. HasOne (λ r. RowFault width place (fields_of r) e) records.now) }
{
    let mut rows = Vec::new(alloc);
    let mut rest = records;
    'records: while let [record, after @ ..] = rest {
        let row = row_of(alloc, record, width, place)?;
        rows.push(row)?;
        rest = after;
    }
    Ok(rows)
}

/// The number of a key; 0 where the field is none.
fn key_number(alloc: Global, key: &Text) -> Result<i64, Memory>
    ensures { IfOk result (λ n. n ≡ number_in (whole key.now)) }
{
    match whole(alloc, key)? {
        Whole::Fits(n) => Ok(n),
        Whole::Beyond => Ok(0),
    }
}

/// Notes the line of a key's number, and gives the line that was noted for it before.
fn note_line(lines: &mut BTreeMap<i64, u64>, number: i64, line: u64) -> Result<Option<u64>, Memory>
    ensures before { IfOk result (λ first. is_some first ≡ is_some (get int_cmp lines.old number)) }
    ensures after { OnOk result ((q : ℤ) → is_some (get int_cmp lines.new q) ≡ (int_eq number q || is_some (get int_cmp lines.old q))) }
{
    Ok(lines.insert(number, line)?)
}

/// Notes the line of a row under the number of its key, and gives the line that was noted there before.
fn note_key(alloc: Global, lines: &mut BTreeMap<i64, u64>, row: &Row) -> Result<Option<u64>, Memory>
    ensures before { IfOk result (λ first. is_some first ≡ is_some (get int_cmp lines.old (number_in (whole row.now.key)))) }
    ensures after { OnOk result ((q : ℤ) → is_some (get int_cmp lines.new q) ≡ (int_eq (number_in (whole row.now.key)) q || is_some (get int_cmp lines.old q))) }
{
    let number = key_number(alloc, &row.key)?;
    let first = note_line(lines, number, row.line)?;
    Ok(first)
}

/// Refuses rows of which two have one key.
#[tactic(auto, using(crate::proofs::TableSteps::keys_end))]
pub(crate) fn check_keys(alloc: Global, rows: &[Row]) -> Result<(), Refusal>
    ensures apart { OnOk result (IsDistinct int_eq (key_numbers rows.now)) }
    ensures cause { IfErr result (λ e. KeysFault (key_numbers rows.now) e) }
{
    let mut lines = BTreeMap::new(alloc);
    let mut rest = rows;
    'rows: while let [row, after @ ..] = rest {
        if let Some(first) = note_key(alloc, &mut lines, row)? {
            let line = row.line;
            return Err(Refusal::KeyTwice { line, first });
        }
        rest = after;
    }
    Ok(())
}

/// Whether a row has a whole number at this place among its values.
fn is_whole_at(alloc: Global, row: &Row, place: usize) -> Result<bool, Memory>
    ensures { IfOk result (λ told. told ≡ is_whole (get_or row.now.values place [])) }
{
    match row.values.as_slice().get(place) {
        Some(value) => is_whole(alloc, value),
        None => Ok(false),
    }
}

/// Whether each of the rows has a whole number at this place among its values.
fn are_whole_at(alloc: Global, rows: &[Row], place: usize) -> Result<bool, Memory>
    ensures { IfOk result (λ told. told ≡ list_all is_whole (values_at place rows.now)) }
{
    let mut rest = rows;
    'rows: while let [row, after @ ..] = rest {
        if !is_whole_at(alloc, row, place)? {
            return Ok(false);
        }
        rest = after;
    }
    Ok(true)
}

/// How many bytes a row has at this place among its values.
fn length_at(row: &Row, place: usize) -> usize
    ensures { result ≡ length (get_or row.now.values place []) }
{
    match row.values.as_slice().get(place) {
        Some(value) => value.as_str().len(),
        None => 0,
    }
}

/// How many bytes the longest of the values at this place has.
fn longest_at(rows: &[Row], place: usize) -> usize
    ensures { result ≡ longest (values_at place rows.now) }
{
    let mut most = 0;
    let mut rest = rows;
    'rows: while let [row, after @ ..] = rest {
        most = most.max(length_at(row, place));
        rest = after;
    }
    most
}

fn text_sort(size: usize) -> Sort
    ensures { result ≡ text_sort size }
{
    if size <= usize::from(VARCHAR2_LIMIT) {
        Sort::Text((size as u16).max(1))
    } else {
        Sort::Long
    }
}

/// The type of the column at this place among the values of the rows.
fn sort_at(alloc: Global, rows: &[Row], place: usize) -> Result<Sort, Memory>
    ensures { IfOk result (λ sort. sort ≡ sort_of (values_at place rows.now)) }
{
    if are_whole_at(alloc, rows, place)? {
        return Ok(Sort::Number);
    }
    Ok(text_sort(longest_at(rows, place)))
}

/// The columns of these names, with the types of their values in the rows. Its cost is that of all values.
#[tactic(auto, using(crate::proofs::TableSteps::columns_on))]
pub(crate) fn columns_of(
    alloc: Global,
    names: Vec<Name>,
    rows: &[Row],
) -> Result<Vec<Column>, Memory>
    ensures { IfOk result (λ columns. columns.items ≡ columns_from 0 names.items rows.now) }
{
    let mut columns = Vec::new(alloc);
    for name in names {
        let sort = sort_at(alloc, rows, columns.len())?;
        columns.push(Column { name, sort })?;
    }
    Ok(columns)
}
