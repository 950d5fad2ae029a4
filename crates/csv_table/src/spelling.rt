//! Writes the statements of a table.

ghost use Rattle.std.specs.Prelude.{◌≡◌, ◌<◌, ◌≤◌, ◌++◌, ◌∷◌, ◌⊎◌, length, map, IfErr, IfOk, OnOk};
ghost use Rattle.std.specs.Fmt.{decimal};
ghost use Rattle.std.specs.List.{AllByRecursion};
ghost use Rattle.st_parse.specs.Writing.{quoted};
ghost use Rattle.csv_table.specs.declared.refusals.Refusal.TheVariants.{StatementTooLong, Memory as OutOfMemory};
ghost use Rattle.csv_table.specs.Faults.{HasOne, InsertFault, StatementFault};
ghost use Rattle.csv_table.specs.Scripts.{IsScriptOf, statement_limit, statements};
ghost use Rattle.csv_table.specs.Spelling.{column_text, create_text, ended, insert_text, list_end, script_text, sort_text, value_text, value_texts};
ghost use Rattle.csv_table.specs.Steps.{inserts_text, key_end};
ghost use Rattle.csv_table.specs.Tables.{IsWritable};

use crate::laws::script_is_read;
use crate::refusals::Refusal;
use crate::tables::{Column, Row, Sort, Table};
use ct_base::{Memory, Name, Text};
use std::alloc::Global;

/// How many bytes a statement has at most.
pub const STATEMENT_LIMIT: usize = 65_536;

fn push(out: &mut Vec<u8>, bytes: &[u8]) -> Result<(), Memory>
    ensures { OnOk result (out.new.items ≡ out.old.items ++ bytes.now) }
{
    out.extend_from_slice(bytes)?;
    Ok(())
}

/// Appends a text in quotes, with each quote in it twice.
fn push_quoted(out: &mut Vec<u8>, text: &[u8]) -> Result<(), Memory>
    ensures { OnOk result (out.new.items ≡ out.old.items ++ 39 ∷ quoted text.now) }
{
    push(out, b"'")?;
    let mut rest = text;
    'bytes: while let [byte, after @ ..] = rest {
        if *byte == b'\'' {
            push(out, b"''")?;
        } else {
            push(out, &[*byte])?;
        }
        rest = after;
    }
    push(out, b"'")
}

fn push_number(alloc: Global, out: &mut Vec<u8>, n: u16) -> Result<(), Memory>
    ensures { OnOk result (out.new.items ≡ out.old.items ++ decimal n) }
{
    let digits = format!(in alloc; "{n}")?;
    push(out, digits.as_bytes())
}

fn push_sort(alloc: Global, out: &mut Vec<u8>, sort: Sort) -> Result<(), Memory>
    ensures { OnOk result (out.new.items ≡ out.old.items ++ sort_text sort) }
{
    match sort {
        Sort::Number => push(out, b"NUMBER"),
        Sort::Text(size) => {
            push(out, b"VARCHAR2(")?;
            push_number(alloc, out, size)?;
            push(out, b")")
        }
        Sort::Long => push(out, b"CLOB"),
    }
}

/// Appends the columns but the key, and the end of their list.
fn push_columns(alloc: Global, out: &mut Vec<u8>, columns: &[Column]) -> Result<(), Memory>
    ensures { OnOk result (out.new.items ≡ out.old.items ++ list_end (map column_text columns.now)) }
{
    let mut rest = columns;
    'columns: while let [column, after @ ..] = rest {
        push(out, b", ")?;
        push(out, column.name.as_str().as_bytes())?;
        push(out, b" ")?;
        push_sort(alloc, out, column.sort)?;
        rest = after;
    }
    push(out, b")")
}

/// Appends a value of a column.
fn push_value(out: &mut Vec<u8>, sort: Sort, field: &Text) -> Result<(), Memory>
    ensures { OnOk result (out.new.items ≡ out.old.items ++ value_text sort field.now) }
{
    let bytes = field.as_str().as_bytes();
    match sort {
        Sort::Number => push(out, bytes),
        Sort::Text(_) => push_quoted(out, bytes),
        Sort::Long => push_quoted(out, bytes),
    }
}

/// Appends the values of a row but its key, and the end of their list.
fn push_values(out: &mut Vec<u8>, columns: &[Column], fields: &[Text]) -> Result<(), Memory>
    ensures { OnOk result (out.new.items ≡ out.old.items ++ list_end (value_texts columns.now fields.now)) }
{
    let mut columns = columns;
    let mut fields = fields;
    'values: while let [column, others @ ..] = columns {
        let [field, after @ ..] = fields else {
            break;
        };
        push(out, b", ")?;
        push_value(out, column.sort, field)?;
        columns = others;
        fields = after;
    }
    push(out, b")")
}

/// Appends the type of the key, the other columns, and the end of their list.
fn push_types(alloc: Global, out: &mut Vec<u8>, columns: &[Column]) -> Result<(), Memory>
    ensures { OnOk result (out.new.items ≡ out.old.items ++ key_end columns.now) }
{
    push(out, b" NUMBER PRIMARY KEY")?;
    push_columns(alloc, out, columns)
}

/// The CREATE TABLE of a table.
fn create_text(alloc: Global, table: &Table) -> Result<Vec<u8>, Memory>
    ensures { IfOk result (λ text. text.items ≡ create_text table.now) }
{
    let mut out = Vec::new(alloc);
    push(&mut out, b"CREATE TABLE ")?;
    push(&mut out, table.name.as_str().as_bytes())?;
    push(&mut out, b" (")?;
    push(&mut out, table.key.as_str().as_bytes())?;
    push_types(alloc, &mut out, table.columns.as_slice())?;
    Ok(out)
}

/// The INSERT of a row.
fn insert_text(alloc: Global, name: &Name, columns: &[Column], row: &Row) -> Result<Vec<u8>, Memory>
    ensures { IfOk result (λ text. text.items ≡ insert_text name.now columns.now row.now) }
{
    let mut out = Vec::new(alloc);
    push(&mut out, b"INSERT INTO ")?;
    push(&mut out, name.as_str().as_bytes())?;
    push(&mut out, b" VALUES (")?;
    push(&mut out, row.key.as_str().as_bytes())?;
    push_values(&mut out, columns, row.values.as_slice())?;
    Ok(out)
}

/// Appends a statement, whose row begins on this line, and its end.
fn push_statement(out: &mut Vec<u8>, statement: &[u8], line: u64) -> Result<(), Refusal>
    ensures text { OnOk result (out.new.items ≡ out.old.items ++ ended statement.now) }
    ensures short { OnOk result (length statement.now ≤ statement_limit) }
    ensures cause { IfErr result (λ e. (e ≡ OutOfMemory) ⊎ ((e ≡ StatementTooLong line) × (statement_limit < length statement.now))) }
{
    if statement.len() > STATEMENT_LIMIT {
        return Err(Refusal::StatementTooLong { line });
    }
    push(out, statement)?;
    push(out, b";\n")?;
    Ok(())
}

/// Appends the INSERTs of rows.
fn push_inserts(
    alloc: Global,
    out: &mut Vec<u8>,
    name: &Name,
    columns: &[Column],
    rows: &[Row],
) -> Result<(), Refusal>
    ensures text { OnOk result (out.new.items ≡ out.old.items ++ inserts_text name.now columns.now rows.now) }
    ensures short { OnOk result (AllByRecursion (λ r. length (insert_text name.now columns.now r) ≤ statement_limit) rows.now) }
    ensures cause { IfErr result (λ e. HasOne (λ r. InsertFault name.now columns.now r e) rows.now) }
{
    let mut rest = rows;
    'rows: while let [row, after @ ..] = rest {
        let statement = insert_text(alloc, name, columns, row)?;
        push_statement(out, statement.as_slice(), row.line)?;
        rest = after;
    }
    Ok(())
}

/// The statements of a table with their ends.
fn script_text(alloc: Global, table: &Table) -> Result<Vec<u8>, Refusal>
    ensures text { IfOk result (λ script. script.items ≡ script_text table.now) }
    ensures create { OnOk result (length (create_text table.now) ≤ statement_limit) }
    ensures inserts { OnOk result (AllByRecursion (λ r. length (insert_text table.now.name table.now.columns r) ≤ statement_limit) table.now.rows) }
    ensures cause { IfErr result (λ e. StatementFault table.now e) }
{
    let mut out = Vec::new(alloc);
    let statement = create_text(alloc, table)?;
    push_statement(&mut out, statement.as_slice(), 1)?;
    let columns = table.columns.as_slice();
    let rows = table.rows.as_slice();
    push_inserts(alloc, &mut out, &table.name, columns, rows)?;
    Ok(out)
}

/// The script of a table: one CREATE TABLE, and one INSERT for each row. Its cost is the length of the script.
pub fn script(alloc: Global, table: &Table) -> Result<Vec<u8>, Refusal>
    requires { IsWritable table.now }
    ensures script { IfOk result (λ script. IsScriptOf script.items (statements table.now)) }
    ensures cause { IfErr result (λ e. StatementFault table.now e) }
{
    script_is_read();
    let script = script_text(alloc, table)?;
    Ok(script)
}
