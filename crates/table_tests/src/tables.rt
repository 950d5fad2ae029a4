//! A table in a keeper in memory.

ghost use Rattle.std.specs.Prelude.{IfOk, ◌≤◌, length};
ghost use Rattle.tb_table.specs.Shapes.{HaveShortTexts};

use ct_base::{Memory, Name, RowKey, Text};
use ct_bytes::row_key_bytes;
use ct_entry::{Kind, fetch_entry, put_entry};
use ct_keep::{Batch, KeepFault, MemKeeper};
use std::alloc::Global;
use std::test::Fail;
use tb_table::{
    Column, Sort, columns_of, create, delete, has_row, insert, is_table_shape, next_row,
    number_row, remove, row_count, tables, text_of, update,
};
use test_keepers::{commit, named, new_keeper, one_text};

/// Entries of a table. All but the last spell no columns: too short, too long, too few, an unknown sort, a size where none belongs, a
/// name that is none, and a count with more bytes than it needs.
const ENTRIES: &[&[u8]] = &[
    b"",
    b"\x01\x02id\x01\0",
    b"\x01\x02id\x01\0\0\0",
    b"\x02\x02id\x01\0\0",
    b"\x01\x02id\x00\0\0",
    b"\x01\x02id\x04\0\0",
    b"\x01\x02id\x01\0\x01",
    b"\x01\x02Id\x01\0\0",
    b"\x81\x00\x02id\x01\0\0",
    b"\x01\x02id\x01\0\0",
];

fn add_column(
    alloc: Global,
    columns: &mut Vec<Column>,
    name: &str,
    sort: Sort,
) -> Result<(), Memory> {
    let name = named(alloc, name)?;
    columns.push(Column { name, sort })?;
    Ok(())
}

fn four_columns(alloc: Global) -> Result<Vec<Column>, Memory> {
    let mut columns = Vec::new(alloc);
    add_column(alloc, &mut columns, "id", Sort::Number)?;
    add_column(alloc, &mut columns, "title", Sort::Varchar2(300))?;
    add_column(alloc, &mut columns, "price", Sort::Number)?;
    add_column(alloc, &mut columns, "body", Sort::Clob)?;
    Ok(columns)
}

/// Makes a table of four columns.
fn make_table(alloc: Global, keeper: &mut MemKeeper, table: &str) -> Result<(), KeepFault> {
    let table = named(alloc, table)?;
    let columns = four_columns(alloc)?;
    if columns.len() > 16 {
        return Err(KeepFault::Full);
    }
    let mut batch = Batch::new(alloc);
    create(alloc, &mut batch, &table, &columns)?;
    commit(alloc, keeper, batch)
}

fn two_texts(alloc: Global, title: &str) -> Result<Vec<(u8, Text)>, Memory>
    requires { length title.now ≤ 100 }
    ensures { IfOk result (λ texts. HaveShortTexts texts.items) }
{
    let mut texts = Vec::new(alloc);
    texts.push((1, Text::of(alloc, title)?))?;
    texts.push((3, Text::of(alloc, "a body")?))?;
    Ok(texts)
}

/// Puts a row into that table.
fn add_row(
    alloc: Global,
    keeper: &mut MemKeeper,
    table: &Name,
    row: i64,
    title: &str,
) -> Result<(), KeepFault>
    requires { length title.now ≤ 100 }
{
    let texts = two_texts(alloc, title)?;
    let mut batch = Batch::new(alloc);
    insert(alloc, &mut batch, table, RowKey(row), &[-1], texts)?;
    commit(alloc, keeper, batch)
}

/// Puts another number and another title into a row of that table.
fn change_row(
    alloc: Global,
    keeper: &mut MemKeeper,
    table: &Name,
    row: i64,
    number: i64,
    title: &str,
) -> Result<(), KeepFault>
    requires { length title.now ≤ 100 }
{
    let texts = one_text(alloc, title)?;
    let mut batch = Batch::new(alloc);
    update(alloc, &mut batch, table, RowKey(row), &[number], texts)?;
    commit(alloc, keeper, batch)
}

/// Takes a row out of that table.
fn drop_row(
    alloc: Global,
    keeper: &mut MemKeeper,
    table: &Name,
    row: i64,
) -> Result<(), KeepFault> {
    let columns = four_columns(alloc)?;
    if columns.len() > 16 {
        return Err(KeepFault::Full);
    }
    let mut batch = Batch::new(alloc);
    delete(alloc, &mut batch, table, &columns, RowKey(row))?;
    commit(alloc, keeper, batch)
}

/// Takes a table away: how many changes that takes.
fn drop_table(alloc: Global, keeper: &mut MemKeeper, table: &Name) -> Result<u64, KeepFault> {
    let mut batch = Batch::new(alloc);
    remove(alloc, keeper, &mut batch, table)?;
    let count = batch.changes().len() as u64;
    commit(alloc, keeper, batch)?;
    Ok(count)
}

/// Puts an entry as it is.
fn put_raw(
    alloc: Global,
    keeper: &mut MemKeeper,
    kind: Kind,
    owner: &Name,
    part: &[u8],
    value: &[u8],
) -> Result<(), KeepFault> {
    let mut batch = Batch::new(alloc);
    let value = Vec::from_slice(alloc, value).map_err(Memory::from)?;
    put_entry(alloc, &mut batch, kind, owner, part, value)?;
    commit(alloc, keeper, batch)
}

fn say(line: &mut String, text: &str) -> Result<(), Memory> {
    line.push_str(text)?;
    Ok(())
}

fn say_column(alloc: Global, line: &mut String, column: &Column) -> Result<(), Memory> {
    let sort = column.sort;
    let text = format!(in alloc; ":{sort:?} ")?;
    say(line, column.name.as_str())?;
    say(line, text.as_str())
}

/// Says the columns of a table.
fn say_columns(
    alloc: Global,
    line: &mut String,
    keeper: &mut MemKeeper,
    table: &Name,
) -> Result<(), KeepFault> {
    let Some(columns) = columns_of(alloc, keeper, table)? else {
        say(line, "none ")?;
        return Ok(());
    };
    for column in columns.iter() {
        say_column(alloc, line, column)?;
    }
    Ok(())
}

fn say_numbers(alloc: Global, line: &mut String, numbers: &Option<Vec<i64>>) -> Result<(), Memory> {
    let text = format!(in alloc; "{numbers:?} ")?;
    say(line, text.as_str())
}

fn say_text(alloc: Global, line: &mut String, column: u8, text: &Text) -> Result<(), Memory> {
    let column = format!(in alloc; "{column}=")?;
    say(line, column.as_str())?;
    say(line, text.as_str())?;
    say(line, " ")
}

/// Says the numbers and the texts of a row.
fn say_row(
    alloc: Global,
    line: &mut String,
    keeper: &mut MemKeeper,
    table: &Name,
    row: i64,
) -> Result<(), KeepFault> {
    let numbers = number_row(alloc, keeper, table, RowKey(row))?;
    say_numbers(alloc, line, &numbers)?;
    for column in 0..5u8 {
        if let Some(text) = text_of(alloc, keeper, table, column, RowKey(row))? {
            say_text(alloc, line, column, &text)?;
        }
    }
    Ok(())
}

/// Says the key of the next row, and whether the table has a row of the key before it.
fn say_next(
    alloc: Global,
    line: &mut String,
    keeper: &mut MemKeeper,
    table: &Name,
    after: i64,
) -> Result<(), KeepFault> {
    let there = has_row(alloc, keeper, table, RowKey(after))?;
    say(line, if there { "there " } else { "gone " })?;
    let next = next_row(alloc, keeper, table, Some(RowKey(after)))?;
    let keys = match next {
        None => None,
        Some(key) => Some(Vec::from_slice(alloc, &[key.0]).map_err(Memory::from)?),
    };
    say_numbers(alloc, line, &keys)?;
    Ok(())
}

fn say_tables(alloc: Global, line: &mut String, keeper: &mut MemKeeper) -> Result<(), KeepFault> {
    let names = tables(alloc, keeper)?;
    for name in names.iter() {
        say(line, name.as_str())?;
        say(line, " ")?;
    }
    Ok(())
}

fn say_number(alloc: Global, line: &mut String, number: u64) -> Result<(), Memory> {
    let text = format!(in alloc; "{number} ")?;
    say(line, text.as_str())
}

/// Says how many rows a table has.
fn say_count(
    alloc: Global,
    line: &mut String,
    keeper: &MemKeeper,
    table: &Name,
) -> Result<(), KeepFault> {
    let count = row_count(alloc, keeper, table)?;
    say_number(alloc, line, count)?;
    Ok(())
}

/// How many rows a table has as rows come.
fn counted_inserts(
    alloc: Global,
    line: &mut String,
    keeper: &mut MemKeeper,
    table: &Name,
) -> Result<(), KeepFault> {
    say_count(alloc, line, keeper, table)?;
    for row in [7, -2, 9_223_372_036_854_775_807, 7] {
        add_row(alloc, keeper, table, row, "a title")?;
        say_count(alloc, line, keeper, table)?;
    }
    Ok(())
}

/// The same of two tables, where a row of the second comes last.
fn counted_both(
    alloc: Global,
    line: &mut String,
    keeper: &mut MemKeeper,
    docs: &Name,
    others: &Name,
) -> Result<(), KeepFault> {
    counted_inserts(alloc, line, keeper, docs)?;
    add_row(alloc, keeper, others, 1, "")?;
    say_count(alloc, line, keeper, docs)?;
    say_count(alloc, line, keeper, others)
}

/// How many rows two tables have as rows come.
fn counted_rows(alloc: Global, line: &mut String) -> Result<(), KeepFault> {
    let mut keeper = new_keeper(alloc)?;
    let docs = named(alloc, "docs")?;
    let others = named(alloc, "doc")?;
    counted_both(alloc, line, &mut keeper, &docs, &others)
}

/// A keeper that has the table `docs` with two rows.
fn with_two_rows(alloc: Global, docs: &Name) -> Result<MemKeeper, KeepFault> {
    let mut keeper = new_keeper(alloc)?;
    make_table(alloc, &mut keeper, "docs")?;
    add_row(alloc, &mut keeper, docs, 7, "Seven")?;
    add_row(alloc, &mut keeper, docs, -2, "")?;
    Ok(keeper)
}

/// Says the columns and the rows of a table, and which row comes after some keys.
fn say_table(
    alloc: Global,
    line: &mut String,
    keeper: &mut MemKeeper,
    table: &Name,
) -> Result<(), KeepFault> {
    say_columns(alloc, line, keeper, table)?;
    for row in [7, -2, 8] {
        say_row(alloc, line, keeper, table, row)?;
    }
    for row in [-3, -2, 7] {
        say_next(alloc, line, keeper, table, row)?;
    }
    Ok(())
}

/// What is read of a table with two rows.
fn two_rows(alloc: Global, line: &mut String) -> Result<(), KeepFault> {
    let docs = named(alloc, "docs")?;
    let mut keeper = with_two_rows(alloc, &docs)?;
    say_table(alloc, line, &mut keeper, &docs)
}

/// The names of four tables.
fn four_tables(alloc: Global, line: &mut String) -> Result<(), KeepFault> {
    let mut keeper = new_keeper(alloc)?;
    for name in ["zz", "docs", "a", "b1"] {
        make_table(alloc, &mut keeper, name)?;
    }
    say_tables(alloc, line, &mut keeper)
}

/// A row of one table and two of another.
fn three_rows(alloc: Global, docs: &Name, others: &Name) -> Result<MemKeeper, KeepFault> {
    let mut keeper = with_two_rows(alloc, docs)?;
    make_table(alloc, &mut keeper, "doc")?;
    add_row(alloc, &mut keeper, others, 7, "Other")?;
    Ok(keeper)
}

/// What is read of a row with new values, and of what is left where it is gone.
fn changed_row(
    alloc: Global,
    line: &mut String,
    keeper: &mut MemKeeper,
    docs: &Name,
) -> Result<(), KeepFault> {
    change_row(alloc, keeper, docs, 7, 5, "New")?;
    say_row(alloc, line, keeper, docs, 7)?;
    drop_row(alloc, keeper, docs, 7)?;
    say_row(alloc, line, keeper, docs, 7)?;
    say_row(alloc, line, keeper, docs, -2)?;
    say_count(alloc, line, keeper, docs)
}

/// How many changes it takes to take a table away, and what is left then.
fn dropped_table(
    alloc: Global,
    line: &mut String,
    keeper: &mut MemKeeper,
    docs: &Name,
    others: &Name,
) -> Result<(), KeepFault> {
    let count = drop_table(alloc, keeper, docs)?;
    say_number(alloc, line, count)?;
    say_tables(alloc, line, keeper)?;
    say_row(alloc, line, keeper, docs, -2)?;
    say_row(alloc, line, keeper, others, 7)
}

/// What is read where a row changes and goes, and then its table goes.
fn changed_rows(alloc: Global, line: &mut String) -> Result<(), KeepFault> {
    let docs = named(alloc, "docs")?;
    let others = named(alloc, "doc")?;
    let mut keeper = three_rows(alloc, &docs, &others)?;
    changed_row(alloc, line, &mut keeper, &docs)?;
    dropped_table(alloc, line, &mut keeper, &docs, &others)
}

/// The columns that are read of each of the entries.
fn spoilt_columns(alloc: Global, line: &mut String) -> Result<(), KeepFault> {
    let mut keeper = new_keeper(alloc)?;
    let docs = named(alloc, "docs")?;
    for bytes in ENTRIES {
        put_raw(alloc, &mut keeper, Kind::Tables, &docs, &[], bytes)?;
        say_columns(alloc, line, &mut keeper, &docs)?;
    }
    Ok(())
}

/// Puts entries that spell no numbers and no text, and a text past ASCII.
fn put_spoilt(alloc: Global, keeper: &mut MemKeeper, docs: &Name) -> Result<(), KeepFault> {
    let part = row_key_bytes(RowKey(1));
    put_raw(alloc, keeper, Kind::RowNumbers, docs, &part, b"1234567")?;
    let part = b"\x01\x80\0\0\0\0\0\0\x01";
    put_raw(alloc, keeper, Kind::RowTexts, docs, part, b"\xff")?;
    let part = b"\x02\x80\0\0\0\0\0\0\x01";
    put_raw(alloc, keeper, Kind::RowTexts, docs, part, b"\xc3\xa9")
}

/// What is read of a row of such entries.
fn spoilt_row(alloc: Global, line: &mut String) -> Result<(), KeepFault> {
    let mut keeper = new_keeper(alloc)?;
    let docs = named(alloc, "docs")?;
    put_spoilt(alloc, &mut keeper, &docs)?;
    say_row(alloc, line, &mut keeper, &docs, 1)
}

/// The entry of a table of four columns.
fn table_entry(alloc: Global) -> Result<Option<Vec<u8>>, KeepFault> {
    let mut keeper = new_keeper(alloc)?;
    make_table(alloc, &mut keeper, "docs")?;
    let docs = named(alloc, "docs")?;
    fetch_entry(alloc, &mut keeper, Kind::Tables, &docs, &[])
}

/// What is done with tables.
#[derive(Clone, Copy, Debug)]
enum Case {
    /// A table is read as it was written.
    TwoRows,
    /// Tables are listed in order.
    FourTables,
    /// Entries that spell no columns are none.
    SpoiltColumns,
    SpoiltRow,
    CountedRows,
    /// Rows and tables go.
    ChangedRows,
}

fn case_line(alloc: Global, case: Case) -> Result<String, KeepFault> {
    let mut line = String::new(alloc);
    match case {
        Case::TwoRows => two_rows(alloc, &mut line)?,
        Case::FourTables => four_tables(alloc, &mut line)?,
        Case::SpoiltColumns => spoilt_columns(alloc, &mut line)?,
        Case::SpoiltRow => spoilt_row(alloc, &mut line)?,
        Case::CountedRows => counted_rows(alloc, &mut line)?,
        Case::ChangedRows => changed_rows(alloc, &mut line)?,
    }
    Ok(line)
}

const CASES: &[(Case, &str)] = &[
    (
        Case::TwoRows,
        "id:Number title:Varchar2(300) price:Number body:Clob Some([-1]) 1=Seven 3=a body Some([-1]) 1= 3=a body None gone Some([-2]) there Some([7]) there None ",
    ),
    (Case::FourTables, "a b1 docs zz "),
    (
        Case::SpoiltColumns,
        "none none none none none none none none none id:Number ",
    ),
    (Case::SpoiltRow, "None 2=é "),
    (Case::CountedRows, "0 1 2 3 3 3 1 "),
    (
        Case::ChangedRows,
        "Some([5]) 1=New 3=a body None Some([-1]) 1= 3=a body 1 4 doc None Some([-1]) 1=Other 3=a body ",
    ),
];

#[test]
fn tables_and_rows_are_as_they_were_made(rt: HostRuntime) -> Result<(), Fail> {
    for (case, line) in CASES {
        let found = case_line(rt.alloc(), *case)?;
        assert_eq!(rt; found.as_str(), *line, "{case:?}");
    }
    Ok(())
}

#[test]
fn columns_have_these_bytes(rt: HostRuntime) -> Result<(), Fail> {
    let bytes = table_entry(rt.alloc())?.unwrap_or(Vec::new(rt.alloc()));
    assert_eq!(rt;
        bytes.as_slice(),
        b"\x04\x02id\x01\0\0\x05title\x02\x01\x2c\x05price\x01\0\0\x04body\x03\0\0".as_slice()
    );
    Ok(())
}

/// An entry: its kind, the rest of its key, its value, and whether it is well shaped.
type Shape = (Kind, &'static [u8], &'static [u8], bool);

const SHAPES: &[Shape] = &[
    (Kind::Tables, b"", b"\x01\x02id\x01\0\0", true),
    (Kind::Tables, b"\0", b"\x01\x02id\x01\0\0", false),
    (Kind::Tables, b"", b"\x01\x02id\x01\0", false),
    (Kind::Tables, b"", b"\x00", true),
    (Kind::RowNumbers, b"12345678", b"", true),
    (Kind::RowNumbers, b"12345678", b"abcdefgh", true),
    (Kind::RowNumbers, b"12345678", b"abcdefg", false),
    (Kind::RowNumbers, b"123456789", b"", false),
    (Kind::RowTexts, b"\x0112345678", b"\xc3\xa9", true),
    (Kind::RowTexts, b"\x0112345678", b"\xc3", false),
    (Kind::RowTexts, b"12345678", b"fox", false),
    (Kind::Pending, b"12345678", b"", false),
];

#[test]
fn entries_are_well_shaped(rt: HostRuntime) -> Result<(), Fail> {
    for (kind, part, value, shaped) in SHAPES {
        assert!(rt;
            is_table_shape(rt.alloc(), *kind, part, value)? == *shaped,
            "{value:?}"
        );
    }
    Ok(())
}
