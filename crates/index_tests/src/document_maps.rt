//! The map and the queue in a keeper in memory.

use ct_base::{DocId, Memory, RowKey};
use ct_keep::{Batch, KeepFault, MemKeeper};
use ix_docmap::{is_pending, mark, number_of, pending, queue, row_of, unmark, unqueue};
use std::alloc::Global;
use std::test::Fail;
use test_keepers::{commit, named, new_keeper};

/// Of the index `di` the rows -12 and 7 are documents, and the rows 3 and -5 wait; of the index `dj` the row 7 is a document.
fn map_changes(alloc: Global) -> Result<Batch, Memory> {
    let index = named(alloc, "di")?;
    let other = named(alloc, "dj")?;
    let mut batch = Batch::new(alloc);
    mark(alloc, &mut batch, &index, RowKey(-12), DocId(300))?;
    mark(alloc, &mut batch, &index, RowKey(7), DocId(1))?;
    queue(alloc, &mut batch, &index, RowKey(3))?;
    queue(alloc, &mut batch, &index, RowKey(-5))?;
    mark(alloc, &mut batch, &other, RowKey(7), DocId(2))?;
    Ok(batch)
}

/// The row 7 of the index `di` goes, and the row 3 is taken out of its queue.
fn removals(alloc: Global) -> Result<Batch, Memory> {
    let index = named(alloc, "di")?;
    let mut batch = Batch::new(alloc);
    unmark(alloc, &mut batch, &index, RowKey(7), DocId(1))?;
    unqueue(alloc, &mut batch, &index, RowKey(3))?;
    Ok(batch)
}

/// A keeper with those documents, before those removals and after them.
fn mapped(alloc: Global, are_removed: bool) -> Result<MemKeeper, KeepFault> {
    let mut keeper = new_keeper(alloc)?;
    commit(alloc, &mut keeper, map_changes(alloc)?)?;
    if are_removed {
        commit(alloc, &mut keeper, removals(alloc)?)?;
    }
    Ok(keeper)
}

/// What is asked of an index.
#[derive(Clone, Copy, Debug)]
enum Asked {
    /// The document that a row is, or 0, and whether it waits.
    Row(i64),
    /// The row that a document is, or 0.
    Document(u32),
    /// The rows that wait.
    Waiting,
}

fn row_text(
    alloc: Global,
    keeper: &mut MemKeeper,
    index: &str,
    row: i64,
) -> Result<String, KeepFault> {
    let index = named(alloc, index)?;
    let document = number_of(alloc, keeper, &index, RowKey(row))?.map_or(0, |d| d.0);
    let waits = is_pending(alloc, keeper, &index, RowKey(row))?;
    Ok(format!(in alloc; "{document} {waits}").map_err(Memory::from)?)
}

fn document_text(
    alloc: Global,
    keeper: &mut MemKeeper,
    index: &str,
    document: u32,
) -> Result<String, KeepFault> {
    let index = named(alloc, index)?;
    let row = row_of(alloc, keeper, &index, DocId(document))?.map_or(0, |r| r.0);
    Ok(format!(in alloc; "{row}").map_err(Memory::from)?)
}

fn rows_text(alloc: Global, rows: &[RowKey]) -> Result<String, Memory> {
    let mut line = String::new(alloc);
    for RowKey(row) in rows {
        let text = format!(in alloc; "{row} ")?;
        line.push_str(text.as_str())?;
    }
    Ok(line)
}

fn waiting_text(alloc: Global, keeper: &mut MemKeeper, index: &str) -> Result<String, KeepFault> {
    let index = named(alloc, index)?;
    let rows = pending(alloc, keeper, &index)?;
    Ok(rows_text(alloc, &rows)?)
}

fn found(
    alloc: Global,
    keeper: &mut MemKeeper,
    index: &str,
    asked: Asked,
) -> Result<String, KeepFault> {
    match asked {
        Asked::Row(row) => row_text(alloc, keeper, index, row),
        Asked::Document(document) => document_text(alloc, keeper, index, document),
        Asked::Waiting => waiting_text(alloc, keeper, index),
    }
}

/// Whether it is asked after the removals, an index, what is asked of it, and the answer.
type Row = (bool, &'static str, Asked, &'static str);

const ROWS: &[Row] = &[
    // rows are documents, or wait
    (false, "di", Asked::Row(7), "1 false"),
    (false, "di", Asked::Row(-12), "300 false"),
    (false, "di", Asked::Row(3), "0 true"),
    (false, "di", Asked::Row(8), "0 false"),
    (false, "dj", Asked::Row(7), "2 false"),
    // documents are rows
    (false, "di", Asked::Document(1), "7"),
    (false, "di", Asked::Document(300), "-12"),
    (false, "di", Asked::Document(2), "0"),
    (false, "dj", Asked::Document(2), "7"),
    // rows wait in their order
    (false, "di", Asked::Waiting, "-5 3 "),
    (false, "dj", Asked::Waiting, ""),
    // a row goes from both sides
    (true, "di", Asked::Row(7), "0 false"),
    (true, "di", Asked::Document(1), "0"),
    (true, "di", Asked::Document(300), "-12"),
    (true, "dj", Asked::Row(7), "2 false"),
    // a row leaves the queue
    (true, "di", Asked::Waiting, "-5 "),
];

fn answer(alloc: Global, row: &Row) -> Result<String, KeepFault> {
    let (are_removed, index, asked, _) = *row;
    let mut keeper = mapped(alloc, are_removed)?;
    found(alloc, &mut keeper, index, asked)
}

#[test]
fn documents_and_rows_that_wait(rt: HostRuntime) -> Result<(), Fail> {
    for row in ROWS {
        let answer = answer(rt.alloc(), row)?;
        assert_eq!(rt; answer.as_str(), row.3, "{row:?}");
    }
    Ok(())
}
