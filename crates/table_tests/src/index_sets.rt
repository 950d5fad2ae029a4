//! Index sets in a keeper in memory, and the columns that a text tells.

use crate::stored_preferences::say;
use ct_base::{Memory, Name};
use ct_keep::{Batch, KeepFault, MemKeeper};
use std::alloc::Global;
use std::test::Fail;
use tx_prefs::{index_set, set_changes};
use tx_sets::{SubIndex, are_sub_indexes, read_columns, read_set};

/// The change by which the index set has the sub-indexes that the bytes spell, if there are as many as there may be.
pub(crate) fn set_change(
    alloc: Global,
    name: &Name,
    bytes: &[u8],
) -> Result<Option<Batch>, Memory> {
    let Some((set, _)) = read_set(alloc, bytes, 0)? else {
        return Ok(None);
    };
    if !are_sub_indexes(&set) {
        return Ok(None);
    }
    Ok(Some(set_changes(alloc, name, &set)?))
}

fn say_columns(line: &mut String, columns: &[Name]) -> Result<(), Memory> {
    for column in columns {
        say(line, column.as_str())?;
    }
    Ok(())
}

fn say_sub_indexes(line: &mut String, set: &[SubIndex]) -> Result<(), Memory> {
    for columns in set {
        say_columns(line, columns.as_slice())?;
        say(line, "/")?;
    }
    Ok(())
}

/// Says the columns of each sub-index of an index set, if there is one of the name.
pub(crate) fn say_set(
    alloc: Global,
    line: &mut String,
    keeper: &mut MemKeeper,
    name: &Name,
) -> Result<(), KeepFault> {
    if let Some(set) = index_set(alloc, keeper, name)? {
        say_sub_indexes(line, &set)?;
    }
    Ok(())
}

/// The columns that a text tells, or `none`.
fn columns_line(alloc: Global, text: &str) -> Result<String, Memory> {
    let mut line = String::new(alloc);
    match read_columns(alloc, text)? {
        Some(columns) => say_columns(&mut line, &columns)?,
        None => say(&mut line, "none")?,
    }
    Ok(line)
}

/// Texts, and the columns that they tell.
const LINES: &[(&str, &str)] = &[
    ("price", "price "),
    ("\u{3000}Kind,PRICE\u{85},\n id", "kind price id "),
    ("id,id,id,id", "id id id id "),
    ("", "none "),
    ("price,", "none "),
    ("price\u{200b}", "none "),
    ("kind price", "none "),
];

#[test]
fn columns(rt: HostRuntime) -> Result<(), Fail> {
    for (text, line) in LINES {
        let found = columns_line(rt.alloc(), text)?;
        assert_eq!(rt; found.as_str(), *line, "of {text:?}");
    }
    Ok(())
}
