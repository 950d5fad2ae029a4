//! Entries of indexes over a keeper in memory.

ghost use Rattle.std.specs.Prelude.{true, IfOk};
ghost use Rattle.ct_keep.specs.Changes.{AnyEntry, AreWell};

use ct_base::{Memory, Name};
use ct_entry::{Kind, put_entry};
use ct_keep::{Batch, KeepFault, Keeper, MemKeeper};
use db_names::{IndexHead, IndexKind, index_of, index_on, indexes_of};
use std::alloc::Global;
use std::test::Fail;
use tb_table::Target;
use test_keepers::named;

/// Names and the entries that they have. The last four spell no head: an unknown kind, no column, a table that is no name,
/// and a length with more bytes than it needs.
const ENTRIES: &[(&str, &[u8])] = &[
    (
        "docs_idx",
        b"\x01\x04docs\x01\0\0\0\x02\0\0\0\0\0\0\x01\0\0\0",
    ),
    ("docs_cat", b"\x02\x04docs\x02"),
    ("z", b"\x01\x04docs\x02rest"),
    ("r", b"\x03\x05rules\x01\0"),
    ("kind4", b"\x04\x04docs\x01"),
    ("short", b"\x01\x04docs"),
    ("upper", b"\x01\x04Docs\x01"),
    ("long", b"\x01\x84\0docs\x01"),
];

/// Tables, columns and kinds to look for.
const TARGETS: &[(&str, u8, IndexKind)] = &[
    ("docs", 1, IndexKind::Context),
    ("docs", 2, IndexKind::Context),
    ("docs", 2, IndexKind::Catalogue),
    ("docs", 1, IndexKind::Catalogue),
    ("rules", 1, IndexKind::Rules),
    ("rules", 2, IndexKind::Rules),
    ("doc", 1, IndexKind::Context),
];

/// The change that an index has this entry, if it isn't too long.
fn change_of(alloc: Global, index: &Name, value: &[u8]) -> Result<Batch, Memory>
    ensures { IfOk result (AreWell AnyEntry) }
{
    let name = index.as_str();
    if name.len() > 30 || value.len() > 1000 {
        return Err(Memory);
    }
    let mut batch = Batch::new(alloc);
    let value = Vec::from_slice(alloc, value)?;
    put_entry(alloc, &mut batch, Kind::Indexes, index, &[], value)?;
    Ok(batch)
}

fn put_raw(
    alloc: Global,
    keeper: &mut MemKeeper,
    index: &str,
    value: &[u8],
) -> Result<(), KeepFault> {
    let index = named(alloc, index)?;
    let batch = change_of(alloc, &index, value)?;
    keeper.commit(alloc, batch)
}

/// A keeper that has the entries.
fn kept(alloc: Global) -> Result<MemKeeper, KeepFault> {
    let mut keeper = MemKeeper::new(alloc, Vec::new(alloc), 100_000, 0)?;
    for (index, value) in ENTRIES {
        put_raw(alloc, &mut keeper, index, value)?;
    }
    Ok(keeper)
}

fn say(line: &mut String, text: &str) -> Result<(), Memory> {
    line.push_str(text)?;
    Ok(())
}

fn say_head(alloc: Global, line: &mut String, head: &IndexHead) -> Result<(), Memory> {
    let kind = head.kind;
    let column = head.target.column;
    let text = format!(in alloc; " {kind:?} {column} ")?;
    say(line, text.as_str())?;
    say(line, head.target.table.as_str())
}

/// Says the head of the index with this name.
fn say_index(
    alloc: Global,
    line: &mut String,
    keeper: &mut MemKeeper,
    index: &str,
) -> Result<(), KeepFault> {
    let index = named(alloc, index)?;
    match index_of(alloc, keeper, &index)? {
        Some(head) => say_head(alloc, line, &head)?,
        None => say(line, " none")?,
    }
    say(line, ",")?;
    Ok(())
}

/// Says the name of the index of this kind on this column.
fn say_on(
    alloc: Global,
    line: &mut String,
    keeper: &mut MemKeeper,
    target: &Target,
    kind: IndexKind,
) -> Result<(), KeepFault> {
    match index_on(alloc, keeper, target, kind)? {
        Some(index) => say(line, index.as_str())?,
        None => say(line, "none")?,
    }
    say(line, " ")?;
    Ok(())
}

/// Says the indexes on a table.
fn say_table(
    alloc: Global,
    line: &mut String,
    keeper: &mut MemKeeper,
    table: &str,
) -> Result<(), KeepFault> {
    let table = named(alloc, table)?;
    let found = indexes_of(alloc, keeper, &table)?;
    for (index, head) in &found {
        say(line, index.as_str())?;
        say_head(alloc, line, head)?;
        say(line, ",")?;
    }
    say(line, ";")?;
    Ok(())
}

fn by_name(alloc: Global, line: &mut String) -> Result<(), KeepFault> {
    let mut keeper = kept(alloc)?;
    for (index, _) in ENTRIES {
        say_index(alloc, line, &mut keeper, index)?;
    }
    say_index(alloc, line, &mut keeper, "docs")
}

fn by_target(alloc: Global, line: &mut String) -> Result<(), KeepFault> {
    let mut keeper = kept(alloc)?;
    for (table, column, kind) in TARGETS {
        let table = named(alloc, table)?;
        let target = Target {
            table,
            column: *column,
        };
        say_on(alloc, line, &mut keeper, &target, *kind)?;
    }
    Ok(())
}

fn by_table(alloc: Global, line: &mut String) -> Result<(), KeepFault> {
    let mut keeper = kept(alloc)?;
    for table in ["docs", "rules", "doc"] {
        say_table(alloc, line, &mut keeper, table)?;
    }
    Ok(())
}

/// How indexes are looked up.
#[derive(Clone, Copy, Debug)]
enum By {
    Name,
    Target,
    Table,
}

fn look_ups(alloc: Global, by: By) -> Result<String, KeepFault> {
    let mut line = String::new(alloc);
    match by {
        By::Name => by_name(alloc, &mut line)?,
        By::Target => by_target(alloc, &mut line)?,
        By::Table => by_table(alloc, &mut line)?,
    }
    Ok(line)
}

const LOOK_UPS: &[(By, &str)] = &[
    (
        By::Name,
        " Context 1 docs, Catalogue 2 docs, Context 2 docs, Rules 1 rules, none, none, none, none, none,",
    ),
    (By::Target, "docs_idx z docs_cat none r none none "),
    (
        By::Table,
        "z Context 2 docs,docs_cat Catalogue 2 docs,docs_idx Context 1 docs,;r Rules 1 rules,;;",
    ),
];

#[test]
fn indexes_by_name_target_and_table(rt: HostRuntime) -> Result<(), Fail> {
    for (by, line) in LOOK_UPS {
        let found = look_ups(rt.alloc(), *by)?;
        assert_eq!(rt; found.as_str(), *line, "{by:?}");
    }
    Ok(())
}
