//! Entries over a keeper in memory.

ghost use Rattle.std.specs.Prelude.{◌≤◌, length, true, IfOk, OnOk};
ghost use Rattle.ct_base.specs.Names.{IsName};
ghost use Rattle.ct_keep.specs.Changes.{AnyEntry, AreWell};
ghost use Rattle.ct_keep.specs.KeeperViews.{AcceptsChanges};

use ct_base::{Memory, Name, RowKey};
use ct_bytes::row_key_bytes;
use ct_entry::{
    Kind, entries_of, fetch_entry, has_entry, is_row_part, key_bytes, key_parts, next_row_key,
    owners, put_entry, remove_entries, remove_entry, row_keys,
};
use ct_keep::{Batch, KeepFault, Keeper, MemKeeper};
use std::alloc::Global;
use std::str::from_utf8;
use std::test::Fail;

/// A change: a kind, an owner, the row that the key ends in, if it ends in one, and the value, or None where the entry is to go.
type Change = (Kind, &'static str, Option<i64>, Option<&'static str>);

const CHANGES: &[Change] = &[
    (Kind::Tables, "zoo", None, Some("three")),
    (Kind::Tables, "docs", None, Some("four")),
    (Kind::Tables, "ab", None, Some("two")),
    (Kind::Tables, "gone", None, Some("none")),
    (Kind::Tables, "gone", None, None),
    (Kind::Preferences, "own", None, Some("other")),
    (Kind::RowNumbers, "docs", Some(5), Some("five")),
    (Kind::RowNumbers, "docs", Some(-3), Some("below")),
    (Kind::RowNumbers, "docs", Some(i64::MIN), Some("least")),
    (Kind::RowNumbers, "docs", Some(0), Some("zero")),
    (Kind::RowNumbers, "docs", Some(7), Some("gone")),
    (Kind::RowNumbers, "docs", Some(7), None),
    (Kind::RowNumbers, "doc", Some(1), Some("shorter")),
    (Kind::RowNumbers, "docss", Some(9), Some("longer")),
    (Kind::Pending, "docs", Some(2), Some("")),
];

fn named(alloc: Global, text: &str) -> Result<Name, Memory>
    ensures { IfOk result IsName }
{
    match Name::of_bytes(alloc, text.as_bytes())? {
        Some(name) => Ok(name),
        None => Err(Memory),
    }
}

fn part_of(alloc: Global, row: Option<i64>) -> Result<Vec<u8>, Memory>
    ensures { IfOk result (λ part. length part.items ≤ 8) }
{
    match row {
        Some(row) => Ok(Vec::from_slice(alloc, &row_key_bytes(RowKey(row)))?),
        None => Ok(Vec::new(alloc)),
    }
}

/// Adds a change, unless its value is too long.
fn add_change(alloc: Global, batch: &mut Batch, change: Change) -> Result<(), Memory>
    ensures { AreWell AnyEntry batch.old → OnOk result (AreWell AnyEntry batch.new) }
{
    let (kind, owner, row, value) = change;
    let owner = named(alloc, owner)?;
    let part = part_of(alloc, row)?;
    let Some(value) = value else {
        return remove_entry(alloc, batch, kind, &owner, &part);
    };
    if value.len() > 1000 {
        return Ok(());
    }
    let value = Vec::from_slice(alloc, value.as_bytes())?;
    put_entry(alloc, batch, kind, &owner, &part, value)
}

fn batch_of(alloc: Global, changes: &[Change]) -> Result<Batch, Memory>
    ensures { IfOk result (AreWell AnyEntry) }
{
    let mut batch = Batch::new(alloc);
    for change in changes {
        add_change(alloc, &mut batch, *change)?;
    }
    Ok(batch)
}

/// Commits the changes.
fn commit<K: Keeper>(alloc: Global, keeper: &mut K, changes: &[Change]) -> Result<(), KeepFault>
    requires { AcceptsChanges (K.view keeper.old) }
    ensures { OnOk result (AcceptsChanges (K.view keeper.new)) }
{
    let batch = batch_of(alloc, changes)?;
    keeper.commit(alloc, batch)
}

/// A keeper in memory that holds what the changes say.
fn kept(alloc: Global) -> Result<MemKeeper, KeepFault> {
    let mut keeper = MemKeeper::new(alloc, Vec::new(alloc), 100_000, 0)?;
    commit(alloc, &mut keeper, CHANGES)?;
    Ok(keeper)
}

/// A kind, an owner and a row, and the bytes of their key.
type KeyRow = (Kind, &'static str, Option<i64>, &'static [u8]);

const KEY_BYTES: &[KeyRow] = &[
    (
        Kind::RowNumbers,
        "t",
        Some(7),
        &[2, 1, b't', 0x80, 0, 0, 0, 0, 0, 0, 7],
    ),
    (Kind::RuleFaults, "t", None, &[0x2c, 1, b't']),
];

fn key_of(alloc: Global, kind: Kind, owner: &str, row: Option<i64>) -> Result<Vec<u8>, Memory> {
    let owner = named(alloc, owner)?;
    let part = part_of(alloc, row)?;
    key_bytes(alloc, kind, &owner, &part)
}

#[test]
fn the_bytes_of_keys(rt: HostRuntime) -> Result<(), Fail> {
    for (kind, owner, row, bytes) in KEY_BYTES {
        assert!(rt; key_of(rt.alloc(), *kind, owner, *row)?.as_slice() == *bytes);
    }
    Ok(())
}

/// Single entries: the value of each key, or None.
type Value = (Kind, &'static str, Option<i64>, Option<&'static str>);

const VALUES: &[Value] = &[
    (Kind::Tables, "docs", None, Some("four")),
    (Kind::Tables, "gone", None, None),
    (Kind::Tables, "own", None, None),
    (Kind::RowNumbers, "docs", Some(-3), Some("below")),
    (Kind::RowNumbers, "docs", Some(7), None),
    (Kind::RowNumbers, "doc", Some(1), Some("shorter")),
    (Kind::Pending, "docs", Some(2), Some("")),
    (Kind::Pending, "docs", Some(5), None),
];

fn is_same(found: Option<Vec<u8>>, value: Option<&str>) -> bool {
    match (&found, value) {
        (Some(found), Some(value)) => found.as_slice() == value.as_bytes(),
        (None, None) => true,
        _ => false,
    }
}

/// Whether the entry of a key is the one of the row, and is there exactly where the row has one.
fn is_found(alloc: Global, keeper: &mut MemKeeper, value: Value) -> Result<bool, KeepFault> {
    let owner = named(alloc, value.1)?;
    let part = part_of(alloc, value.2)?;
    let there = has_entry(alloc, keeper, value.0, &owner, &part)?;
    let found = fetch_entry(alloc, keeper, value.0, &owner, &part)?;
    Ok(there == value.3.is_some() && is_same(found, value.3))
}

/// The number of the first row whose entry is another one.
fn wrong_value(alloc: Global) -> Result<Option<usize>, KeepFault> {
    let mut keeper = kept(alloc)?;
    for (number, value) in VALUES.iter().enumerate() {
        if !is_found(alloc, &mut keeper, *value)? {
            return Ok(Some(number));
        }
    }
    Ok(None)
}

#[test]
fn single_entries(rt: HostRuntime) -> Result<(), Fail> {
    assert_eq!(rt; wrong_value(rt.alloc())?, None);
    Ok(())
}

/// Commits the removal of all of an owner's entries of a kind: how many there were.
fn remove_all(
    alloc: Global,
    keeper: &mut MemKeeper,
    kind: Kind,
    owner: &Name,
) -> Result<usize, KeepFault> {
    let mut batch = Batch::new(alloc);
    remove_entries(alloc, keeper, &mut batch, kind, owner)?;
    let count = batch.changes().len();
    keeper.commit(alloc, batch)?;
    Ok(count)
}

/// A call.
#[derive(Clone, Copy)]
enum Step {
    /// The rows of an owner.
    Rows,
    /// The row behind another one.
    Next(Option<i64>),
    /// How long the rests of the entries are that begin with a byte, and the values.
    Entries(u8),
    Owners,
    Has,
    /// How many entries go.
    Remove,
}

fn put_row(alloc: Global, line: &mut String, row: RowKey) -> Result<(), Memory> {
    let RowKey(row) = row;
    let text = format!(in alloc; "{row} ")?;
    line.push_str(text.as_str())?;
    Ok(())
}

fn rows_text(alloc: Global, rows: &[RowKey]) -> Result<String, Memory> {
    let mut line = String::new(alloc);
    for row in rows {
        put_row(alloc, &mut line, *row)?;
    }
    Ok(line)
}

fn entries_text(alloc: Global, entries: &[(Vec<u8>, Vec<u8>)]) -> Result<String, Memory> {
    let mut line = String::new(alloc);
    for (rest, value) in entries {
        let length = rest.len();
        let value = from_utf8(value).unwrap_or("no text");
        let text = format!(in alloc; "{length} {value} ")?;
        line.push_str(text.as_str())?;
    }
    Ok(line)
}

fn names_text(alloc: Global, names: &[Name]) -> Result<String, Memory> {
    let mut line = String::new(alloc);
    for name in names {
        line.push_str(name.as_str())?;
        line.push(' ')?;
    }
    Ok(line)
}

fn count_text(alloc: Global, count: usize) -> Result<String, Memory> {
    Ok(format!(in alloc; "{count}")?)
}

fn truth_text(alloc: Global, holds: bool) -> Result<String, Memory> {
    Ok(String::from_str(alloc, if holds { "yes" } else { "no" })?)
}

/// What a call gives.
fn step_text(
    alloc: Global,
    keeper: &mut MemKeeper,
    step: Step,
    kind: Kind,
    owner: &Name,
) -> Result<String, KeepFault> {
    let text = match step {
        Step::Rows => rows_text(alloc, &row_keys(alloc, keeper, kind, owner)?),
        Step::Next(after) => next_text(
            alloc,
            next_row_key(alloc, keeper, kind, owner, after.map(RowKey))?,
        ),
        Step::Entries(first) => entries_text(
            alloc,
            &entries_of(alloc, keeper, kind, owner, &[first])?,
        ),
        Step::Owners => names_text(alloc, &owners(alloc, keeper, kind)?),
        Step::Has => truth_text(alloc, has_entry(alloc, keeper, kind, owner, &[])?),
        Step::Remove => count_text(alloc, remove_all(alloc, keeper, kind, owner)?),
    };
    Ok(text?)
}

fn next_text(alloc: Global, next: Option<RowKey>) -> Result<String, Memory> {
    match next {
        Some(row) => rows_text(alloc, &[row]),
        None => rows_text(alloc, &[]),
    }
}

/// A call, the kind and the owner that it is made with, and what it gives.
type StepRow = (Step, Kind, &'static str, &'static str);

const STEPS: &[StepRow] = &[
    (
        Step::Rows,
        Kind::RowNumbers,
        "docs",
        "-9223372036854775808 -3 0 5 ",
    ),
    (Step::Rows, Kind::RowDocuments, "docs", ""),
    (
        Step::Next(None),
        Kind::RowNumbers,
        "docs",
        "-9223372036854775808 ",
    ),
    (Step::Next(Some(-4)), Kind::RowNumbers, "docs", "-3 "),
    (Step::Next(Some(-3)), Kind::RowNumbers, "docs", "0 "),
    (Step::Next(Some(5)), Kind::RowNumbers, "docs", ""),
    // as those of the rows from 0 on
    (
        Step::Entries(0x80),
        Kind::RowNumbers,
        "docs",
        "7 zero 7 five ",
    ),
    (Step::Owners, Kind::Tables, "any", "ab zoo docs "),
    // all entries of an owner go
    (Step::Remove, Kind::RowNumbers, "docs", "4"),
    (Step::Remove, Kind::RowNumbers, "docs", "0"),
    (Step::Rows, Kind::RowNumbers, "docs", ""),
    (Step::Rows, Kind::RowNumbers, "docss", "9 "),
    (Step::Has, Kind::Tables, "docs", "yes"),
    (Step::Remove, Kind::Tables, "docs", "1"),
    (Step::Has, Kind::Tables, "docs", "no"),
    (Step::Rows, Kind::Pending, "docs", "2 "),
];

fn is_step(alloc: Global, keeper: &mut MemKeeper, row: StepRow) -> Result<bool, KeepFault> {
    let (step, kind, owner, wanted) = row;
    let owner = named(alloc, owner)?;
    let found = step_text(alloc, keeper, step, kind, &owner)?;
    Ok(found.as_str() == wanted)
}

/// The number of the first step that gives something else.
fn wrong_step(alloc: Global) -> Result<Option<usize>, KeepFault> {
    let mut keeper = kept(alloc)?;
    for (number, row) in STEPS.iter().enumerate() {
        if !is_step(alloc, &mut keeper, *row)? {
            return Ok(Some(number));
        }
    }
    Ok(None)
}

#[test]
fn the_entries_of_an_owner_are_found_and_go(rt: HostRuntime) -> Result<(), Fail> {
    assert_eq!(rt; wrong_step(rt.alloc())?, None);
    Ok(())
}

/// Bytes of keys: the kind, the owner and the rest that they spell.
const KEYS: &[(&[u8], Kind, &[u8], &[u8])] = &[
    (b"\x01\x04docs", Kind::Tables, b"docs", b""),
    (b"\x03\x01t\x01\x80\0", Kind::RowTexts, b"t", b"\x01\x80\0"),
    (
        b"\x28\x02di\x00\x03fox",
        Kind::Catalogue,
        b"di",
        b"\x00\x03fox",
    ),
    (b"\x2c\x01tail", Kind::RuleFaults, b"t", b"ail"),
];

/// Bytes that spell no key: too few, kinds that there aren't, and owners that are no names.
const NO_KEYS: &[&[u8]] = &[
    b"",
    b"\x01",
    b"\x00\x01t",
    b"\x26\x01t",
    b"\x2d\x01t",
    b"\x01\x00t",
    b"\x01\x02t",
    b"\x01\x01T",
    b"\x01\x01\xff",
];

fn has_parts(
    alloc: Global,
    bytes: &[u8],
    kind: Kind,
    owner: &[u8],
    part: &[u8],
) -> Result<bool, Memory> {
    match key_parts(alloc, bytes)? {
        Some(found) => Ok(found.0 == kind && found.1 == owner && found.2 == part),
        None => Ok(false),
    }
}

#[test]
fn the_parts_of_keys(rt: HostRuntime) -> Result<(), Fail> {
    for (bytes, kind, owner, part) in KEYS {
        assert!(rt;
            has_parts(rt.alloc(), bytes, *kind, owner, part)?,
            "{bytes:?}"
        );
    }
    Ok(())
}

#[test]
fn bytes_that_spell_no_key(rt: HostRuntime) -> Result<(), Fail> {
    for bytes in NO_KEYS {
        assert!(rt; key_parts(rt.alloc(), bytes)?.is_none(), "{bytes:?}");
    }
    Ok(())
}

#[test]
fn the_rests_of_rows(rt: HostRuntime) {
    let found = [
        is_row_part(b"12345678"),
        is_row_part(b"1234567"),
        is_row_part(b"123456789"),
    ];
    assert!(rt; found == [true, false, false]);
}
