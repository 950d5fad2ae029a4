//! Indexes in a keeper in memory.

ghost use Rattle.std.specs.Prelude.{◌≡◌, ◌≤◌, length, true, IfOk};
ghost use Rattle.tx_settings.specs.Attributes.{can_be_set};

use ct_base::{DocId, Memory, Name, RowKey, Text};
use ct_entry::Kind;
use ct_keep::{Batch, KeepFault, MemKeeper};
use ix_context::{
    ContextFault, KeyRange, create, is_context_shape, note_delete, note_insert, note_update,
    prefs_of, sync,
};
use ix_docmap::{pending, row_of};
use std::alloc::Global;
use std::test::Fail;
use std::thread::Threads;
use tb_table::{Target, insert};
use test_keepers::{commit, named, new_keeper, one_text};
use tx_settings::Prefs;
use tx_tags::{Group, Section, SectionKind, Tags};

/// How many threads may be at work on an index.
const DEGREE: u32 = 2;

/// The fault of a keeper that a fault of an index stands for.
fn keep_fault(fault: ContextFault) -> KeepFault {
    match fault {
        ContextFault::Memory => KeepFault::Memory,
        ContextFault::Disk => KeepFault::Disk,
        ContextFault::TooMany => KeepFault::Full,
    }
}

/// Puts a row with one text into a table.
fn add_row(alloc: Global, keeper: &mut MemKeeper, row: i64, text: &str) -> Result<(), KeepFault>
    requires { length text.now ≤ 100 }
{
    let table = named(alloc, "docs")?;
    let texts = one_text(alloc, text)?;
    let mut batch = Batch::new(alloc);
    insert(alloc, &mut batch, &table, RowKey(row), &[], texts)?;
    commit(alloc, keeper, batch)
}

/// Makes an index with these preferences on the texts of that table.
fn add_index<R: Threads + Sync>(
    rt: &R,
    alloc: Global,
    keeper: &mut MemKeeper,
    index: &Name,
    prefs: &Prefs,
    range: KeyRange,
) -> Result<(), KeepFault>
    requires { can_be_set prefs.now.lexer ≡ true }
{
    let table = named(alloc, "docs")?;
    let target = Target { table, column: 1 };
    let mut batch = Batch::new(alloc);
    create(
        rt, alloc, DEGREE, keeper, &mut batch, index, &target, prefs, range,
    )
    .map_err(keep_fault)?;
    commit(alloc, keeper, batch)
}

/// Lets a row wait.
fn add_note(
    alloc: Global,
    keeper: &mut MemKeeper,
    index: &Name,
    row: i64,
) -> Result<(), KeepFault> {
    let mut batch = Batch::new(alloc);
    note_insert(alloc, &mut batch, index, RowKey(row)).map_err(keep_fault)?;
    commit(alloc, keeper, batch)
}

/// Lets a row go from the index, and counts the changes that this took.
fn lose(alloc: Global, keeper: &mut MemKeeper, index: &Name, row: i64) -> Result<usize, KeepFault> {
    let mut batch = Batch::new(alloc);
    note_delete(alloc, keeper, &mut batch, index, RowKey(row)).map_err(keep_fault)?;
    let count = batch.changes().len();
    commit(alloc, keeper, batch)?;
    Ok(count)
}

/// Gives a row another text, and counts the changes of the index that this took.
fn rewrite(
    alloc: Global,
    keeper: &mut MemKeeper,
    index: &Name,
    row: i64,
    text: &str,
) -> Result<usize, KeepFault>
    requires { length text.now ≤ 100 }
{
    add_row(alloc, keeper, row, text)?;
    let mut batch = Batch::new(alloc);
    note_update(alloc, keeper, &mut batch, index, RowKey(row)).map_err(keep_fault)?;
    let count = batch.changes().len();
    commit(alloc, keeper, batch)?;
    Ok(count)
}

/// Synchronises an index, and counts the changes that this took.
fn settle<R: Threads + Sync>(
    rt: &R,
    alloc: Global,
    keeper: &mut MemKeeper,
    index: &Name,
) -> Result<usize, KeepFault> {
    let mut batch = Batch::new(alloc);
    sync(rt, alloc, DEGREE, keeper, &mut batch, index).map_err(keep_fault)?;
    let count = batch.changes().len();
    commit(alloc, keeper, batch)?;
    Ok(count)
}

fn put_pair(alloc: Global, line: &mut String, document: u32, row: i64) -> Result<(), Memory> {
    let text = format!(in alloc; "{document}:{row} ")?;
    line.push_str(text.as_str())?;
    Ok(())
}

/// Puts the row that is this document of an index, if there is one.
fn put_document(
    alloc: Global,
    keeper: &mut MemKeeper,
    index: &Name,
    line: &mut String,
    document: u32,
) -> Result<(), KeepFault> {
    if let Some(RowKey(row)) = row_of(alloc, keeper, index, DocId(document))? {
        put_pair(alloc, line, document, row)?;
    }
    Ok(())
}

/// The rows that are the documents 1 to 5 of an index.
fn documents(alloc: Global, keeper: &mut MemKeeper, index: &Name) -> Result<String, KeepFault> {
    let mut line = String::new(alloc);
    for document in 1..6 {
        put_document(alloc, keeper, index, &mut line, document)?;
    }
    Ok(line)
}

fn put_row(alloc: Global, line: &mut String, key: RowKey) -> Result<(), Memory> {
    let RowKey(row) = key;
    let text = format!(in alloc; "+{row} ")?;
    line.push_str(text.as_str())?;
    Ok(())
}

/// The rows that are the documents 1 to 5 of an index, and then those that wait.
fn marks(alloc: Global, keeper: &mut MemKeeper, index: &Name) -> Result<String, KeepFault> {
    let mut line = documents(alloc, keeper, index)?;
    let waiting = pending(alloc, keeper, index)?;
    for key in waiting.iter() {
        put_row(alloc, &mut line, *key)?;
    }
    Ok(line)
}

/// Two rows of a table, and an index on their texts.
fn indexed<R: Threads + Sync>(
    rt: &R,
    alloc: Global,
    index: &Name,
    range: KeyRange,
) -> Result<MemKeeper, KeepFault> {
    let mut keeper = new_keeper(alloc)?;
    add_row(alloc, &mut keeper, 7, "Quick fox, quick!")?;
    add_row(alloc, &mut keeper, -12, "a slow fox")?;
    add_index(
        rt,
        alloc,
        &mut keeper,
        index,
        &Prefs::defaults(alloc)?,
        range,
    )?;
    Ok(keeper)
}

/// The marks of a new index on those rows.
fn marked_at_once<R: Threads + Sync>(
    rt: &R,
    alloc: Global,
    range: KeyRange,
) -> Result<String, KeepFault> {
    let index = named(alloc, "di")?;
    let mut keeper = indexed(rt, alloc, &index, range)?;
    marks(alloc, &mut keeper, &index)
}

/// The rows 7 and -12 of that table are documents of an index, and the row 3 waits.
fn indexed_and_waiting<R: Threads + Sync>(
    rt: &R,
    alloc: Global,
    index: &Name,
) -> Result<MemKeeper, KeepFault> {
    let mut keeper = indexed(rt, alloc, index, KeyRange::ALL)?;
    add_row(alloc, &mut keeper, 3, "quick")?;
    add_note(alloc, &mut keeper, index, 3)?;
    Ok(keeper)
}

/// Synchronises an index so many times, and gives how many changes the last time took.
fn settle_often<R: Threads + Sync>(
    rt: &R,
    alloc: Global,
    keeper: &mut MemKeeper,
    index: &Name,
    times: u32,
) -> Result<usize, KeepFault> {
    let mut count = 0;
    for _ in 0..times {
        count = settle(rt, alloc, keeper, index)?;
    }
    Ok(count)
}

/// A line of how many changes something took, and marks.
fn told(alloc: Global, count: usize, marks: &str) -> Result<String, Memory> {
    Ok(format!(in alloc; "{count}: {marks}")?)
}

/// How many changes the last of so many synchronisations of that index took, and its marks then.
fn marked_later<R: Threads + Sync>(rt: &R, alloc: Global, times: u32) -> Result<String, KeepFault> {
    let index = named(alloc, "di")?;
    let mut keeper = indexed_and_waiting(rt, alloc, &index)?;
    let count = settle_often(rt, alloc, &mut keeper, &index, times)?;
    let line = marks(alloc, &mut keeper, &index)?;
    Ok(told(alloc, count, line.as_str())?)
}

/// How many changes something took, the marks then, and the marks after a synchronisation.
fn marked_around<R: Threads + Sync>(
    rt: &R,
    alloc: Global,
    keeper: &mut MemKeeper,
    index: &Name,
    count: usize,
) -> Result<String, KeepFault> {
    let before = marks(alloc, keeper, index)?;
    let mut line = told(alloc, count, before.as_str())?;
    settle(rt, alloc, keeper, index)?;
    put_text(&mut line, "then ")?;
    let after = marks(alloc, keeper, index)?;
    put_text(&mut line, after.as_str())?;
    Ok(line)
}

fn put_text(line: &mut String, text: &str) -> Result<(), Memory> {
    line.push_str(text)?;
    Ok(())
}

/// The same where a row goes.
fn marked_without<R: Threads + Sync>(rt: &R, alloc: Global, row: i64) -> Result<String, KeepFault> {
    let index = named(alloc, "di")?;
    let mut keeper = indexed_and_waiting(rt, alloc, &index)?;
    let count = lose(alloc, &mut keeper, &index, row)?;
    marked_around(rt, alloc, &mut keeper, &index, count)
}

/// The same where a row gets another text.
fn marked_rewritten<R: Threads + Sync>(
    rt: &R,
    alloc: Global,
    row: i64,
) -> Result<String, KeepFault> {
    let index = named(alloc, "di")?;
    let mut keeper = indexed_and_waiting(rt, alloc, &index)?;
    let count = rewrite(alloc, &mut keeper, &index, row, "slow quick cat")?;
    marked_around(rt, alloc, &mut keeper, &index, count)
}

/// What is done with an index.
#[derive(Clone, Copy, Debug)]
enum Case {
    /// It is made over the rows from the first key to the second one.
    Made(i64, i64),
    /// It is synchronised so many times.
    Settled(u32),
    /// A row goes.
    Without(i64),
    /// A row gets another text.
    Rewritten(i64),
}

fn case_line<R: Threads + Sync>(rt: &R, alloc: Global, case: Case) -> Result<String, KeepFault> {
    match case {
        Case::Made(from, to) => {
            let range = KeyRange {
                from: RowKey(from),
                to: RowKey(to),
            };
            marked_at_once(rt, alloc, range)
        }
        Case::Settled(times) => marked_later(rt, alloc, times),
        Case::Without(row) => marked_without(rt, alloc, row),
        Case::Rewritten(row) => marked_rewritten(rt, alloc, row),
    }
}

const CASES: &[(Case, &str)] = &[
    (Case::Made(i64::MIN, i64::MAX), "1:-12 2:7 "),
    (Case::Made(-11, 7), "1:7 "),
    // a row waits until the synchronisation, which takes it out of the queue, and puts its document, its row, one token, and the entry
    // of the index; a second one has nothing to do
    (Case::Settled(0), "0: 1:-12 2:7 +3 "),
    (Case::Settled(1), "5: 1:-12 2:7 3:3 "),
    (Case::Settled(2), "0: 1:-12 2:7 3:3 "),
    // a document goes, with its row
    (Case::Without(7), "2: 1:-12 +3 then 1:-12 3:3 "),
    // a row that waits goes
    (Case::Without(3), "1: 1:-12 2:7 then 1:-12 2:7 "),
    // a document gets another text: its document, its row, and the queue
    (Case::Rewritten(7), "3: 1:-12 +3 +7 then 1:-12 3:3 4:7 "),
];

#[test]
fn rows_are_documents_or_wait(rt: HostRuntime) -> Result<(), Fail> {
    for (case, line) in CASES {
        let found = case_line(&rt, rt.alloc(), *case)?;
        assert_eq!(rt; found.as_str(), *line, "{case:?}");
    }
    Ok(())
}

/// A section of one tag, which has its name.
fn section(alloc: Global, text: &str, kind: SectionKind) -> Result<Section, Memory> {
    let mut tags = Vec::new(alloc);
    tags.push(Text::of(alloc, text)?)?;
    Ok(Section {
        name: named(alloc, text)?,
        kind,
        tags: Tags::of(tags),
    })
}

/// Preferences with the invisible field t and the zone p.
fn with_sections(alloc: Global) -> Result<Prefs, Memory>
    ensures { IfOk result (λ p. can_be_set p.lexer ≡ true) }
{
    let mut sections = Vec::new(alloc);
    sections.push(section(alloc, "t", SectionKind::Field)?)?;
    sections.push(section(alloc, "p", SectionKind::Zone)?)?;
    let group = Group::of(alloc, false, sections, false, false)?.ok_or(Memory)?;
    let mut prefs = Prefs::defaults(alloc)?;
    prefs.group = group;
    Ok(prefs)
}

/// Preferences by which case is kept.
fn with_case(alloc: Global) -> Result<Prefs, Memory>
    ensures { IfOk result (λ p. can_be_set p.lexer ≡ true) }
{
    let mut prefs = Prefs::defaults(alloc)?;
    prefs.lexer.mixed_case = true;
    Ok(prefs)
}

/// An index with these preferences, in which a row with this text waits.
fn waiting_in<R: Threads + Sync>(
    rt: &R,
    alloc: Global,
    index: &Name,
    prefs: &Prefs,
    text: &str,
) -> Result<MemKeeper, KeepFault>
    requires set { can_be_set prefs.now.lexer ≡ true }
    requires short { length text.now ≤ 100 }
{
    let mut keeper = new_keeper(alloc)?;
    add_index(rt, alloc, &mut keeper, index, prefs, KeyRange::ALL)?;
    add_row(alloc, &mut keeper, 1, text)?;
    add_note(alloc, &mut keeper, index, 1)?;
    Ok(keeper)
}

/// How many changes it takes to settle a row with this text in an index with these preferences.
fn settled_by<R: Threads + Sync>(
    rt: &R,
    alloc: Global,
    prefs: &Prefs,
    text: &str,
) -> Result<usize, KeepFault>
    requires set { can_be_set prefs.now.lexer ≡ true }
    requires short { length text.now ≤ 100 }
{
    let index = named(alloc, "di")?;
    let mut keeper = waiting_in(rt, alloc, &index, prefs, text)?;
    settle(rt, alloc, &mut keeper, &index)
}

fn settled_with_sections<R: Threads + Sync>(rt: &R, alloc: Global) -> Result<usize, KeepFault> {
    let prefs = with_sections(alloc)?;
    settled_by(rt, alloc, &prefs, "<T>alpha</T> <P>beta</P>")
}

/// Out of the queue, its document, its row, a word in the field, one in the main stream, a section, and the entry.
#[test]
fn words_of_each_stream_and_sections_have_entries(rt: HostRuntime) -> Result<(), Fail> {
    assert_eq!(rt; settled_with_sections(&rt, rt.alloc())?, 7);
    Ok(())
}

/// Whether case is kept in an index in which it is; none where there is no index of the name.
fn keeps_case<R: Threads + Sync>(
    rt: &R,
    alloc: Global,
    name: &str,
) -> Result<Option<bool>, KeepFault> {
    let prefs = with_case(alloc)?;
    let index = named(alloc, "di")?;
    let other = named(alloc, name)?;
    let mut keeper = waiting_in(rt, alloc, &index, &prefs, "a")?;
    let found = prefs_of(alloc, &mut keeper, &other)?;
    Ok(found.map(|prefs| prefs.lexer.mixed_case))
}

#[test]
fn preferences_are_those_of_the_index(rt: HostRuntime) -> Result<(), Fail> {
    for (name, keeps) in [("di", Some(true)), ("ti", None)] {
        assert_eq!(rt; keeps_case(&rt, rt.alloc(), name)?, keeps);
    }
    Ok(())
}

/// A kind, the rest of a key, a value, and whether both make a well shaped entry.
type Shape = (Kind, &'static [u8], &'static [u8], bool);

/// The row keys 7 and -1, and the document 1.
const ROW: &[u8] = &[0x80, 0, 0, 0, 0, 0, 0, 7];

const ROW_BELOW: &[u8] = &[0x7f, 0xff, 0xff, 0xff, 0xff, 0xff, 0xff, 0xff];

const DOCUMENT: &[u8] = &[0, 0, 0, 1];

/// A word of a document at the positions 1 and 3, and a section from the one to the other.
const POSTING: &[u8] = &[1, 1, 2, 1, 2];

const SPAN: &[u8] = &[1, 1, 1, 1, 2];

static SHAPES: [Shape; 30] = [
    (
        Kind::Indexes,
        &[],
        &[1, 1, b't', 1, 0, 0, 0, 2, 0, 0, 0, 0, 0, 0, 3, 0, 0, 0],
        true,
    ),
    (
        Kind::Indexes,
        &[0],
        &[1, 1, b't', 1, 0, 0, 0, 2, 0, 0, 0, 0, 0, 0, 3, 0, 0, 0],
        false,
    ),
    (
        Kind::Indexes,
        &[],
        &[1, 1, b'T', 1, 0, 0, 0, 2, 0, 0, 0, 0, 0, 0, 3, 0, 0, 0],
        false,
    ),
    (
        Kind::Indexes,
        &[],
        &[1, 1, b't', 1, 0, 0, 0, 2, 0, 0, 0, 0, 0, 0, 3, 0, 0],
        false,
    ),
    (
        Kind::Indexes,
        &[],
        &[
            1, 1, b't', 1, 0, 0, 1, 2, b'i', b's', 2, 0, 0, 0, 0, 0, 0, 3, 0, 0, 0,
        ],
        true,
    ),
    (
        Kind::Indexes,
        &[],
        &[1, 1, b't', 1, 0, 0, 0, 3, 0, 0, 0, 0, 0, 0, 3, 0, 0, 0],
        false,
    ),
    (Kind::Indexes, &[], &[], false),
    (Kind::DocumentRows, DOCUMENT, ROW, true),
    (Kind::DocumentRows, DOCUMENT, ROW_BELOW, true),
    (Kind::DocumentRows, &[0, 0, 1], ROW, false),
    (Kind::DocumentRows, DOCUMENT, DOCUMENT, false),
    (Kind::RowDocuments, ROW, DOCUMENT, true),
    (Kind::RowDocuments, ROW, &[0, 0, 0, 1, 0], false),
    (Kind::RowDocuments, DOCUMENT, DOCUMENT, false),
    (Kind::Pending, ROW, &[], true),
    (Kind::Pending, ROW, &[0], false),
    (Kind::Pending, &[], &[], false),
    (Kind::Postings, &[0, 1, b'a', 0, 0, 0, 1], POSTING, true),
    (Kind::Postings, &[64, 1, b'a', 0, 0, 0, 1], POSTING, true),
    (Kind::Postings, &[65, 1, b'a', 0, 0, 0, 1], POSTING, false),
    (Kind::Postings, &[0, 0, 0, 0, 0, 1], POSTING, false),
    (Kind::Postings, &[0, 1, b'a', 0, 0, 0, 2], POSTING, false),
    (Kind::Postings, &[0, 2, b'a', 0, 0, 0, 1], POSTING, false),
    (
        Kind::Postings,
        &[0, 1, b'a', 0, 0, 0, 1],
        &[1, 1, 2, 1, 2, 0],
        false,
    ),
    (
        Kind::Postings,
        &[0, 1, b'a', 0, 0, 0, 1],
        &[2, 1, 1, 1, 1, 1, 1],
        true,
    ),
    (Kind::Spans, &[1, b's', 0, 0, 0, 1], SPAN, true),
    (Kind::Spans, &[1, b'S', 0, 0, 0, 1], SPAN, false),
    (Kind::Spans, &[1, b's', 0, 0, 0, 7], SPAN, false),
    (Kind::Spans, &[1, b's', 0, 0, 0, 1], &[1, 1, 1, 1], false),
    (Kind::Tables, &[], &[], false),
];

/// Whether an entry is well shaped exactly where its row of the table says so.
fn is_as_told(alloc: Global, shape: &Shape) -> Result<bool, Memory> {
    let (kind, part, value, told) = *shape;
    let is = is_context_shape(alloc, kind, part, value)?;
    Ok(is == told)
}

#[test]
fn entries_are_told_by_their_shape(rt: HostRuntime) -> Result<(), Fail> {
    for shape in &SHAPES {
        assert!(rt; is_as_told(rt.alloc(), shape)?);
    }
    Ok(())
}
