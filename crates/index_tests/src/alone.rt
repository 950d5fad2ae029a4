//! What queries score on a document alone, by its own entries.

ghost use Rattle.std.specs.Prelude.{◌≡◌, ◌&&◌, bytes_eq, eqb, IfOk, OnOk};
ghost use Rattle.ix_cursor.specs.Alone.{AreDocumentEntries, IsDocumentEntry, has_entry};

use crate::cursors::{CASES, query};
use ct_base::{Listed, Memory, Pair};
use ix_cursor::score_alone;
use ix_posting::{Row, RowDocument};
use std::alloc::Global;
use std::test::Fail;
use tx_chars::Key;
use tx_document::Entry;

/// The document 1 of the feeds: streams, keys or sections, and where they stand, as rows of this document alone. `a` stands at 1 and 3, `b`
/// at 2, and `c` at 3 and 4; the sentences are 1 to 3 and 4 to 6, and the zone `t` is 3 to 4.
static ENTRIES: [(u8, &[u8], &[u8]); 5] = [
    (0, b"a", &[1, 1, 2, 1, 0, 2, 0]),
    (0, b"b", &[1, 1, 1, 2, 0]),
    (0, b"c", &[1, 1, 2, 3, 0, 1, 0]),
    (255, b"sentence", &[1, 1, 2, 1, 2, 3, 2]),
    (255, b"t", &[1, 1, 1, 3, 1]),
];

/// The entry with the places of a document.
fn entry_of(
    alloc: Global,
    stream: u8,
    token: &[u8],
    document: &RowDocument<Pair>,
) -> Result<Entry, Memory>
    ensures { IfOk result (λ e. e.places ≡ document.now.places) }
{
    let token = Key::of(Vec::from_slice(alloc, token)?);
    let places = Vec::from_slice(alloc, document.places.as_slice())?;
    Ok(Entry {
        stream,
        token,
        places: Listed::of(places),
    })
}

/// The entry with the places of the first document of the row that bytes spell.
fn entry(alloc: Global, stream: u8, token: &[u8], bytes: &[u8]) -> Result<Entry, Fail>
    ensures { IfOk result (λ e. IsDocumentEntry e) }
{
    let row = Row::<Pair>::decode(alloc, bytes)?;
    let [document, ..] = row.documents() else {
        return Err(Fail::new("no document"));
    };
    Ok(entry_of(alloc, stream, token, document)?)
}

/// Whether two entries are of one stream and token.
fn is_same(a: &Entry, b: &Entry) -> bool
    ensures { result ≡ (eqb a.now.stream b.now.stream && bytes_eq a.now.token b.now.token) }
{
    a.stream == b.stream && a.token.as_slice() == b.token.as_slice()
}

/// Whether one of the entries is of the stream and token of this one.
fn has_entry(entries: &[Entry], entry: &Entry) -> bool
    ensures { result ≡ has_entry entry.now.stream entry.now.token entries.now }
{
    entries.iter().any(|other| is_same(other, entry))
}

/// Puts an entry in front of the others, if none is of its stream and token.
fn put_entry(entries: &mut Vec<Entry>, entry: Entry) -> Result<(), Fail>
    requires entries { AreDocumentEntries entries.old.items }
    requires entry { IsDocumentEntry entry }
    ensures { OnOk result (AreDocumentEntries entries.new.items) }
{
    if has_entry(entries.as_slice(), &entry) {
        return Err(Fail::new("two entries are of one stream and token"));
    }
    entries.insert(0, entry)?;
    Ok(())
}

/// The entries of the document.
fn entries(alloc: Global) -> Result<Vec<Entry>, Fail>
    ensures { IfOk result (λ v. AreDocumentEntries v.items) }
{
    let mut entries = Vec::new(alloc);
    for (stream, token, bytes) in &ENTRIES {
        let entry = entry(alloc, *stream, token, bytes)?;
        put_entry(&mut entries, entry)?;
    }
    Ok(entries)
}

/// The score of a query on the document.
fn score(alloc: Global, text: &[u8]) -> Result<u32, Fail> {
    let entries = entries(alloc)?;
    let query = query(alloc, text)?;
    if !query.is_sound() {
        return Err(Fail::new("no such query"));
    }
    Ok(score_alone(alloc, &query, &entries)?)
}

/// The score of the document 1 among those that a query scores; 0 where it isn't among them.
fn score_of_1(scored: &[(u32, u32)]) -> u32 {
    let [first, ..] = scored else {
        return 0;
    };
    if first.0 == 1 { first.1 } else { 0 }
}

#[test]
fn scores_on_one_document(rt: HostRuntime) -> Result<(), Fail> {
    for case in CASES {
        let found = score(rt.alloc(), case.query.as_bytes())?;
        assert_eq!(rt; found, score_of_1(case.scored), "{}", case.query);
    }
    Ok(())
}
