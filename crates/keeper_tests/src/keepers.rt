//! The keeper in memory over tables of calls.

ghost use Rattle.std.specs.Prelude.{◌≡◌, ◌<◌, true, IfOk, OnOk, length};
ghost use Rattle.ct_base.specs.Told.{with_suffix, took};
ghost use Rattle.ct_keep.specs.Changes.{AnyEntry, AreWell};
ghost use Rattle.ct_keep.specs.Counting.{IsOwner};
ghost use Rattle.ct_keep.specs.KeeperViews.{AcceptsChanges};

use ct_base::Memory;
use ct_keep::{Batch, EntryMap, KEY_LIMIT, KeepFault, Keeper, MemKeeper};
use ct_site::{Failed, Faults, MemSite, Rooms, Site};
use std::alloc::Global;
use std::test::Fail;

/// A change: a key, and how long its value is to be, or None where the entry is to go.
type Change = (&'static str, Option<usize>);

/// A call of a keeper.
#[derive(Clone, Copy)]
enum Call {
    Fetch(&'static str),
    Next(&'static str),
    /// How many entries stand under the owner of this kind and name.
    Count(u8, &'static str),
    Commit(&'static [Change]),
    Hear(usize),
    Say(&'static str),
}

fn bytes_of(alloc: Global, bytes: &[u8]) -> Result<Vec<u8>, Memory> {
    Ok(Vec::from_slice(alloc, bytes)?)
}

fn count_text(alloc: Global, count: usize) -> Result<Vec<u8>, Memory> {
    let text = format!(in alloc; "{count}")?;
    bytes_of(alloc, text.as_bytes())
}

/// Adds a change, unless its entry has no key or one that is too long, or too long a value.
fn add_change(alloc: Global, batch: &mut Batch, change: Change) -> Result<(), Memory>
    ensures { AreWell AnyEntry batch.old → OnOk result (AreWell AnyEntry batch.new) }
{
    let (key, length) = change;
    let key = Vec::from_slice(alloc, key.as_bytes())?;
    let Some(length) = length else {
        return batch.remove(key);
    };
    if key.is_empty() || key.len() > KEY_LIMIT || length > 1000 {
        return Ok(());
    }
    batch.put(key, Vec::from_elem(alloc, b'v', length)?)
}

fn batch_of(alloc: Global, changes: &[Change]) -> Result<Batch, Memory>
    ensures { IfOk result (AreWell AnyEntry) }
{
    let mut batch = Batch::new(alloc);
    for change in changes {
        add_change(alloc, &mut batch, *change)?;
    }
    Ok(batch)
}

/// How long the value of a key is.
fn fetched<K: Keeper>(alloc: Global, keeper: &mut K, key: &str) -> Result<Vec<u8>, KeepFault>
    requires { AcceptsChanges (K.view keeper.old) }
    ensures { OnOk result (AcceptsChanges (K.view keeper.new)) }
{
    match keeper.fetch(alloc, key.as_bytes())? {
        Some(value) => Ok(count_text(alloc, value.len())?),
        None => Ok(bytes_of(alloc, b"-")?),
    }
}

/// The next key.
fn next_key<K: Keeper>(alloc: Global, keeper: &mut K, key: &str) -> Result<Vec<u8>, KeepFault>
    requires { AcceptsChanges (K.view keeper.old) }
    ensures { OnOk result (AcceptsChanges (K.view keeper.new)) }
{
    match keeper.next_after(alloc, key.as_bytes())? {
        Some((key, _)) => Ok(key),
        None => Ok(bytes_of(alloc, b"-")?),
    }
}

/// The prefix of an owner.
fn owner_bytes(alloc: Global, kind: u8, name: &str) -> Result<Vec<u8>, Memory>
    requires { length name.now < 256 }
    ensures { IfOk result (λ owner. IsOwner owner.items) }
{
    let mut owner = Vec::new(alloc);
    owner.push(kind)?;
    owner.push(name.len() as u8)?;
    owner.extend_from_slice(name.as_bytes())?;
    Ok(owner)
}

fn counted<K: Keeper>(alloc: Global, keeper: &K, kind: u8, name: &str) -> Result<Vec<u8>, KeepFault>
    requires { AcceptsChanges (K.view keeper.now) }
{
    if name.len() > 255 {
        return Ok(Vec::new(alloc));
    }
    let owner = owner_bytes(alloc, kind, name)?;
    let count = keeper.count(&owner);
    Ok(count_text(alloc, count as usize)?)
}

fn committed<K: Keeper>(
    alloc: Global,
    keeper: &mut K,
    changes: &[Change],
) -> Result<Vec<u8>, KeepFault>
    requires { AcceptsChanges (K.view keeper.old) }
    ensures takes { OnOk result (AcceptsChanges (K.view keeper.new)) }
    ensures beside { (K.view keeper.new).beside ≡ (K.view keeper.old).beside }
    ensures lender { (K.view keeper.new).fixed.lender ≡ (K.view keeper.old).fixed.lender }
{
    let batch = batch_of(alloc, changes)?;
    match keeper.commit(alloc, batch) {
        Ok(()) => Ok(bytes_of(alloc, b".")?),
        Err(KeepFault::Full) => Ok(bytes_of(alloc, b"full")?),
        Err(fault) => Err(fault),
    }
}

fn heard<K: Keeper>(alloc: Global, keeper: &mut K, count: usize) -> Result<Vec<u8>, KeepFault>
    requires { AcceptsChanges (K.view keeper.old) }
    ensures { OnOk result (AcceptsChanges (K.view keeper.new)) }
{
    let mut bytes = zeros(alloc, count)?;
    if count == 0 {
        return Ok(bytes);
    }
    match keeper.hear(&mut bytes) {
        Ok(count) => {
            bytes.truncate(count);
            Ok(bytes)
        }
        Err(Failed) => Ok(bytes_of(alloc, b"-")?),
    }
}

fn zeros(alloc: Global, count: usize) -> Result<Vec<u8>, Memory>
    ensures { IfOk result (λ bytes. length bytes.items ≡ count) }
{
    Ok(Vec::from_elem(alloc, 0u8, count)?)
}

fn said<K: Keeper>(alloc: Global, keeper: &mut K, text: &str) -> Result<Vec<u8>, KeepFault>
    requires { AcceptsChanges (K.view keeper.old) }
    ensures { OnOk result (AcceptsChanges (K.view keeper.new)) }
{
    if text.is_empty() {
        return Ok(Vec::new(alloc));
    }
    match keeper.say(text.as_bytes()) {
        Ok(count) => Ok(count_text(alloc, count)?),
        Err(Failed) => Ok(bytes_of(alloc, b"-")?),
    }
}

fn answer<K: Keeper>(alloc: Global, keeper: &mut K, call: Call) -> Result<Vec<u8>, KeepFault>
    requires { AcceptsChanges (K.view keeper.old) }
    ensures { OnOk result (AcceptsChanges (K.view keeper.new)) }
{
    match call {
        Call::Fetch(key) => fetched(alloc, keeper, key),
        Call::Next(key) => next_key(alloc, keeper, key),
        Call::Count(kind, name) => counted(alloc, keeper, kind, name),
        Call::Commit(changes) => committed(alloc, keeper, changes),
        Call::Hear(count) => heard(alloc, keeper, count),
        Call::Say(text) => said(alloc, keeper, text),
    }
}

/// The answers, with a blank behind each.
fn answers<K: Keeper>(alloc: Global, keeper: &mut K, calls: &[Call]) -> Result<Vec<u8>, KeepFault>
    requires { AcceptsChanges (K.view keeper.old) }
{
    let mut all = Vec::new(alloc);
    for call in calls {
        let answer = answer(alloc, keeper, *call)?;
        append(&mut all, &answer)?;
        append(&mut all, b" ")?;
    }
    Ok(all)
}

fn append(all: &mut Vec<u8>, bytes: &[u8]) -> Result<(), Memory> {
    Ok(all.extend_from_slice(bytes)?)
}

const SCRIPT: &[u8] = b"abcdefg";

const SAID_ROOM: usize = 5;

/// What comes of the calls over a keeper with this limit that begins with `SCRIPT` and may say `SAID_ROOM` bytes: the answers, then what was said.
struct Row {
    limit: u64,
    calls: &'static [Call],
    answers: &'static str,
    said: &'static str,
}

const ROWS: &[Row] = &[
    // two entries of at most 64 bytes, and no third
    Row {
        limit: 128,
        calls: &[
            Call::Fetch("a"),
            Call::Next(""),
            Call::Commit(&[("a", Some(63)), ("b", Some(0))]),
            Call::Commit(&[("c", Some(1))]),
            Call::Fetch("c"),
            Call::Fetch("a"),
            Call::Fetch("b"),
            Call::Next("b"),
        ],
        answers: "- - . full - 63 0 - ",
        said: "",
    },
    // a value that is replaced by a heavier one, within the limit and past it
    Row {
        limit: 128,
        calls: &[
            Call::Commit(&[("a", Some(3))]),
            Call::Commit(&[("a", Some(127))]),
            Call::Commit(&[("a", Some(128))]),
            Call::Fetch("a"),
        ],
        answers: ". . full 127 ",
        said: "",
    },
    // the last change on a key counts
    Row {
        limit: 128,
        calls: &[
            Call::Commit(&[
                ("a", Some(1000)),
                ("b", Some(3)),
                ("a", Some(2)),
                ("b", None),
            ]),
            Call::Fetch("a"),
            Call::Fetch("b"),
            Call::Commit(&[("a", None), ("c", Some(4)), ("a", Some(7))]),
            Call::Fetch("a"),
            Call::Commit(&[("d", Some(1)), ("a", Some(9)), ("c", None), ("c", Some(5))]),
            Call::Fetch("a"),
            Call::Fetch("c"),
            Call::Commit(&[("a", None), ("c", None), ("e", None)]),
            Call::Next(""),
        ],
        answers: ". 2 - . 7 full 7 4 . - ",
        said: "",
    },
    // the next of three keys
    Row {
        limit: 192,
        calls: &[
            Call::Commit(&[("ab", Some(1)), ("b", Some(1)), ("a", Some(1))]),
            Call::Next(""),
            Call::Next("a"),
            Call::Next("aa"),
            Call::Next("ab"),
            Call::Next("b"),
        ],
        answers: ". a ab ab b - ",
        said: "",
    },
    // the entries of several owners, after they are put, replaced, refused and removed; an entry of the prefix itself is none
    Row {
        limit: 320,
        calls: &[
            Call::Count(b'n', "t"),
            Call::Commit(&[
                ("n\u{1}ta", Some(1)),
                ("n\u{1}tbc", Some(1)),
                ("n\u{1}u", Some(0)),
                ("n\u{1}ua", Some(2)),
                ("x\u{1}ta", Some(3)),
            ]),
            Call::Count(b'n', "t"),
            Call::Count(b'n', "u"),
            Call::Count(b'x', "t"),
            Call::Commit(&[("n\u{1}ta", Some(9)), ("n\u{1}ta", Some(8))]),
            Call::Count(b'n', "t"),
            Call::Commit(&[
                ("n\u{1}tb", Some(1)),
                ("n\u{1}ta", Some(7)),
                ("n\u{1}ua", None),
                ("v\u{1}ta", Some(1)),
            ]),
            Call::Count(b'n', "t"),
            Call::Count(b'n', "u"),
            Call::Count(b'v', "t"),
            Call::Commit(&[
                ("n\u{1}ta", None),
                ("n\u{1}ta", Some(4)),
                ("n\u{1}tbc", None),
                ("n\u{1}tx", None),
                ("n\u{1}ua", None),
                ("v\u{0}a", Some(1)),
            ]),
            Call::Count(b'n', "t"),
            Call::Count(b'n', "u"),
            Call::Count(b'x', "t"),
            Call::Count(b'v', ""),
            Call::Count(b'x', ""),
        ],
        answers: "0 . 2 1 1 . 2 full 2 1 0 . 1 0 1 1 0 ",
        said: "",
    },
    // a script in pieces, and what is said up to its room
    Row {
        limit: 0,
        calls: &[
            Call::Hear(3),
            Call::Say("one"),
            Call::Hear(3),
            Call::Say("two"),
            Call::Say("to"),
            Call::Hear(3),
            Call::Say("x"),
            Call::Hear(3),
            Call::Commit(&[("a", Some(1))]),
            Call::Commit(&[]),
        ],
        answers: "abc 3 def - 2 g -  full . ",
        said: "oneto",
    },
];

/// Whether this comes of the calls of a row.
fn is_outcome(alloc: Global, row: &Row) -> Result<bool, KeepFault> {
    let script = bytes_of(alloc, SCRIPT)?;
    let mut keeper = MemKeeper::new(alloc, script, row.limit, SAID_ROOM)?;
    let answers = answers(alloc, &mut keeper, row.calls)?;
    Ok(answers.as_slice() == row.answers.as_bytes() && keeper.said() == row.said.as_bytes())
}

#[test]
fn a_keeper_in_memory(rt: HostRuntime) -> Result<(), Fail> {
    for row in ROWS {
        assert!(rt; is_outcome(rt.alloc(), row)?, "{}", row.answers);
    }
    Ok(())
}

fn commit_within(
    alloc: Global,
    map: &mut EntryMap,
    changes: &[Change],
    limit: u64,
) -> Result<(), KeepFault> {
    let batch = batch_of(alloc, changes)?;
    map.commit(alloc, batch.into_changes(), limit)
}

/// Whether a content that weighs more than the limit may become heavier, and how long a value is once it became as heavy, and then
/// lighter.
fn shrunk(alloc: Global) -> Result<(bool, usize), KeepFault> {
    let mut map = EntryMap::new(alloc);
    commit_within(alloc, &mut map, &[("a", Some(500)), ("b", Some(99))], 1000)?;
    let heavier = commit_within(alloc, &mut map, &[("a", Some(501))], 128);
    commit_within(alloc, &mut map, &[("a", Some(501)), ("b", Some(98))], 128)?;
    let lighter = &[("a", Some(400)), ("c", Some(3)), ("b", None)];
    commit_within(alloc, &mut map, lighter, 128)?;
    let value = map.fetch(alloc, b"a")?;
    Ok((
        heavier != Err(KeepFault::Full),
        value.map_or(0, |value| value.len()),
    ))
}

/// A content that weighs more than a limit may become lighter under it, and no heavier.
#[test]
fn a_content_over_its_limit_may_shrink(rt: HostRuntime) -> Result<(), Fail> {
    assert_eq!(rt; shrunk(rt.alloc())?, (false, 400));
    Ok(())
}

/// Whether a second commit was made, and how many entries two owners then have.
fn counts_after(alloc: Global) -> Result<(bool, u64, u64), KeepFault> {
    let owner = owner_bytes(alloc, b'n', "t")?;
    let other = owner_bytes(alloc, b'm', "t")?;
    let first = batch_of(alloc, &[("n\u{1}ta", Some(1)), ("n\u{1}tb", Some(1))])?;
    let second = batch_of(alloc, SECOND)?;
    let mut keeper = MemKeeper::new(alloc, Vec::new(alloc), 1000, 0)?;
    keeper.commit(alloc, first)?;
    let is_done = keeper.commit(alloc, second).is_ok();
    Ok((is_done, keeper.count(&owner), keeper.count(&other)))
}

const SECOND: &[Change] = &[
    ("n\u{1}tc", Some(1)),
    ("n\u{1}td", Some(1)),
    ("m\u{1}ta", Some(1)),
    ("n\u{1}ta", None),
];

/// Where there is no memory for a commit, the counts stay; run with each of its allocations failing in turn.
#[test]
fn counts_go_by_what_is_committed(rt: HostRuntime) -> Result<(), Fail> {
    let found = counts_after(rt.alloc())?;
    assert!(rt;
        found == (true, 3, 1) || found == (false, 2, 0),
        "{found:?}"
    );
    Ok(())
}
