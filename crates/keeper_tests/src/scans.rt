//! Scans of what a keeper holds under a prefix.

ghost use Rattle.std.specs.Prelude.{◌≡◌, IfOk};

use ct_base::Memory;
use ct_keep::{Batch, KEY_LIMIT, KeepFault, Keeper, MemKeeper, first_under, next_under, scan};
use std::alloc::Global;
use std::test::Fail;

/// An entry: the rest of its key, and its value.
type Entry = (Vec<u8>, Vec<u8>);

fn bytes_of(alloc: Global, text: &str) -> Result<Vec<u8>, Memory>
    ensures { IfOk result (λ bytes. bytes.items ≡ text.now) }
{
    Ok(Vec::from_slice(alloc, text.as_bytes())?)
}

/// Puts an entry whose value is its key.
fn keep(alloc: Global, keeper: &mut MemKeeper, key: &str) -> Result<(), KeepFault> {
    if key.is_empty() || key.len() > KEY_LIMIT {
        return Ok(());
    }
    let mut batch = Batch::new(alloc);
    let value = bytes_of(alloc, key)?;
    batch.put(bytes_of(alloc, key)?, value)?;
    keeper.commit(alloc, batch)
}

fn keeper_of(alloc: Global, keys: &[&str]) -> Result<MemKeeper, KeepFault> {
    let mut keeper = MemKeeper::new(alloc, Vec::new(alloc), 1000, 0)?;
    for key in keys {
        keep(alloc, &mut keeper, key)?;
    }
    Ok(keeper)
}

fn add(text: &mut Vec<u8>, bytes: &[u8]) -> Result<(), Memory> {
    text.extend_from_slice(bytes)?;
    Ok(())
}

/// The entries in a line, each as its rest, `=`, its value and a space.
fn line_of(alloc: Global, found: &[Entry]) -> Result<Vec<u8>, Memory> {
    let mut line = Vec::new(alloc);
    for (rest, value) in found {
        add(&mut line, rest)?;
        add(&mut line, b"=")?;
        add(&mut line, value)?;
        add(&mut line, b" ")?;
    }
    Ok(line)
}

fn entry_line(alloc: Global, found: Option<Entry>) -> Result<Vec<u8>, Memory> {
    let mut entries = Vec::new(alloc);
    if let Some(entry) = found {
        entries.push(entry)?;
    }
    line_of(alloc, &entries)
}

static KEYS: [&str; 5] = ["b", "abc", "a", "ac", "ab"];

/// Prefixes, and what stands behind each: the prefix itself and its neighbours don't.
const BEHIND: &[(&str, &str)] = &[
    ("a", "b=ab bc=abc c=ac "),
    ("ab", "c=abc "),
    ("abc", ""),
    ("aa", ""),
    ("b", ""),
    ("c", ""),
    ("", "a=a ab=ab abc=abc ac=ac b=b "),
];

fn scan_line(alloc: Global, keeper: &mut MemKeeper, prefix: &str) -> Result<Vec<u8>, KeepFault> {
    let found = scan(alloc, keeper, prefix.as_bytes())?;
    Ok(line_of(alloc, &found)?)
}

/// The first prefix behind which something else stands.
fn wrong_scan(alloc: Global) -> Result<Option<&'static str>, KeepFault> {
    let mut keeper = keeper_of(alloc, &KEYS)?;
    for (prefix, want) in BEHIND {
        let line = scan_line(alloc, &mut keeper, prefix)?;
        if line.as_slice() != want.as_bytes() {
            return Ok(Some(*prefix));
        }
    }
    Ok(None)
}

#[test]
fn scans_find_all_behind_a_prefix(rt: HostRuntime) -> Result<(), Fail> {
    assert_eq!(rt; wrong_scan(rt.alloc())?, None);
    Ok(())
}

/// Prefixes, rests, and the entry behind each.
const NEXT: &[(&str, &str, &str)] = &[
    ("a", "", "b=ab "),
    ("a", "aa", "b=ab "),
    ("a", "b", "bc=abc "),
    ("a", "bc", "c=ac "),
    ("a", "c", ""),
    ("b", "", ""),
];

fn next_line(
    alloc: Global,
    keeper: &mut MemKeeper,
    prefix: &str,
    after: &str,
) -> Result<Vec<u8>, KeepFault> {
    let found = next_under(alloc, keeper, prefix.as_bytes(), after.as_bytes())?;
    Ok(entry_line(alloc, found)?)
}

/// The first prefix and rest behind which another entry comes.
fn wrong_next(alloc: Global) -> Result<Option<(&'static str, &'static str)>, KeepFault> {
    let mut keeper = keeper_of(alloc, &KEYS)?;
    for (prefix, after, want) in NEXT {
        let line = next_line(alloc, &mut keeper, prefix, after)?;
        if line.as_slice() != want.as_bytes() {
            return Ok(Some((*prefix, *after)));
        }
    }
    Ok(None)
}

#[test]
fn look_ups_find_the_next_behind_a_prefix(rt: HostRuntime) -> Result<(), Fail> {
    assert_eq!(rt; wrong_next(rt.alloc())?, None);
    Ok(())
}

fn first_line(alloc: Global, prefix: &[u8]) -> Result<Vec<u8>, KeepFault> {
    let mut keeper = keeper_of(alloc, &KEYS)?;
    let found = first_under(alloc, &mut keeper, prefix)?;
    Ok(entry_line(alloc, found)?)
}

#[test]
fn look_ups_find_the_first_behind_a_prefix(rt: HostRuntime) -> Result<(), Fail> {
    let line = first_line(rt.alloc(), b"a")?;
    assert_eq!(rt; line.as_slice(), b"b=ab ".as_slice());
    Ok(())
}
