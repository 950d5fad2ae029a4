//! Stop keys of words, and keys that are read.

use crate::rows::{spelt_keys, texts};
use ct_base::Memory;
use std::alloc::Global;
use std::test::Fail;
use tx_chars::Key;
use tx_stop::StopKeys;

fn key_of(alloc: Global, bytes: &[u8]) -> Result<Key, Memory> {
    Ok(Key::of(Vec::from_slice(alloc, bytes)?))
}

/// Words of which stop keys are made, whether these have the base letters alone, and whether they keep case.
type Words = (&'static [&'static str], bool, bool);

/// The stop keys of a few words.
fn stop_keys(alloc: Global, words: Words) -> Result<StopKeys, Memory> {
    let texts = texts(alloc, words.0)?;
    if texts.len() > 10 {
        return Err(Memory);
    }
    StopKeys::new(alloc, &texts, words.1, words.2)
}

fn made(alloc: Global, words: Words) -> Result<String, Memory> {
    let keys = stop_keys(alloc, words)?;
    spelt_keys(alloc, keys.keys())
}

/// Words, and the keys.
const MADE: &[(Words, &str)] = &[
    ((&[], false, false), ""),
    ((&["The", "an", "", "a", "the"], false, false), "a an the "),
    ((&["The", "the", "an"], false, true), "The an the "),
    ((&["ö", "zu", "Öl", "o"], false, false), "o zu ö öl "),
    ((&["ö", "zu", "Öl", "o"], true, false), "o ol zu "),
];

#[test]
fn words(rt: HostRuntime) -> Result<(), Fail> {
    for (words, keys) in MADE {
        assert_eq!(rt; made(rt.alloc(), *words)?.as_str(), *keys);
    }
    Ok(())
}

/// Words, a key, and whether it is among theirs.
const MEMBERS: &[(&[&str], &[u8], bool)] = &[
    (&["a", "the", "an"], b"an", true),
    (&["a", "the", "an"], b"the", true),
    (&["a", "the", "an"], b"b", false),
    (&["a", "the", "an"], b"", false),
];

fn is_member(alloc: Global, words: &'static [&'static str], key: &[u8]) -> Result<bool, Memory> {
    let keys = stop_keys(alloc, (words, false, false))?;
    let key = key_of(alloc, key)?;
    Ok(keys.has(&key))
}

#[test]
fn members(rt: HostRuntime) -> Result<(), Fail> {
    for (words, key, is_there) in MEMBERS {
        assert_eq!(rt; is_member(rt.alloc(), words, key)?, *is_there);
    }
    Ok(())
}

#[test]
fn no_stop_keys(rt: HostRuntime) -> Result<(), Fail> {
    let key = key_of(rt.alloc(), b"a")?;
    assert!(rt; !StopKeys::none(rt.alloc()).has(&key));
    Ok(())
}

/// Keys that are read, each ended by a space, or `refused`.
fn read(alloc: Global, list: &[&[u8]]) -> Result<String, Memory> {
    let mut keys = Vec::new(alloc);
    for bytes in list {
        keys.push(key_of(alloc, bytes)?)?;
    }
    match StopKeys::read_keys(keys) {
        None => Ok(String::from_str(alloc, "refused")?),
        Some(keys) => spelt_keys(alloc, keys.keys()),
    }
}

/// Keys with what is read: rising ones, and those that fall, come twice, are empty or no text.
const READ: &[(&[&[u8]], &str)] = &[
    (&[], ""),
    (&[b"a", b"an", b"the"], "a an the "),
    (&[b"a", b"the", b"an"], "refused"),
    (&[b"a", b"a"], "refused"),
    (&[b"", b"a"], "refused"),
    (&[b"a", b"b\xff"], "refused"),
];

#[test]
fn kept(rt: HostRuntime) -> Result<(), Fail> {
    for (list, keys) in READ {
        assert_eq!(rt; read(rt.alloc(), list)?.as_str(), *keys);
    }
    Ok(())
}
