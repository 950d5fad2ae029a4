//! Reduced queries as bytes, and the keys under which they are found.

ghost use Rattle.std.specs.Prelude.{◌≡◌, true, IfOk, IfSome};
ghost use Rattle.q_tree.specs.ReducedQueries.{reduced_of};
ghost use Rattle.q_tree.specs.Soundness.{is_sound};

use ct_base::Memory;
use q_parse::parse;
use q_reduce::{ReduceCtx, reduce};
use q_stored::{anchors_of, decode, encode};
use q_tree::Flat;
use std::alloc::Global;
use std::str::from_utf8;
use std::test::Fail;
use tx_chars::Key;
use tx_lexer::LexerOptions;
use tx_stop::StopKeys;
use tx_tags::Group;

/// What a query text is reduced to without stopwords and sections.
fn query_of(alloc: Global, text: &str) -> Result<Option<Flat>, Memory>
    ensures { IfOk result (λ found. IfSome found (λ q. is_sound (reduced_of q) ≡ true)) }
{
    let query = parse(alloc, text).map_err(|_| Memory)?;
    let lexer = LexerOptions::defaults(alloc)?;
    let stop = StopKeys::new(alloc, &[], false, false)?;
    let group = Group::empty(alloc, false);
    let ctx = ReduceCtx {
        lexer: &lexer,
        stop: &stop,
        group: &group,
        thesauri: &[],
    };
    reduce(alloc, &query, &ctx).map_err(|_| Memory)
}

fn put_digit(line: &mut String, digit: u8) -> Result<(), Memory> {
    let digits = "0123456789abcdef";
    let Some(c) = digits.chars().nth(digit as usize) else {
        return Err(Memory);
    };
    line.push(c)?;
    Ok(())
}

/// Bytes, each as two digits.
fn put_bytes(line: &mut String, bytes: &[u8]) -> Result<(), Memory> {
    for byte in bytes {
        put_digit(line, byte / 16)?;
        put_digit(line, byte % 16)?;
    }
    Ok(())
}

fn put_keys(line: &mut String, keys: &[Key]) -> Result<(), Memory> {
    for key in keys {
        line.push(' ')?;
        line.push_str(from_utf8(key.as_slice()).unwrap_or("no text"))?;
    }
    Ok(())
}

/// The keys under which a query is found.
fn put_anchors(alloc: Global, line: &mut String, query: &Flat) -> Result<(), Memory>
    requires { is_sound (reduced_of query.now) ≡ true }
{
    let anchors = anchors_of(alloc, query)?;
    match anchors.keys() {
        Some(keys) => put_keys(line, keys),
        None => {
            line.push_str(" everywhere")?;
            Ok(())
        }
    }
}

/// The bytes of what a text is reduced to, and its keys.
fn shown(alloc: Global, text: &str) -> Result<String, Memory> {
    let query = query_of(alloc, text)?;
    let bytes = encode(alloc, &query)?.ok_or(Memory)?;
    let mut line = String::new(alloc);
    put_bytes(&mut line, &bytes)?;
    if let Some(query) = &query {
        put_anchors(alloc, &mut line, query)?;
    }
    Ok(line)
}

/// The bytes of what these bytes are read as.
fn shown_again(alloc: Global, bytes: &[u8]) -> Result<String, Memory> {
    let mut line = String::new(alloc);
    let Ok(query) = decode(alloc, bytes) else {
        line.push_str("no query")?;
        return Ok(line);
    };
    let bytes = encode(alloc, &query)?.ok_or(Memory)?;
    put_bytes(&mut line, &bytes)?;
    Ok(line)
}

const QUERIES: &[(&str, &str)] = &[
    ("\\-", "00"),
    ("a", "0101010101016100 a"),
    ("a AND b", "0201010101010161000101010101016200 a"),
    ("a OR b", "0301010101010161000101010101016200 a b"),
    ("b NOT a", "0401010101010162000101010101016100 b"),
    ("c% AND b", "0201010101000102010163030101010101016200 b"),
];

#[test]
fn stored_queries(rt: HostRuntime) -> Result<(), Fail> {
    for (text, line) in QUERIES {
        assert_eq!(rt; shown(rt.alloc(), text)?.as_str(), *line);
    }
    Ok(())
}

const BYTES: &[(&[u8], &str)] = &[
    (&[0], "00"),
    (&[1, 1, 1, 1, 1, 1, 97, 0], "0101010101016100"),
    (&[1, 1, 1, 1, 1, 1, 97, 0, 0], "no query"),
    (&[1, 1, 1, 1, 1, 1, 97], "no query"),
    (&[2, 1, 1, 1, 1, 1, 1, 97, 0], "no query"),
    (&[1, 1, 1, 0], "no query"),
    (&[], "no query"),
];

#[test]
fn stored_bytes(rt: HostRuntime) -> Result<(), Fail> {
    for (bytes, line) in BYTES {
        assert_eq!(rt; shown_again(rt.alloc(), bytes)?.as_str(), *line);
    }
    Ok(())
}
