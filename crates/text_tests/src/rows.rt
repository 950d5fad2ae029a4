//! What is said of the rows of a table that give something else than they are to give.

use ct_base::{Memory, Text};
use std::alloc::Global;
use std::str::from_utf8;
use tx_chars::Key;

/// Appends a line for a row that gives another text than it is to give.
pub(crate) fn compare(
    alloc: Global,
    wrong: &mut String,
    row: &str,
    found: &str,
    wanted: &str,
) -> Result<(), Memory> {
    if found != wanted {
        let line = format!(in alloc; "{row:?} gives {found:?}, and not {wanted:?}\n")?;
        wrong.push_str(line.as_str())?;
    }
    Ok(())
}

/// Appends a line for a row of bytes that gives other bytes than it is to give.
pub(crate) fn compare_bytes(
    alloc: Global,
    wrong: &mut String,
    row: &[u8],
    found: &[u8],
    wanted: &[u8],
) -> Result<(), Memory> {
    if found != wanted {
        let line = format!(in alloc; "{row:?} gives {found:?}, and not {wanted:?}\n")?;
        wrong.push_str(line.as_str())?;
    }
    Ok(())
}

/// A key as a text; all that are looked at are texts.
pub(crate) fn key_text(key: &[u8]) -> &str {
    from_utf8(key).unwrap_or("no text")
}

/// The words as texts.
pub(crate) fn texts(alloc: Global, words: &[&str]) -> Result<Vec<Text>, Memory> {
    let mut texts = Vec::new(alloc);
    for word in words {
        texts.push(Text::of(alloc, word)?)?;
    }
    Ok(texts)
}

/// The keys in a line, with a blank behind each.
pub(crate) fn spelt_keys(alloc: Global, keys: &[Key]) -> Result<String, Memory> {
    let mut line = String::new(alloc);
    for key in keys {
        line.push_str(key_text(key.as_slice()))?;
        line.push(' ')?;
    }
    Ok(line)
}
