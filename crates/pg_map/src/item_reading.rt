//! Entries, read back from strings of slotted pages.

ghost use Rattle.std.specs.Prelude.{◌≡◌, ◌≤◌, ◌+◌, IfOk, length, get_or};
ghost use Rattle.std.specs.Option.{option_map};
ghost use Rattle.pg_page.specs.Pages.{number_at};
ghost use Rattle.pg_map.specs.ItemReading.{item_in, IsItemOr, IsKeyCountOr};

use crate::items::number_at;
use ct_base::Memory;
use std::alloc::Global;

/// An entry as a string of a slotted page has it.
#[derive(Debug, Drop)]
pub enum Form {
    Short {
        key: Vec<u8>,
        value: Vec<u8>,
    },
    /// The value has so many bytes, on long pages from the first one on.
    Far {
        key: Vec<u8>,
        count: u32,
        first: u32,
    },
}

/// How many bytes of the longest string are an entry whose value stands behind its key.
const LONGEST: usize = 4084;

/// The entry that a string spells; None exactly where it spells none.
pub fn item_of(alloc: Global, string: &[u8]) -> Result<Option<Form>, Memory>
    ensures { IfOk result (λ found. IsItemOr (option_map item_in found) string.now) }
{
    let Some(count) = key_count(string) else {
        return Ok(None);
    };
    let form = string[0];
    if form == 0 {
        return short_form(alloc, string, count);
    }
    if form == 1 {
        return far_form(alloc, string, count);
    }
    Ok(None)
}

/// How many bytes the key of a string has; None where the string has fewer.
fn key_count(string: &[u8]) -> Option<usize>
    ensures { IsKeyCountOr result string.now }
{
    if string.len() < 3 {
        return None;
    }
    let count = u16::from_be_bytes([string[1], string[2]]) as usize;
    if count > string.len() - 3 {
        return None;
    }
    Some(count)
}

/// The entry of a string whose value stands behind its key.
fn short_form(alloc: Global, string: &[u8], count: usize) -> Result<Option<Form>, Memory>
    requires form { get_or string.now 0 0 ≡ 0 }
    requires count { count ≡ number_at string.now 1 }
    requires within { 3 + count ≤ length string.now }
    ensures { IfOk result (λ found. IsItemOr (option_map item_in found) string.now) }
{
    if string.len() > LONGEST {
        return Ok(None);
    }
    let key = Vec::from_slice(alloc, &string[3..3 + count])?;
    let value = Vec::from_slice(alloc, &string[3 + count..])?;
    Ok(Some(Form::Short { key, value }))
}

/// The entry of a string whose value stands on long pages.
fn far_form(alloc: Global, string: &[u8], count: usize) -> Result<Option<Form>, Memory>
    requires form { get_or string.now 0 0 ≡ 1 }
    requires count { count ≡ number_at string.now 1 }
    requires within { 3 + count ≤ length string.now }
    ensures { IfOk result (λ found. IsItemOr (option_map item_in found) string.now) }
{
    if string.len() - 3 - count != 8 {
        return Ok(None);
    }
    let long = number_at(string, 3 + count);
    let first = number_at(string, 7 + count);
    if 3 + count as u64 + long as u64 <= LONGEST as u64 {
        return Ok(None);
    }
    let key = Vec::from_slice(alloc, &string[3..3 + count])?;
    Ok(Some(Form::Far {
        key,
        count: long,
        first,
    }))
}
