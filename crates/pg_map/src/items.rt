//! Entries as strings of slotted pages.

ghost use Rattle.std.specs.Prelude.{◌≡◌, ◌≢◌, ◌≤◌, ◌<◌, ◌+◌, ◌-◌, ◌^◌, Some, None, IfOk, IfSome, IsNone, length, take, drop};
ghost use Rattle.pg_page.specs.Pages.{number_at};
ghost use Rattle.pg_journal.specs.Pages.{number_in};
ghost use Rattle.pg_map.specs.Kinds.{Short, Far, StringItem, IsStringItem, item_bytes};
ghost use Rattle.pg_map.specs.Kinds.{page_of, count_of};

use ct_base::Memory;
use std::alloc::Global;

/// The string of an entry whose value stands behind its key.
pub fn short_string(alloc: Global, key: &[u8], value: &[u8]) -> Result<Vec<u8>, Memory>
    requires { length key.now < 2 ^ 16 }
    ensures { IfOk result (λ s. s.items ≡ item_bytes (Short key.now value.now)) }
{
    let mut string = Vec::new(alloc);
    string.push(0)?;
    string.extend_from_slice(&(key.len() as u16).to_be_bytes())?;
    string.extend_from_slice(key)?;
    string.extend_from_slice(value)?;
    Ok(string)
}

/// The string of an entry whose value of so many bytes stands on long pages from this one on.
pub fn far_string(alloc: Global, key: &[u8], count: u32, first: u32) -> Result<Vec<u8>, Memory>
    requires { length key.now < 2 ^ 16 }
    ensures { IfOk result (λ s. s.items ≡ item_bytes (Far key.now count first)) }
{
    let mut string = Vec::new(alloc);
    string.push(1)?;
    string.extend_from_slice(&(key.len() as u16).to_be_bytes())?;
    string.extend_from_slice(key)?;
    string.extend_from_slice(&count.to_be_bytes())?;
    string.extend_from_slice(&first.to_be_bytes())?;
    Ok(string)
}

/// The key of a string.
pub fn key_in(string: &[u8]) -> Option<&[u8]>
    ensures key { IfSome result (λ key. key.now ≡ take (number_at string.now 1) (drop 3 string.now)) }
    ensures none { IsNone result → (item : StringItem) → IsStringItem item → string.now ≢ item_bytes item }
{
    if string.len() < 3 {
        return None;
    }
    let count = u16::from_be_bytes([string[1], string[2]]) as usize;
    if count > string.len() - 3 {
        return None;
    }
    Some(&string[3..3 + count])
}

/// The first long page of a string's entry, and how many bytes of its value are on such pages; 0 and 0 where there are none.
pub fn far_in(string: &[u8]) -> (u32, u32)
    ensures { (item : StringItem) → IsStringItem item → string.now ≡ item_bytes item → (result.0 ≡ page_of item) × (result.1 ≡ count_of item) }
{
    if string.len() < 11 || string[0] == 0 {
        return (0, 0);
    }
    let end = string.len();
    (number_at(string, end - 4), number_at(string, end - 8))
}

/// The number of the four bytes at a place.
pub(crate) fn number_at(string: &[u8], at: usize) -> u32
    requires { at + 4 ≤ length string.now }
    ensures { result ≡ number_in string.now at }
{
    let mut bytes = [0; 4];
    bytes.copy_from_slice(&string[at..at + 4]);
    u32::from_be_bytes(bytes)
}
