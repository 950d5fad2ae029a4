//! Pages, read back from their bytes.

ghost use Rattle.std.specs.Prelude.{◌<◌, IfOk};
ghost use Rattle.std.specs.Option.{option_map};
ghost use Rattle.pg_map.specs.Kinds.{Long};
ghost use Rattle.pg_map.specs.SheetReading.{IsFreeOr, IsLongOr, IsSheetOr, IsSlottedOr, TellsLong};
ghost use Rattle.pg_map.specs.Sheets.{sheet_kind};

use crate::sheets::{Sheet, long_bytes};
use ct_base::Memory;
use pg_page::Page;
use std::alloc::Global;

/// The page of these bytes; None exactly where they are those of no page.
pub fn sheet_of(alloc: Global, bytes: &[u8; 4096]) -> Result<Option<Sheet>, Memory>
    ensures { IfOk result (λ found. IsSheetOr (option_map sheet_kind found) bytes.now) }
{
    let kind = bytes[0];
    if kind == 0 {
        return Ok(free_sheet(bytes));
    }
    if kind == 1 {
        return Ok(slotted_sheet(bytes));
    }
    if kind == 2 {
        return long_sheet(alloc, bytes);
    }
    Ok(None)
}

/// A free page, if the bytes are its.
fn free_sheet(bytes: &[u8; 4096]) -> Option<Sheet>
    ensures { IsFreeOr (option_map sheet_kind result) bytes.now }
{
    if *bytes == [0; 4096] {
        Some(Sheet::Free)
    } else {
        None
    }
}

/// The slotted page of these bytes, if they are those of one.
fn slotted_sheet(bytes: &[u8; 4096]) -> Option<Sheet>
    ensures { IsSlottedOr (option_map sheet_kind result) bytes.now }
{
    match Page::read(bytes) {
        Ok(page) => Some(Sheet::Slotted(page)),
        Err(_) => None,
    }
}

/// The number of the next page and how many bytes are used, as the first bytes of a long page tell.
fn long_parts(bytes: &[u8; 4096]) -> (u32, usize)
    ensures parts { TellsLong bytes.now result.0 result.1 }
{
    let next = u32::from_be_bytes([bytes[1], bytes[2], bytes[3], bytes[4]]);
    let count = u16::from_be_bytes([bytes[5], bytes[6]]);
    (next, count as usize)
}

/// The long page of these bytes, if they are those of one.
fn long_sheet(alloc: Global, bytes: &[u8; 4096]) -> Result<Option<Sheet>, Memory>
    ensures { IfOk result (λ found. IsLongOr (option_map sheet_kind found) bytes.now) }
{
    let (next, count) = long_parts(bytes);
    if count < 1 || count > 4088 {
        return Ok(None);
    }
    if next != 0 && count < 4088 {
        return Ok(None);
    }
    let used = &bytes[8..8 + count];
    if *bytes != long_bytes(next, used) {
        return Ok(None);
    }
    Ok(Some(Sheet::Long {
        next,
        bytes: Vec::from_slice(alloc, used)?,
    }))
}
