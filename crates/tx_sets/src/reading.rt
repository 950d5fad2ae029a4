//! Index sets read from bytes.

ghost use Rattle.std.specs.Prelude.{IfOk};
ghost use Rattle.ct_base.specs.Names.{is_kept};
ghost use Rattle.ct_bytes.specs.Varints.{text_bytes};
ghost use Rattle.tx_settings.specs.PrefsBytes.{Reads, ReadsList, words_bytes};
ghost use Rattle.tx_sets.specs.Sets.{are_names, are_lists, set_bytes};

use crate::sets::SubIndex;
use ct_base::{Listed, Memory, Name};
use ct_bytes::{read_text, read_varint};
use std::alloc::Global;

/// The name that stands from `at` on, and the place behind it.
fn read_name(alloc: Global, bytes: &[u8], at: usize) -> Result<Option<(Name, usize)>, Memory>
    ensures { IfOk result (Reads is_kept text_bytes bytes.now at) }
{
    let Some((text, next)) = read_text(bytes, at) else {
        return Ok(None);
    };
    let Some(name) = Name::of_bytes(alloc, text)? else {
        return Ok(None);
    };
    Ok(Some((name, next)))
}

/// The names that stand from `at` on, and the place behind them.
fn read_names(alloc: Global, bytes: &[u8], at: usize) -> Result<Option<(Vec<Name>, usize)>, Memory>
    ensures { IfOk result (ReadsList are_names words_bytes bytes.now at) }
{
    let Some((count, start)) = read_varint(bytes, at) else {
        return Ok(None);
    };
    let mut names = Vec::new(alloc);
    let mut place = start;
    'names: while names.len() < count as usize {
        let Some((name, next)) = read_name(alloc, bytes, place)? else {
            return Ok(None);
        };
        names.push(name)?;
        place = next;
    }
    Ok(Some((names, place)))
}

/// The same, as the columns of a sub-index.
fn read_sub_index(
    alloc: Global,
    bytes: &[u8],
    at: usize,
) -> Result<Option<(SubIndex, usize)>, Memory>
    ensures { IfOk result (Reads are_names words_bytes bytes.now at) }
{
    let Some((names, next)) = read_names(alloc, bytes, at)? else {
        return Ok(None);
    };
    Ok(Some((Listed::of(names), next)))
}

/// The sub-indexes that stand from `at` on, fewer than 2^32 with fewer than 2^32 names each, and the place behind them. None
/// exactly where none stand there. Its cost is the length of what is read.
pub fn read_set(
    alloc: Global,
    bytes: &[u8],
    at: usize,
) -> Result<Option<(Vec<SubIndex>, usize)>, Memory>
    ensures { IfOk result (ReadsList are_lists set_bytes bytes.now at) }
{
    let Some((count, start)) = read_varint(bytes, at) else {
        return Ok(None);
    };
    let mut set = Vec::new(alloc);
    let mut place = start;
    'lists: while set.len() < count as usize {
        let Some((columns, next)) = read_sub_index(alloc, bytes, place)? else {
            return Ok(None);
        };
        set.push(columns)?;
        place = next;
    }
    Ok(Some((set, place)))
}
