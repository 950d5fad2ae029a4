//! What rows that come, go and are set make of the entries of a catalogue.

ghost use Rattle.std.specs.Prelude.{◌≡◌, ◌≤◌, ◌&&◌, [], ◌∷◌, length, true, false, IfOk, OnErr};
ghost use Rattle.ct_entry.specs.declared.kinds.Kind.TheVariants as kind;
ghost use Rattle.ct_entry.specs.Keys.{IsToken, catalogue_part, key, same_list};
ghost use Rattle.ct_entry.specs.Lists.{EachIs};
ghost use Rattle.cat_index.specs.Changes.{Adds, filed, filing_changes, same_words, set_changes, sub_changes, words_change};
ghost use Rattle.cat_index.specs.Shapes.{IsFiling, KeepsShape};

use crate::filings::Filing;
use ct_base::{Bytes, Memory, Name, RowKey};
use ct_bytes::row_key_bytes;
use ct_entry::{Kind, put_entry, remove_entry};
use ct_keep::Batch;
use std::alloc::Global;
use tx_chars::Key;

/// The rest of the key of a row's entry under a word.
fn word_part(
    alloc: Global,
    sub: u8,
    word: &[u8],
    values: &[u8],
    row: RowKey,
) -> Result<Vec<u8>, Memory>
    requires { length word.now ≤ 255 }
    ensures { IfOk result (λ part. part.items ≡ catalogue_part sub word.now values.now row.0) }
{
    let mut part = Vec::new(alloc);
    part.push(sub)?;
    part.push(word.len() as u8)?;
    part.extend_from_slice(word)?;
    part.extend_from_slice(values)?;
    part.extend_from_slice(&row_key_bytes(row))?;
    Ok(part)
}

/// Adds the change by which a row has the entry of this key, or doesn't have it.
fn change_entry(
    alloc: Global,
    batch: &mut Batch,
    index: &Name,
    part: &[u8],
    there: bool,
) -> Result<(), Memory>
    ensures { Adds batch.old batch.new result ((key kind.Catalogue index.now part.now, filed there) ∷ []) }
{
    if there {
        put_entry(alloc, batch, Kind::Catalogue, index, part, Vec::new(alloc))
    } else {
        remove_entry(alloc, batch, Kind::Catalogue, index, part)
    }
}

/// Adds the changes by which a row has entries under these words in a sub-index, or doesn't have them.
fn change_words(
    alloc: Global,
    batch: &mut Batch,
    index: &Name,
    row: RowKey,
    sub: u8,
    words: &[Key],
    values: &[u8],
    there: bool,
) -> Result<(), Memory>
    requires { EachIs IsToken words.now }
    ensures { Adds batch.old batch.new result (words_change index.now row.0 sub words.now there values.now) }
{
    let mut rest = words;
    while let [word, later @ ..] = rest {
        let part = word_part(alloc, sub, word.as_slice(), values, row)?;
        change_entry(alloc, batch, index, &part, there)?;
        rest = later;
    }
    Ok(())
}

/// Adds the changes by which a row has its entries in each sub-index, or doesn't have them. The batch is unchanged where it fails.
fn change_row(
    alloc: Global,
    batch: &mut Batch,
    index: &Name,
    row: RowKey,
    filing: &Filing,
    there: bool,
) -> Result<(), Memory>
    requires { IsFiling filing.now }
    ensures ok { Adds batch.old batch.new result (filing_changes index.now row.0 filing.now there) }
    ensures err { OnErr result (batch.new ≡ batch.old) }
{
    let mut changes = Batch::new(alloc);
    let mut sub = 0;
    let mut rest = filing.values.as_slice();
    'each: while let Some((values, later)) = rest.split_first() {
        change_words(
            alloc,
            &mut changes,
            index,
            row,
            sub,
            filing.words.as_slice(),
            values.as_slice(),
            there,
        )?;
        sub += 1;
        rest = later;
    }
    batch.append(changes)
}

/// Adds the changes of a row that is new in a catalogue, where it has this: its entries in each sub-index.
///
/// No entry is read. It fails only for want of memory, and then the batch is unchanged.
pub fn row_comes(
    alloc: Global,
    batch: &mut Batch,
    index: &Name,
    row: RowKey,
    filing: &Filing,
) -> Result<(), Memory>
    requires { IsFiling filing.now }
    ensures ok { Adds batch.old batch.new result (filing_changes index.now row.0 filing.now true) }
    ensures err { OnErr result (batch.new ≡ batch.old) }
    ensures shaped { KeepsShape batch.old batch.new result }
{
    // Read so that the proof knows that it is a name, and a row.
    let _named = index.as_str();
    let _key = row.0;
    change_row(alloc, batch, index, row, filing, true)
}

/// Adds the changes of a row that goes from a catalogue, where it had this: its entries go from each sub-index.
///
/// No entry is read. It fails only for want of memory, and then the batch is unchanged.
pub fn row_goes(
    alloc: Global,
    batch: &mut Batch,
    index: &Name,
    row: RowKey,
    filing: &Filing,
) -> Result<(), Memory>
    requires { IsFiling filing.now }
    ensures ok { Adds batch.old batch.new result (filing_changes index.now row.0 filing.now false) }
    ensures err { OnErr result (batch.new ≡ batch.old) }
    ensures shaped { KeepsShape batch.old batch.new result }
{
    // Read so that the proof knows that it is a name, and a row.
    let _named = index.as_str();
    let _key = row.0;
    change_row(alloc, batch, index, row, filing, false)
}

/// Whether both have the same bytes.
fn are_same_bytes(a: &[u8], b: &[u8]) -> bool
    ensures { result ≡ same_list a.now b.now }
{
    a == b
}

/// Whether both lists have the same words.
fn are_same(a: &[Key], b: &[Key]) -> bool
    ensures { result ≡ same_words a.now b.now }
{
    let mut left = a;
    let mut right = b;
    while let [x, xs @ ..] = left {
        let [y, ys @ ..] = right else {
            return false;
        };
        if !are_same_bytes(x.as_slice(), y.as_slice()) {
            return false;
        }
        left = xs;
        right = ys;
    }
    right.is_empty()
}

/// Whether the entries of a sub-index stay: whether the words and the values are the same.
fn stays(same_words: bool, values: &[u8], new_values: &[u8]) -> bool
    ensures { result ≡ (same_words && same_list values.now new_values.now) }
{
    same_words && are_same_bytes(values, new_values)
}

/// Adds the changes of a row that is set, in one sub-index: its entries go and others come, unless they are the same.
fn set_words(
    alloc: Global,
    batch: &mut Batch,
    index: &Name,
    row: RowKey,
    sub: u8,
    words: &[Key],
    values: &[u8],
    new_words: &[Key],
    new_values: &[u8],
    same: bool,
) -> Result<(), Memory>
    requires words { EachIs IsToken words.now }
    requires new_words { EachIs IsToken new_words.now }
    requires same { same ≡ same_words words.now new_words.now }
    ensures { Adds batch.old batch.new result (sub_changes index.now row.0 sub words.now values.now new_words.now new_values.now) }
{
    if stays(same, values, new_values) {
        return Ok(());
    }
    change_words(alloc, batch, index, row, sub, words, values, false)?;
    change_words(alloc, batch, index, row, sub, new_words, new_values, true)
}

/// Adds the changes of a row that is set, in each sub-index. The batch is unchanged where it fails.
fn set_row(
    alloc: Global,
    batch: &mut Batch,
    index: &Name,
    row: RowKey,
    old: &Filing,
    new: &Filing,
) -> Result<(), Memory>
    requires old { IsFiling old.now }
    requires new { IsFiling new.now }
    ensures ok { Adds batch.old batch.new result (set_changes index.now row.0 old.now new.now) }
    ensures err { OnErr result (batch.new ≡ batch.old) }
{
    let same = are_same(old.words.as_slice(), new.words.as_slice());
    let mut changes = Batch::new(alloc);
    let mut sub = 0;
    let mut before = old.values.as_slice();
    let mut after = new.values.as_slice();
    'each: while let Some((values, earlier)) = before.split_first() {
        let Some((new_values, later)) = after.split_first() else {
            break;
        };
        set_words(
            alloc,
            &mut changes,
            index,
            row,
            sub,
            old.words.as_slice(),
            values.as_slice(),
            new.words.as_slice(),
            new_values.as_slice(),
            same,
        )?;
        sub += 1;
        before = earlier;
        after = later;
    }
    batch.append(changes)
}

/// Adds the changes of a row that is set, where it had `old` and has `new`, in as many sub-indexes. In each sub-index in which its
/// words and values stay, nothing is changed.
///
/// No entry is read. It fails only for want of memory, and then the batch is unchanged.
pub fn row_is_set(
    alloc: Global,
    batch: &mut Batch,
    index: &Name,
    row: RowKey,
    old: &Filing,
    new: &Filing,
) -> Result<(), Memory>
    requires old { IsFiling old.now }
    requires new { IsFiling new.now }
    ensures ok { Adds batch.old batch.new result (set_changes index.now row.0 old.now new.now) }
    ensures err { OnErr result (batch.new ≡ batch.old) }
    ensures shaped { KeepsShape batch.old batch.new result }
{
    // Read so that the proof knows that it is a name, and a row.
    let _named = index.as_str();
    let _key = row.0;
    set_row(alloc, batch, index, row, old, new)
}
