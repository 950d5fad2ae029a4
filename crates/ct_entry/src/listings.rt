//! The row keys and the owners that entries have.

ghost use Rattle.std.specs.Prelude.{◌≡◌, ◌++◌, ◌∷◌, [], IfOk, OnOk, Some, Err, map};
ghost use Rattle.std.specs.Option.{option_map};
ghost use Rattle.std.specs.FinMap.{entries};
ghost use Rattle.ct_keep.specs.Content.{Content, entries_above, first_entry};
ghost use Rattle.ct_keep.specs.KeeperViews.{Finds, OnlyReads, Told};
ghost use Rattle.ct_keep.specs.Looks.{next_looks, scan_looks, LooksAtMost};
ghost use Rattle.ct_keep.specs.Tail.{tail};
ghost use Rattle.ct_entry.specs.Kinds.{code};
ghost use Rattle.ct_entry.specs.Keys.{prefix_of};
ghost use Rattle.ct_entry.specs.Listings.{row_of, rows_of, rows_under, number_of, start_after, entry_after, row_after, owner_entries, owner_of, owners_of, owners_under};

use crate::entries::{key_bytes, prefix_bytes};
use crate::kinds::Kind;
use ct_base::{Memory, Name, RowKey};
use ct_bytes::{read_row_key, row_key_bytes};
use ct_keep::{KeepFault, Keeper, next_under, scan};
use std::alloc::Global;

/// An entry: the rest of its key, and its value.
type Entry = (Vec<u8>, Vec<u8>);

/// An owner's entries of a kind whose rests begin with these bytes and are longer, in order: what stands after these bytes,
/// and the value.
///
/// It costs what it finds. It never answers Full.
pub fn entries_of<K: Keeper>(
    alloc: Global,
    keeper: &mut K,
    kind: Kind,
    owner: &Name,
    prefix: &[u8],
) -> Result<Vec<(Vec<u8>, Vec<u8>)>, KeepFault>
    requires { (K.view keeper.old).ready }
    ensures entries { Finds K.view keeper.old result (λ m found. map (λ e. (e.0.items, e.1.items)) found.items ≡ owner_entries kind owner.now prefix.now m) }
    ensures reads { OnlyReads K.view keeper.old keeper.new result }
    ensures at_most { Told K.view keeper.old (λ m. LooksAtMost K.view keeper.old keeper.new (scan_looks (prefix_of kind owner.now ++ prefix.now) m)) }
{
    let beginning = key_bytes(alloc, kind, owner, prefix)?;
    scan(alloc, keeper, &beginning)
}

/// The row key that a rest or a value spells; None where it hasn't 8 bytes.
pub fn row_in(rest: &[u8]) -> Option<RowKey>
    ensures { option_map (λ r. r.0) result ≡ row_of rest.now }
{
    let row = read_row_key(rest, 0)?;
    if rest.len() == 8 { Some(row) } else { None }
}

/// The row keys that the rests of entries spell, in order.
fn rows_among(alloc: Global, found: &[Entry]) -> Result<Vec<RowKey>, Memory>
    ensures { IfOk result (λ rows. map (λ r. r.0) rows.items ≡ rows_of (map (λ e. (e.0.items, e.1.items)) found.now)) }
{
    let mut rows = Vec::new(alloc);
    for (rest, _value) in found {
        if let Some(row) = row_in(rest) {
            rows.push(row)?;
        }
    }
    Ok(rows)
}

/// The row keys of an owner's entries of a kind, in order. What isn't 8 bytes long is left out.
///
/// It costs what it finds. It never answers Full.
pub fn row_keys<K: Keeper>(
    alloc: Global,
    keeper: &mut K,
    kind: Kind,
    owner: &Name,
) -> Result<Vec<RowKey>, KeepFault>
    requires { (K.view keeper.old).ready }
    ensures rows { Finds K.view keeper.old result (λ m rows. map (λ r. r.0) rows.items ≡ rows_under kind owner.now m) }
    ensures reads { OnlyReads K.view keeper.old keeper.new result }
    ensures at_most { Told K.view keeper.old (λ m. LooksAtMost K.view keeper.old keeper.new (scan_looks (prefix_of kind owner.now) m)) }
{
    let prefix = prefix_bytes(alloc, kind, owner)?;
    let found = scan(alloc, keeper, &prefix)?;
    let rows = rows_among(alloc, &found)?;
    Ok(rows)
}

/// The first entry under the prefix whose rest is above that of a row, or the first of all.
fn next_in<K: Keeper>(
    alloc: Global,
    keeper: &mut K,
    prefix: &[u8],
    after: Option<RowKey>,
) -> Result<Option<Entry>, KeepFault>
    requires { (K.view keeper.old).ready }
    ensures entry { Finds K.view keeper.old result (λ m found. option_map (λ e. (e.0.items, e.1.items)) found ≡ entry_after (number_of after) prefix.now m) }
    ensures reads { OnlyReads K.view keeper.old keeper.new result }
    ensures at_most { Told K.view keeper.old (λ m. LooksAtMost K.view keeper.old keeper.new (next_looks (prefix.now ++ start_after after) m)) }
{
    match after {
        None => next_under(alloc, keeper, prefix, &[]),
        Some(row) => next_under(alloc, keeper, prefix, &row_key_bytes(row)),
    }
}

/// The row key of the first of an owner's entries of a kind after that of a row, or of the first of all. None where there
/// is none, or where the entry's rest isn't 8 bytes long.
///
/// It takes one look-up, and never answers Full.
pub fn next_row_key<K: Keeper>(
    alloc: Global,
    keeper: &mut K,
    kind: Kind,
    owner: &Name,
    after: Option<RowKey>,
) -> Result<Option<RowKey>, KeepFault>
    requires { (K.view keeper.old).ready }
    ensures row { Finds K.view keeper.old result (λ m row. option_map (λ r. r.0) row ≡ row_after (number_of after) kind owner.now m) }
    ensures reads { OnlyReads K.view keeper.old keeper.new result }
    ensures at_most { Told K.view keeper.old (λ m. LooksAtMost K.view keeper.old keeper.new (next_looks (prefix_of kind owner.now ++ start_after after) m)) }
{
    let prefix = prefix_bytes(alloc, kind, owner)?;
    match next_in(alloc, keeper, &prefix, after)? {
        None => Ok(None),
        Some((rest, _value)) => Ok(row_in(&rest)),
    }
}

/// The name that the rest of an entry spells: its length in one byte, and its bytes; None where it spells none.
pub fn owner_in(alloc: Global, rest: &[u8]) -> Result<Option<Name>, Memory>
    ensures { IfOk result (λ name. name ≡ owner_of rest.now) }
{
    let Some((length, name)) = rest.split_first() else {
        return Ok(None);
    };
    if name.len() != usize::from(*length) {
        return Ok(None);
    }
    Name::of_bytes(alloc, name)
}

/// The names that the rests of entries spell, in order.
fn owners_among(alloc: Global, found: &[Entry]) -> Result<Vec<Name>, Memory>
    ensures { IfOk result (λ names. names.items ≡ owners_of (map (λ e. (e.0.items, e.1.items)) found.now)) }
{
    let mut names = Vec::new(alloc);
    for (rest, _value) in found {
        if let Some(name) = owner_in(alloc, rest)? {
            names.push(name)?;
        }
    }
    Ok(names)
}

/// The owners of a kind whose keys have no rest, in the order of the keys: the shorter names first, and those of a length
/// in the order of their bytes. What is no name after its length is left out.
///
/// It costs what it finds. It never answers Full.
pub fn owners<K: Keeper>(alloc: Global, keeper: &mut K, kind: Kind) -> Result<Vec<Name>, KeepFault>
    requires { (K.view keeper.old).ready }
    ensures owners { Finds K.view keeper.old result (λ m names. names.items ≡ owners_under kind m) }
    ensures reads { OnlyReads K.view keeper.old keeper.new result }
    ensures at_most { Told K.view keeper.old (λ m. LooksAtMost K.view keeper.old keeper.new (scan_looks (code kind ∷ []) m)) }
{
    let found = scan(alloc, keeper, &[kind.code()])?;
    let names = owners_among(alloc, &found)?;
    Ok(names)
}
