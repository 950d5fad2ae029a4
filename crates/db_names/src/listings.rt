//! Indexes by what they are on.
#![tactic(auto, using(ct_keep::specs::laws::Composing::reads_short))]

ghost use Rattle.std.specs.Prelude.{◌≡◌, ◌∷◌, [], IfOk, OnOk, Some, Err, map};
ghost use Rattle.ct_keep.specs.Content.{Content};
ghost use Rattle.ct_keep.specs.KeeperViews.{Finds, OnlyReads, Told};
ghost use Rattle.ct_keep.specs.Looks.{scan_looks, LooksAtMost};
ghost use Rattle.ct_entry.specs.declared.kinds.Kind.TheVariants as entry;
ghost use Rattle.ct_entry.specs.Kinds.{code};
ghost use Rattle.ct_entry.specs.Keys.{at};
ghost use Rattle.db_names.specs.Findings.{IsIndexOn, AreIndexesOf};
ghost use Rattle.db_names.specs.Parts.{FirstOn, Listed, PairOf};

use crate::heads::{IndexHead, IndexKind};
use crate::reading::{name_on, pair_of};
use ct_base::{Memory, Name};
use ct_entry::Kind;
use ct_keep::{KeepFault, Keeper, scan};
use std::alloc::Global;
use tb_table::Target;

/// An entry: the rest of its key, and its value.
type Entry = (Vec<u8>, Vec<u8>);

/// The name of the first index among the entries that is of this kind and on this target.
fn first_on(
    alloc: Global,
    found: &[Entry],
    target: &Target,
    kind: IndexKind,
) -> Result<Option<Name>, Memory>
    ensures { IfOk result (λ first. FirstOn (record { kind = kind; target = target.now }) (map (λ e. (e.0.items, e.1.items)) found.now) first) }
{
    for (rest, value) in found {
        if let Some(index) = name_on(alloc, rest, value, target, kind)? {
            return Ok(Some(index));
        }
    }
    Ok(None)
}

/// The name of an index of this kind on this column of a table; None exactly where there is none.
///
/// It reads the entries of all indexes whole, each with its copy of preferences, and never answers Full.
pub fn index_on<K: Keeper>(
    alloc: Global,
    keeper: &mut K,
    target: &Target,
    kind: IndexKind,
) -> Result<Option<Name>, KeepFault>
    requires { (K.view keeper.old).ready }
    ensures value { Finds K.view keeper.old result (λ m found. IsIndexOn (at m) target.now kind found) }
    ensures reads { OnlyReads K.view keeper.old keeper.new result }
    ensures at_most { Told K.view keeper.old (λ m. LooksAtMost K.view keeper.old keeper.new (scan_looks (code entry.Indexes ∷ []) m)) }
{
    let found = scan(alloc, keeper, &[Kind::Indexes.code()])?;
    let first = first_on(alloc, &found, target, kind)?;
    Ok(first)
}

/// The indexes among the entries that are on this table, in the same order.
fn pairs_among(
    alloc: Global,
    found: &[Entry],
    table: &Name,
) -> Result<Vec<(Name, IndexHead)>, Memory>
    ensures { IfOk result (λ pairs. Listed (PairOf table.now) (map (λ e. (e.0.items, e.1.items)) found.now) pairs.items) }
{
    let mut pairs = Vec::new(alloc);
    for (rest, value) in found {
        if let Some(pair) = pair_of(alloc, rest, value, table)? {
            pairs.push(pair)?;
        }
    }
    Ok(pairs)
}

/// The indexes on a table, each with its head, in the order of their keys: the shorter names first, and those of a length
/// in the order of their bytes.
///
/// It reads the entries of all indexes whole, each with its copy of preferences, and never answers Full.
pub fn indexes_of<K: Keeper>(
    alloc: Global,
    keeper: &mut K,
    table: &Name,
) -> Result<Vec<(Name, IndexHead)>, KeepFault>
    requires { (K.view keeper.old).ready }
    ensures value { Finds K.view keeper.old result (λ m found. AreIndexesOf (at m) table.now found.items) }
    ensures reads { OnlyReads K.view keeper.old keeper.new result }
    ensures at_most { Told K.view keeper.old (λ m. LooksAtMost K.view keeper.old keeper.new (scan_looks (code entry.Indexes ∷ []) m)) }
{
    let found = scan(alloc, keeper, &[Kind::Indexes.code()])?;
    let pairs = pairs_among(alloc, &found, table)?;
    Ok(pairs)
}
