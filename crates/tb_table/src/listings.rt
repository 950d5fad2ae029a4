//! What tables there are, and the rows of a table.
#![tactic(auto, using(ct_keep::specs::laws::Composing::reads_short))]

ghost use Rattle.std.specs.Prelude.{◌≡◌, ◌++◌, ◌∷◌, [], OnOk, IsPermutation, IsSorted};
ghost use Rattle.std.specs.Option.{option_map};
ghost use Rattle.std.specs.Ordering.{nat_cmp};
ghost use Rattle.std.specs.Cmp.Lexicographic.{slice_cmp};
ghost use Rattle.ct_keep.specs.KeeperViews.{Finds, OnlyReads, Told};
ghost use Rattle.ct_keep.specs.Looks.{next_looks, scan_looks, LooksAtMost};
ghost use Rattle.ct_entry.specs.declared.kinds.Kind.TheVariants as kind;
ghost use Rattle.ct_entry.specs.Kinds.{code};
ghost use Rattle.ct_entry.specs.Keys.{prefix_of};
ghost use Rattle.ct_entry.specs.Listings.{row_after, start_after};
ghost use Rattle.tb_table.specs.Readings.{AreTableNames};

use ct_base::{Memory, Name, RowKey};
use ct_entry::{Kind, next_row_key, owners};
use ct_keep::{KeepFault, Keeper};
use std::alloc::Global;
use std::cmp::Ordering;

/// The least key of a row of the table that is greater than `after`, or the least of all. None where there is none.
///
/// It takes one look-up, and never answers Full.
pub fn next_row<K: Keeper>(
    alloc: Global,
    keeper: &mut K,
    table: &Name,
    after: Option<RowKey>,
) -> Result<Option<RowKey>, KeepFault>
    requires { (K.view keeper.old).ready }
    ensures row { Finds K.view keeper.old result (λ m row. option_map (λ r. r.0) row ≡ row_after (option_map (λ r. r.0) after) kind.RowNumbers table.now m) }
    ensures reads { OnlyReads K.view keeper.old keeper.new result }
    ensures at_most { Told K.view keeper.old (λ m. LooksAtMost K.view keeper.old keeper.new (next_looks (prefix_of kind.RowNumbers table.now ++ start_after after) m)) }
{
    next_row_key(alloc, keeper, Kind::RowNumbers, table, after)
}

/// Which of two names comes first by its bytes.
fn compare(a: &Name, b: &Name) -> Ordering
    ensures { result ≡ slice_cmp nat_cmp a.now b.now }
{
    a.as_str().cmp(b.as_str())
}

/// Puts names into the order of their bytes.
fn sort_names(names: &mut Vec<Name>) -> Result<(), Memory>
    ensures permutation { IsPermutation names.old.items names.new.items }
    ensures sorted { OnOk result (IsSorted (slice_cmp nat_cmp) names.new.items) }
{
    names.sort_by(|a, b| compare(a, b))?;
    Ok(())
}

/// The names of all tables, each once, in the order of their bytes.
///
/// It costs what it finds, and sorts it. It never answers Full.
pub fn tables<K: Keeper>(alloc: Global, keeper: &mut K) -> Result<Vec<Name>, KeepFault>
    requires { (K.view keeper.old).ready }
    ensures names { Finds K.view keeper.old result (λ m names. AreTableNames m names.items) }
    ensures reads { OnlyReads K.view keeper.old keeper.new result }
    ensures at_most { Told K.view keeper.old (λ m. LooksAtMost K.view keeper.old keeper.new (scan_looks (code kind.Tables ∷ []) m)) }
{
    let mut names = owners(alloc, keeper, Kind::Tables)?;
    sort_names(&mut names)?;
    Ok(names)
}
