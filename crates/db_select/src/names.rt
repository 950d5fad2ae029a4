//! The names of all indexes.
#![tactic(auto, using(ct_keep::specs::laws::Composing::reads_on, ct_keep::specs::laws::Composing::reads_short))]

ghost use Rattle.std.specs.Prelude.{◌≡◌, ◌∷◌, [], map, OnOk, IsPermutation, IsSorted};
ghost use Rattle.std.specs.Ordering.{nat_cmp};
ghost use Rattle.std.specs.Cmp.Lexicographic.{slice_cmp};
ghost use Rattle.std.specs.FinMap.{entries};
ghost use Rattle.ct_keep.specs.KeeperViews.{OnlyReads, Told};
ghost use Rattle.ct_keep.specs.Looks.{scan_looks, LooksAtMost};
ghost use Rattle.ct_entry.specs.declared.kinds.Kind.TheVariants as kind;
ghost use Rattle.ct_entry.specs.Kinds.{code};
ghost use Rattle.db_state.specs.States.{Sees};

use ct_base::{Memory, Name};
use ct_entry::{Kind, owners};
use ct_keep::{KeepFault, Keeper};
use std::alloc::Global;
use std::cmp::Ordering;

/// Which of two names comes first by its bytes.
fn compare(a: &Name, b: &Name) -> Ordering
    ensures { result ≡ slice_cmp nat_cmp a.now b.now }
{
    a.as_str().cmp(b.as_str())
}

/// Puts names into the order of their bytes.
fn sort_names(names: &mut Vec<Name>) -> Result<(), Memory>
    ensures permutation { IsPermutation names.old.items names.new.items }
    ensures sorted { OnOk result (IsSorted (slice_cmp nat_cmp) names.new.items) }
{
    names.sort_by(|a, b| compare(a, b))?;
    Ok(())
}

/// The names of all indexes, in the order of their bytes. It scans the entries of all indexes, and sorts their names.
pub(crate) fn index_names<K: Keeper>(alloc: Global, keeper: &mut K) -> Result<Vec<Name>, KeepFault>
    requires { (K.view keeper.old).ready }
    ensures names { Sees K.view keeper.old result (λ m names. names.items ≡ map (λ e. e.0) (entries m.indexes)) }
    ensures reads { OnlyReads K.view keeper.old keeper.new result }
    ensures at_most { Told K.view keeper.old (λ m. LooksAtMost K.view keeper.old keeper.new (scan_looks (code kind.Indexes ∷ []) m)) }
{
    let mut names = owners(alloc, keeper, Kind::Indexes)?;
    sort_names(&mut names)?;
    Ok(names)
}
