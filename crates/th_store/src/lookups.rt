//! Thesauri by their names, as a keeper has them.
#![tactic(auto, using(ct_keep::specs::laws::Composing::reads_on, ct_keep::specs::laws::Composing::reads_short))]

ghost use Rattle.std.specs.Prelude.{◌≡◌, IfOk, OnOk, IsPermutation, IsSorted, length, nat_le};
ghost use Rattle.std.specs.Option.{option_map};
ghost use Rattle.std.specs.FinMap.{get};
ghost use Rattle.std.specs.Ordering.{nat_cmp};
ghost use Rattle.std.specs.Cmp.Lexicographic.{slice_cmp};
ghost use Rattle.ct_keep.specs.KeeperViews.{OnlyReads, Told};
ghost use Rattle.ct_keep.specs.Looks.{scan_looks, LooksAtMost};
ghost use Rattle.ct_entry.specs.declared.kinds.Kind.TheVariants as kind;
ghost use Rattle.ct_entry.specs.Keys.{prefix_of};
ghost use Rattle.th_graph.specs.Pairs.{has_term_pair, term_pair};
ghost use Rattle.th_graph.specs.Relating.{has_preferred, is_known};
ghost use Rattle.th_store.specs.Rules.{thesaurus_limit};
ghost use Rattle.th_store.specs.Sees.{AreNames, OfThesaurus, SeesThesauri, SeesThesaurus, has_thesaurus, is_at_pair_limit, is_at_thesaurus_limit};
ghost use Rattle.th_store.specs.Thesauri.{pairs_of};

use crate::reading::thesaurus_in;
use crate::spelling::{first_bytes, pair_bytes};
use ct_base::{Memory, Name};
use ct_entry::{Kind, entries_of, entry_count, has_entry, owners};
use ct_keep::{KeepFault, Keeper};
use q_tree::Relation;
use std::alloc::Global;
use std::cmp::Ordering;
use th_graph::{PAIR_LIMIT, PairKind, Term, Thesaurus, stated_pair};

/// How many thesauri there are at most.
const THESAURUS_LIMIT: usize = 256;

/// Whether there is a thesaurus of this name. It never answers Full.
pub fn has_thesaurus<K: Keeper>(
    alloc: Global,
    keeper: &mut K,
    name: &Name,
) -> Result<bool, KeepFault>
    requires { (K.view keeper.old).ready }
    ensures there { SeesThesauri K.view keeper.old result (λ ts there. there ≡ has_thesaurus name.now ts) }
    ensures reads { OnlyReads K.view keeper.old keeper.new result }
{
    has_entry(alloc, keeper, Kind::Thesauri, name, &[])
}

/// The thesaurus of a name, its pairs in the order of their entries. None where there is no such thesaurus. It scans the pairs once, and each
/// costs a logarithm more. It never answers Full.
pub fn load<K: Keeper>(
    alloc: Global,
    keeper: &mut K,
    name: &Name,
) -> Result<Option<Thesaurus>, KeepFault>
    requires { (K.view keeper.old).ready }
    ensures thesaurus { SeesThesauri K.view keeper.old result (λ ts found. found ≡ option_map pairs_of (get ts name.now)) }
    ensures reads { OnlyReads K.view keeper.old keeper.new result }
    ensures at_most { Told K.view keeper.old (λ m. LooksAtMost K.view keeper.old keeper.new (scan_looks (prefix_of kind.Relations name.now) m)) }
{
    if !has_entry(alloc, keeper, Kind::Thesauri, name, &[])? {
        return Ok(None);
    }
    let found = entries_of(alloc, keeper, Kind::Relations, name, &[])?;
    let thesaurus = thesaurus_in(alloc, &found)?;
    Ok(Some(thesaurus))
}

/// Which of two names comes first by its bytes.
fn compare(a: &Name, b: &Name) -> Ordering
    ensures { result ≡ slice_cmp nat_cmp a.now b.now }
{
    a.as_str().cmp(b.as_str())
}

/// Puts names into the order of their bytes.
fn sort_names(names: &mut Vec<Name>) -> Result<(), Memory>
    ensures permutation { IsPermutation names.old.items names.new.items }
    ensures sorted { OnOk result (IsSorted (slice_cmp nat_cmp) names.new.items) }
{
    names.sort_by(|a, b| compare(a, b))?;
    Ok(())
}

/// The names of all thesauri, each once and in the order of their bytes. It reads the entries of thesauri, and none of pairs. It never
/// answers Full.
pub fn names<K: Keeper>(alloc: Global, keeper: &mut K) -> Result<Vec<Name>, KeepFault>
    requires { (K.view keeper.old).ready }
    ensures names { SeesThesauri K.view keeper.old result (λ ts names. AreNames names.items ts) }
    ensures reads { OnlyReads K.view keeper.old keeper.new result }
{
    let mut names = owners(alloc, keeper, Kind::Thesauri)?;
    sort_names(&mut names)?;
    Ok(names)
}

/// Whether these are the names of as many thesauri as there may be.
fn reach_limit(names: &[Name]) -> bool
    ensures { result ≡ nat_le thesaurus_limit (length names.now) }
{
    names.len() >= THESAURUS_LIMIT
}

/// Whether there are as many thesauri as there may be, which is 256. It reads the entries of thesauri, and none of pairs. It never
/// answers Full.
pub fn is_at_thesaurus_limit<K: Keeper>(alloc: Global, keeper: &mut K) -> Result<bool, KeepFault>
    requires { (K.view keeper.old).ready }
    ensures full { SeesThesauri K.view keeper.old result (λ ts full. full ≡ is_at_thesaurus_limit ts) }
    ensures reads { OnlyReads K.view keeper.old keeper.new result }
{
    let names = owners(alloc, keeper, Kind::Thesauri)?;
    Ok(reach_limit(&names))
}

/// Whether a thesaurus has as many pairs as it may have, which is 10,000. The keeper counts them, and no entry is looked up.
pub fn is_at_pair_limit<K: Keeper>(alloc: Global, keeper: &K, name: &Name) -> Result<bool, Memory>
    requires { (K.view keeper.now).ready }
    ensures { Told K.view keeper.now (λ m. IfOk result (λ full. OfThesaurus m name.now (λ ps. full ≡ is_at_pair_limit ps))) }
{
    let count = entry_count(alloc, keeper, Kind::Relations, name)?;
    Ok(count >= PAIR_LIMIT as u64)
}

/// Whether a thesaurus has a pair. It takes one look-up.
fn has_pair<K: Keeper>(
    alloc: Global,
    keeper: &mut K,
    name: &Name,
    kind: PairKind,
    first: &Term,
    second: &Term,
) -> Result<bool, KeepFault>
    requires { (K.view keeper.old).ready }
    ensures there { SeesThesaurus K.view keeper.old name.now result (λ ps there. there ≡ has_term_pair (term_pair kind first.now second.now) (pairs_of ps)) }
    ensures reads { OnlyReads K.view keeper.old keeper.new result }
{
    let part = pair_bytes(alloc, kind, first, second)?;
    has_entry(alloc, keeper, Kind::Relations, name, &part)
}

/// Whether a thesaurus has a term that is preferred to this one. It takes one look-up, and one more where there is such a term.
fn has_preferred<K: Keeper>(
    alloc: Global,
    keeper: &mut K,
    name: &Name,
    term: &Term,
) -> Result<bool, KeepFault>
    requires { (K.view keeper.old).ready }
    ensures there { SeesThesaurus K.view keeper.old name.now result (λ ps there. there ≡ has_preferred term.now (pairs_of ps)) }
    ensures reads { OnlyReads K.view keeper.old keeper.new result }
{
    let beginning = first_bytes(alloc, PairKind::ToPreferred, term)?;
    let found = entries_of(alloc, keeper, Kind::Relations, name, &beginning)?;
    Ok(!found.is_empty())
}

/// Whether a thesaurus has the pair which states that `b` is a synonym of `a`, broader or narrower than it, or preferred to it; or is to get
/// one more preferred term of `a`. It takes at most three look-ups, however many pairs the thesaurus has. It never answers Full.
pub fn is_known<K: Keeper>(
    alloc: Global,
    keeper: &mut K,
    name: &Name,
    relation: Relation,
    a: &Term,
    b: &Term,
) -> Result<bool, KeepFault>
    requires { (K.view keeper.old).ready }
    ensures known { SeesThesaurus K.view keeper.old name.now result (λ ps known. known ≡ is_known relation a.now b.now (pairs_of ps)) }
    ensures reads { OnlyReads K.view keeper.old keeper.new result }
{
    let (kind, first, second) = stated_pair(relation, a, b);
    if has_pair(alloc, keeper, name, kind, first, second)? {
        return Ok(true);
    }
    match relation {
        Relation::Preferred => has_preferred(alloc, keeper, name, a),
        _ => Ok(false),
    }
}
