//! OPTIMIZE_INDEX.
#![tactic(auto, using(ct_keep::specs::laws::Composing::reads_on, ct_keep::specs::laws::Composing::reads_short))]

ghost use Rattle.std.specs.Prelude.{◌≡◌, [], ◌∷◌, None, IfOk, OnOk, true};
ghost use Rattle.ct_keep.specs.KeeperViews.{OnlyReads, Told};
ghost use Rattle.ct_entry.specs.declared.kinds.Kind.TheVariants as kind;
ghost use Rattle.ct_entry.specs.Keys.{at, key};
ghost use Rattle.tx_settings.specs.Attributes.{can_be_set};
ghost use Rattle.ix_repack.specs.Putting.{AddsPuts, IsIndexRow};
ghost use Rattle.ix_context.specs.Places.{IsPlaceRead, place_bytes, tidiness_of};
ghost use Rattle.ix_context.specs.Spelling.{index_change};
ghost use Rattle.ix_context.specs.Changes.{Adds};
ghost use Rattle.ix_context.specs.Shapes.{KeepsShape};
ghost use Rattle.ix_context.specs.Levels.{Fast, Full, FullUpTo, made_packed};
ghost use Rattle.ix_optimize.specs.declared.levels.Progress.TheVariants.{Done as AllDone};
ghost use Rattle.ix_optimize.specs.Optimising.{level_of, RepacksAll, OptimisesEntry, OptimisesIndex, ToldIndex};

use crate::levels::{Level, Progress};
use crate::places::{place_behind, term_at};
use ct_base::{Memory, Name};
use ct_keep::{Batch, KeepFault, Keeper};
use ix_context::{IndexEntry, Place, Tidiness, put_index, read_index};
use ix_repack::repack_terms;
use std::alloc::Global;

/// How tidy an index is once its rows are packed.
fn packed(tidiness: Tidiness) -> Tidiness
    ensures { tidiness_of result ≡ made_packed (tidiness_of tidiness) }
{
    match tidiness {
        Tidiness::Untidy => Tidiness::Packed,
        Tidiness::Packed => Tidiness::Packed,
        Tidiness::Clean => Tidiness::Clean,
    }
}

/// Adds the changes that put the rows of all terms anew: of all documents, or of those that are still rows of the table.
fn repack_all<K: Keeper>(
    alloc: Global,
    keeper: &mut K,
    batch: &mut Batch,
    index: &Name,
    mapped: bool,
) -> Result<(), KeepFault>
    requires { (K.view keeper.old).ready }
    ensures changes { Told K.view keeper.old (λ m. RepacksAll m index.now mapped batch.old batch.new result) }
    ensures puts { OnOk result (AddsPuts (IsIndexRow index.now) batch.old batch.new) }
    ensures reads { OnlyReads K.view keeper.old keeper.new result }
{
    let done = repack_terms(alloc, keeper, batch, index, mapped, None, u64::MAX)?;
    if done.more {
        // so many terms fit into no memory
        return Err(KeepFault::Memory);
    }
    Ok(())
}

/// Adds the change that puts the entry of an index once more, so tidy, and with this place.
fn put_tidied(
    alloc: Global,
    batch: &mut Batch,
    index: &Name,
    entry: &IndexEntry,
    tidiness: Tidiness,
    place: &Place,
) -> Result<(), Memory>
    requires place { IsPlaceRead place.now }
    requires set { can_be_set entry.now.prefs.lexer ≡ true }
    ensures adds { Adds batch.old batch.new result (index_change index.now entry.now.target entry.now.prefs entry.now.next_document (tidiness_of tidiness) (place_bytes place.now) ∷ []) }
    ensures shaped { KeepsShape batch.old batch.new result }
{
    put_index(
        alloc,
        batch,
        index,
        &entry.target,
        &entry.prefs,
        entry.next_document,
        tidiness,
        place,
    )
}

/// FAST: the rows of each term become the split of its posting list.
fn optimize_fast<K: Keeper>(
    alloc: Global,
    keeper: &mut K,
    batch: &mut Batch,
    index: &Name,
    entry: &IndexEntry,
) -> Result<Progress, KeepFault>
    requires ready { (K.view keeper.old).ready }
    requires place { IsPlaceRead entry.now.place }
    requires set { can_be_set entry.now.prefs.lexer ≡ true }
    ensures optimised { Told K.view keeper.old (λ m. OptimisesEntry m index.now Fast entry.now batch.old batch.new result) }
    ensures shaped { KeepsShape batch.old batch.new result }
    ensures reads { OnlyReads K.view keeper.old keeper.new result }
{
    // Read so that the proof knows that it is a name.
    let _named = index.as_str();
    repack_all(alloc, keeper, batch, index, false)?;
    let tidiness = packed(entry.tidiness);
    put_tidied(alloc, batch, index, entry, tidiness, &entry.place)?;
    Ok(Progress::Done)
}

/// FULL: they become the split of what the documents that are still rows of the table have.
fn optimize_full<K: Keeper>(
    alloc: Global,
    keeper: &mut K,
    batch: &mut Batch,
    index: &Name,
    entry: &IndexEntry,
) -> Result<Progress, KeepFault>
    requires ready { (K.view keeper.old).ready }
    requires set { can_be_set entry.now.prefs.lexer ≡ true }
    ensures optimised { Told K.view keeper.old (λ m. OptimisesEntry m index.now Full entry.now batch.old batch.new result) }
    ensures shaped { KeepsShape batch.old batch.new result }
    ensures reads { OnlyReads K.view keeper.old keeper.new result }
{
    // Read so that the proof knows that it is a name.
    let _named = index.as_str();
    repack_all(alloc, keeper, batch, index, true)?;
    put_tidied(alloc, batch, index, entry, Tidiness::Clean, &Place::Start)?;
    Ok(Progress::Done)
}

/// FULL of so many terms at most, behind the place in the entry of the index.
fn optimize_some<K: Keeper>(
    alloc: Global,
    keeper: &mut K,
    batch: &mut Batch,
    index: &Name,
    entry: &IndexEntry,
    most: u32,
) -> Result<Progress, KeepFault>
    requires ready { (K.view keeper.old).ready }
    requires place { IsPlaceRead entry.now.place }
    requires set { can_be_set entry.now.prefs.lexer ≡ true }
    ensures optimised { Told K.view keeper.old (λ m. OptimisesEntry m index.now (FullUpTo most) entry.now batch.old batch.new result) }
    ensures shaped { KeepsShape batch.old batch.new result }
    ensures reads { OnlyReads K.view keeper.old keeper.new result }
{
    // Read so that the proof knows that it is a name.
    let _named = index.as_str();
    let from = term_at(alloc, &entry.place)?;
    let done = repack_terms(alloc, keeper, batch, index, true, from, u64::from(most))?;
    if !done.more {
        put_tidied(alloc, batch, index, entry, entry.tidiness, &Place::Start)?;
        return Ok(Progress::Done);
    }
    let place = place_behind(alloc, &done.last)?;
    put_tidied(alloc, batch, index, entry, entry.tidiness, &place)?;
    Ok(Progress::More(place))
}

/// Adds the changes of an optimisation of a CONTEXT index: the rows of each handled term go, and the split of its posting list comes, with
/// FULL of those documents alone that are still rows of the table. FAST and FULL handle all terms, and FULL with a limit so many at
/// most, those behind the place in the entry of the index, in the order of their keys. Then the entry comes, as tidy as the
/// index is now, and with the place where the next one goes on. Nothing where there is no such index.
///
/// Its cost is the length of the rows of the handled terms, and some look-ups for each, with FULL one for each document of theirs besides. It
/// holds the rows of one term, and the changes of all. It commits nothing: the caller commits the batch, so it never answers Full. At an
/// error the batch may have some of the changes.
pub fn optimize<K: Keeper>(
    alloc: Global,
    keeper: &mut K,
    batch: &mut Batch,
    index: &Name,
    level: Level,
) -> Result<Progress, KeepFault>
    requires { (K.view keeper.old).ready }
    ensures optimised { ToldIndex K.view keeper.old index.now (λ m x place. OptimisesIndex m index.now (level_of level) x place batch.old batch.new result) }
    ensures no_entry { Told K.view keeper.old (λ m. at m (key kind.Indexes index.now []) ≡ None → IfOk result (λ progress. (progress ≡ AllDone) × (batch.new ≡ batch.old))) }
    ensures shaped { KeepsShape batch.old batch.new result }
    ensures reads { OnlyReads K.view keeper.old keeper.new result }
{
    let Some(entry) = read_index(alloc, keeper, index)? else {
        return Ok(Progress::Done);
    };
    match level {
        Level::Fast => optimize_fast(alloc, keeper, batch, index, &entry),
        Level::Full => optimize_full(alloc, keeper, batch, index, &entry),
        Level::FullUpTo(most) => optimize_some(alloc, keeper, batch, index, &entry, most),
    }
}
