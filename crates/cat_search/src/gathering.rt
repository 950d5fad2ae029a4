//! The rows at which a walk over a sub-index stops and which meet a query.
#![tactic(auto, using(ct_keep::specs::laws::Composing::reads_on, ct_keep::specs::laws::Composing::reads_short, crate::proofs::Counting::read_nothing, crate::proofs::Counting::read_one))]

ghost use Rattle.std.specs.Prelude.{◌≡◌, ◌++◌, ◌∷◌, [], ℤ, true, map, IfOk, OnOk};
ghost use Rattle.std.specs.Bool.{if◌then◌else◌};
ghost use Rattle.std.specs.Option.{option_map};
ghost use Rattle.std.specs.Ordering.{int_cmp};
ghost use Rattle.ct_entry.specs.laws.Rows.{keys_rise_by};
ghost use Rattle.ct_keep.specs.KeeperViews.{Finds, OnlyReads};
ghost use Rattle.q_tree.specs.ReducedQueries.{reduced_of};
ghost use Rattle.ix_context.specs.Sees.{SeesTables, ToldTables};
ghost use Rattle.cat_walk.specs.Looks.{IsOfCatalogue, LooksUpNoText};
ghost use Rattle.cat_walk.specs.Places.{has_place, next_of};
ghost use Rattle.cat_walk.specs.Walks.{has_rising_places, route_of, stops_at};
ghost use Rattle.cat_search.specs.Meeting.{IsQueryFor};
ghost use Rattle.cat_search.specs.SubIndexes.{AreTakenRows, IsNextWithin, is_row_among, place_row};
ghost use Rattle.cat_search.specs.Contents.{AddsIfMet, SeesWalked, ToldWalked, is_met_row};
ghost use Rattle.cat_search.specs.Looking.{ReadsSlotTexts, ReadsTexts};

use crate::bounding::PlaceRange;
use crate::compiling::is_exact;
use crate::meeting::row_meets;
use cat_index::Catalogue;
use cat_walk::{Walk, next_place, place_copy};
use ct_base::{Memory, RowKey};
use ct_entry::row_in;
use ct_keep::{KeepFault, Keeper};
use q_tree::Flat;
use std::alloc::Global;

/// Whether a row at which the walk for a query stops meets it: each does where the walk is exact, and else its text is read.
fn is_met<K: Keeper>(
    alloc: Global,
    keeper: &mut K,
    catalogue: &Catalogue,
    flat: &Flat,
    exact: bool,
    row: RowKey,
) -> Result<bool, KeepFault>
    requires ready { (K.view keeper.old).ready }
    requires query { IsQueryFor catalogue.now.prefs (reduced_of flat.now) }
    ensures met { SeesTables K.view keeper.old result (λ ts met. met ≡ is_met_row exact catalogue.now (reduced_of flat.now) ts row.0) }
    ensures reads { OnlyReads K.view keeper.old keeper.new result }
    ensures texts { ReadsTexts (if exact then 0 else 1) (K.view keeper.old).counts (K.view keeper.new).counts }
{
    if exact {
        return Ok(true);
    }
    row_meets(alloc, keeper, catalogue, flat, row)
}

/// Adds a row, if it is met.
fn put_if(rows: &mut Vec<RowKey>, met: bool, row: RowKey) -> Result<(), Memory>
    ensures { OnOk result (rows.new.items ≡ rows.old.items ++ (if met then row ∷ [] else [])) }
{
    if met {
        rows.push(row)?;
    }
    Ok(())
}

/// The row that has a place in a sub-index: the last eight bytes are its key.
fn row_at(place: &[u8]) -> Option<RowKey>
    ensures { option_map (λ r. r.0) result ≡ place_row place.now }
{
    let values = place.len().saturating_sub(8);
    row_in(&place[values..])
}

/// Adds the row of a place at which the walk for a query stops, if the place is taken and the row meets the query.
fn try_place<K: Keeper, R: PlaceRange>(
    alloc: Global,
    keeper: &mut K,
    catalogue: &Catalogue,
    flat: &Flat,
    exact: bool,
    range: &R,
    place: &[u8],
    rows: &mut Vec<RowKey>,
) -> Result<(), KeepFault>
    requires ready { (K.view keeper.old).ready }
    requires query { IsQueryFor catalogue.now.prefs (reduced_of flat.now) }
    ensures rows { ToldTables K.view keeper.old (λ ts. OnOk result (AddsIfMet exact catalogue.now flat.now (R.takes range.now) ts place.now rows.old.items rows.new.items)) }
    ensures reads { OnlyReads K.view keeper.old keeper.new result }
    ensures texts { ReadsTexts (if exact then 0 else 1) (K.view keeper.old).counts (K.view keeper.new).counts }
{
    let taken = range.takes(alloc, place)?;
    if !taken {
        return Ok(());
    }
    let Some(row) = row_at(place) else {
        return Ok(());
    };
    let met = is_met(alloc, keeper, catalogue, flat, exact, row)?;
    put_if(rows, met, row)?;
    Ok(())
}

/// Puts rows in the order of their keys, each once. It takes no memory, and time in proportion to their number where they are in order already.
fn sort_rows(rows: &mut Vec<RowKey>)
    ensures rise { keys_rise_by int_cmp (map (λ r. r.0) rows.new.items) ≡ true }
    ensures same { (r : ℤ) → is_row_among r (map (λ k. k.0) rows.new.items) ≡ is_row_among r (map (λ k. k.0) rows.old.items) }
{
    rows.sort_unstable_by(|a, b| a.0.cmp(&b.0));
    rows.dedup_by(|a, b| a.0.cmp(&b.0).is_eq());
}

/// The next place, behind one, at which a walk stops; none where there is none, or where no place from there on is taken.
fn next_within<K: Keeper, R: PlaceRange>(
    alloc: Global,
    keeper: &mut K,
    stem: &[u8],
    walk: &Walk,
    range: &R,
    after: &[u8],
) -> Result<Option<Vec<u8>>, KeepFault>
    requires ready { (K.view keeper.old).ready }
    requires rise { has_rising_places (route_of walk.now) ≡ true }
    ensures next { Finds K.view keeper.old result (λ m next. IsNextWithin (R.takes range.now) (stops_at (has_place m stem.now) (route_of walk.now)) after.now (next_of next)) }
    ensures reads { OnlyReads K.view keeper.old keeper.new result }
    ensures spares { LooksUpNoText stem.now (K.view keeper.old) (K.view keeper.new) }
{
    let Some(here) = next_place(alloc, keeper, stem, walk, after)? else {
        return Ok(None);
    };
    let past = range.is_past(&here);
    if past {
        return Ok(None);
    }
    Ok(Some(here))
}

/// The rows at which the walk for a query over a sub-index stops, whose places are taken, and which meet the query: in the order of their keys.
pub(crate) fn rows_of_walk<K: Keeper, R: PlaceRange>(
    alloc: Global,
    keeper: &mut K,
    catalogue: &Catalogue,
    sub: u8,
    flat: &Flat,
    stem: &[u8],
    walk: &Walk,
    range: &R,
) -> Result<Vec<RowKey>, KeepFault>
    requires ready { (K.view keeper.old).ready }
    requires query { IsQueryFor catalogue.now.prefs (reduced_of flat.now) }
    requires rise { has_rising_places (route_of walk.now) ≡ true }
    requires stem { IsOfCatalogue stem.now }
    ensures rows { SeesWalked K.view keeper.old catalogue.now stem.now sub flat.now walk.now result (AreTakenRows (R.takes range.now) sub flat.now) }
    ensures reads { OnlyReads K.view keeper.old keeper.new result }
    ensures texts { ToldWalked K.view keeper.old catalogue.now stem.now sub flat.now walk.now (ReadsSlotTexts K.view keeper.old keeper.new flat.now) }
{
    let exact = is_exact(flat);
    let mut rows = Vec::new(alloc);
    let mut last = place_copy(alloc, range.first())?;
    'steps: for _ in 0..u64::MAX {
        let Some(here) = next_within(alloc, keeper, stem, walk, range, &last)? else {
            sort_rows(&mut rows);
            return Ok(rows);
        };
        try_place(
            alloc, keeper, catalogue, flat, exact, range, &here, &mut rows,
        )?;
        last = here;
    }
    // no table has so many rows
    Err(KeepFault::Memory)
}
