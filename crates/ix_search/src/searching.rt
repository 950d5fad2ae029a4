//! The rows that a query finds.
#![tactic(auto, using(ct_keep::specs::laws::Composing::reads_on, ct_keep::specs::laws::Composing::reads_short))]

ghost use Rattle.std.specs.Prelude.{◌≡◌, true};
ghost use Rattle.ct_keep.specs.KeeperViews.{OnlyReads, Told};
ghost use Rattle.ct_keep.specs.Looks.{LooksAtMost};
ghost use Rattle.tx_settings.specs.PrefsBytes.{IsPrefs};
ghost use Rattle.q_tree.specs.ReducedQueries.{reduced_of};
ghost use Rattle.q_tree.specs.Soundness.{is_sound};
ghost use Rattle.ix_context.specs.Sees.{SeesWithinLimits};
ghost use Rattle.ix_search.specs.Finding.{found};
ghost use Rattle.ix_search.specs.Gathering.{GivesRows};
ghost use Rattle.ix_search.specs.Hits.{hit_rows};
ghost use Rattle.ix_search.specs.Looking.{query_looks};

use crate::gathering::Gathered;
use crate::hits::Hit;
use crate::mapping::map_documents;
use crate::reading::read;
use crate::scoring::score_rows;
use ct_base::Name;
use ct_keep::{KeepFault, Keeper};
use ix_cursor::{Candidates, Cursor};
use q_tree::Flat;
use std::alloc::Global;

/// Reads what a query needs, so that it can be searched without the keeper.
///
/// It reads, once each, the rows of each key in each stream where the query looks for it, those of each token that a pattern takes there,
/// and those of each section. Then it makes one
/// look-up for each candidate: each document with those words and sections of the query that a score needs. It decodes each row once
/// to check it, and once more as far as candidates are looked for in it. It reads no text, and never answers Full.
pub fn gather<'q, K: Keeper>(
    alloc: Global,
    keeper: &mut K,
    index: &Name,
    flat: &'q Flat,
) -> Result<Gathered<'q>, KeepFault>
    requires ready { (K.view keeper.old).ready }
    requires sound { is_sound (reduced_of flat.now) ≡ true }
    ensures gathered { SeesWithinLimits K.view keeper.old index.now result (λ t x g. IsPrefs x.prefs → GivesRows g (found t x (reduced_of flat.now) 0)) }
    ensures reads { OnlyReads K.view keeper.old keeper.new result }
    ensures at_most { Told K.view keeper.old (λ m. LooksAtMost K.view keeper.old keeper.new (query_looks m index.now (reduced_of flat.now))) }
{
    let feeds = read(alloc, keeper, index, flat)?;
    let mut candidates = Candidates::build(alloc, flat, &feeds)?;
    let rows = map_documents(alloc, keeper, index, &mut candidates)?;
    Ok(Gathered::of(flat, feeds, rows))
}

/// The rows that a query finds, with their scores, in order of their keys.
///
/// It reads what `gather` reads, and scores while it looks up: of each row of postings it goes through the documents as far as one may have a
/// score, once, and it makes one look-up for each document that has one. It reads no text, and never answers Full.
pub fn search<K: Keeper>(
    alloc: Global,
    keeper: &mut K,
    index: &Name,
    flat: &Flat,
) -> Result<Vec<Hit>, KeepFault>
    requires ready { (K.view keeper.old).ready }
    requires sound { is_sound (reduced_of flat.now) ≡ true }
    ensures found { SeesWithinLimits K.view keeper.old index.now result (λ t x hits. IsPrefs x.prefs → hit_rows hits.items ≡ found t x (reduced_of flat.now) 0) }
    ensures reads { OnlyReads K.view keeper.old keeper.new result }
    ensures at_most { Told K.view keeper.old (λ m. LooksAtMost K.view keeper.old keeper.new (query_looks m index.now (reduced_of flat.now))) }
{
    let feeds = read(alloc, keeper, index, flat)?;
    let mut cursor = Cursor::build(alloc, flat, &feeds)?;
    let scores = score_rows(alloc, keeper, index, &mut cursor)?;
    Ok(scores.into_hits(alloc)?)
}
