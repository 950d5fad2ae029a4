//! The rows that a query finds.
#![tactic(auto, using(ct_keep::specs::laws::Composing::reads_on, ct_keep::specs::laws::Composing::reads_short))]

ghost use Rattle.std.specs.Prelude.{◌≡◌, IfOk};
ghost use Rattle.ct_keep.specs.KeeperViews.{OnlyReads};
ghost use Rattle.q_tree.specs.ReducedQueries.{reduced_of};
ghost use Rattle.cat_search.specs.Meeting.{IsQueryFor};
ghost use Rattle.cat_search.specs.Contents.{ToldCatalogue};
ghost use Rattle.cat_search.specs.SubIndexes.{AreTakenRows, HasSub};
ghost use Rattle.cat_search.specs.Walking.{sub_stem};
ghost use Rattle.cat_search.specs.Looking.{ReadsSlotTexts};

use crate::bounding::PlaceRange;
use crate::compiling::compile;
use crate::gathering::rows_of_walk;
use cat_index::Catalogue;
use ct_base::{Memory, Name, RowKey};
use ct_entry::{Kind, key_bytes};
use ct_keep::{KeepFault, Keeper};
use q_tree::Flat;
use std::alloc::Global;

/// What the keys of a sub-index begin with.
fn sub_stem(alloc: Global, index: &Name, sub: u8) -> Result<Vec<u8>, Memory>
    ensures { IfOk result (λ stem. stem.items ≡ sub_stem index.now sub) }
{
    key_bytes(alloc, Kind::Catalogue, index, &[sub])
}

/// The rows of a catalogue's table whose text meets a query, and whose place in a sub-index of this number is taken: in the order of their keys. The
/// query has terms, AND, OR and NOT alone, and the catalogue has the sub-index.
///
/// It walks through the entries of the sub-index in the order of the values, from the first place that may be taken to the last one, and looks at the
/// rows alone whose words don't rule out that they meet the query. Where a phrase has several slots it reads texts, of rows with a word that one of
/// its slots takes, each once at most. What is gathered before, of slots with several keys or patterns and of what is joined by OR, is gathered
/// from all of the sub-index. It never answers Full.
pub fn rows_within<K: Keeper, R: PlaceRange>(
    alloc: Global,
    keeper: &mut K,
    index: &Name,
    catalogue: &Catalogue,
    sub: u8,
    flat: &Flat,
    range: &R,
) -> Result<Vec<RowKey>, KeepFault>
    requires ready { (K.view keeper.old).ready }
    requires query { IsQueryFor catalogue.now.prefs (reduced_of flat.now) }
    ensures rows { ToldCatalogue K.view keeper.old index.now catalogue.now (λ t x. HasSub x sub → IfOk result (AreTakenRows (R.takes range.now) sub flat.now t x)) }
    ensures reads { OnlyReads K.view keeper.old keeper.new result }
    ensures texts { ToldCatalogue K.view keeper.old index.now catalogue.now (λ t x. HasSub x sub → ReadsSlotTexts K.view keeper.old keeper.new flat.now t x) }
{
    let stem = sub_stem(alloc, index, sub)?;
    let walk = compile(alloc, keeper, &stem, flat)?;
    rows_of_walk(alloc, keeper, catalogue, sub, flat, &stem, &walk, range)
}
