//! Whether a row meets a query, by its text.
#![tactic(auto, using(ct_keep::specs::laws::Composing::reads_on, ct_keep::specs::laws::Composing::reads_short, crate::proofs::Counting::text_read, crate::proofs::Counting::read_nothing))]

ghost use Rattle.std.specs.Prelude.{◌≡◌, ◌≤◌, ◌^◌, true, length, IfOk};
ghost use Rattle.ct_keep.specs.KeeperViews.{OnlyReads};
ghost use Rattle.q_tree.specs.ReducedQueries.{reduced_of};
ghost use Rattle.ix_context.specs.Postings.{IsShortOrNone};
ghost use Rattle.ix_context.specs.Sees.{SeesTables};
ghost use Rattle.cat_search.specs.Meeting.{IsQueryFor, meets, some_meets};
ghost use Rattle.cat_search.specs.Contents.{target_meets};
ghost use Rattle.cat_search.specs.Looking.{ReadsTexts};

use cat_index::Catalogue;
use ct_base::{Memory, RowKey, Text};
use ct_keep::{KeepFault, Keeper};
use ix_cursor::score_alone;
use q_tree::Flat;
use std::alloc::Global;
use tb_table::text_of;
use tx_document::analyse;
use tx_settings::Prefs;

/// How many bytes of text are read: far more than a text of a table has.
const TEXT_LIMIT: usize = 1 << 19;

/// Whether a text of at most 2^19 bytes meets a query. Its cost is that of reading the text, and that of scoring it.
fn text_meets(alloc: Global, prefs: &Prefs, flat: &Flat, text: &str) -> Result<bool, Memory>
    requires short { length text.now ≤ 2 ^ 19 }
    requires query { IsQueryFor prefs.now (reduced_of flat.now) }
    ensures { IfOk result (λ met. met ≡ meets prefs.now (reduced_of flat.now) text.now) }
{
    prefs.keep_rules();
    let document = analyse(alloc, prefs, text)?;
    let entries = document.entries(alloc)?;
    let score = score_alone(alloc, flat, &entries)?;
    Ok(score > 0)
}

/// The same where there may be none. One of over 2^19 bytes, which no table has, counts as none.
fn some_meets(alloc: Global, prefs: &Prefs, flat: &Flat, text: Option<Text>) -> Result<bool, Memory>
    requires query { IsQueryFor prefs.now (reduced_of flat.now) }
    ensures { IsShortOrNone text → IfOk result (λ met. met ≡ some_meets prefs.now (reduced_of flat.now) text) }
{
    match text {
        Some(text) if text.as_str().len() <= TEXT_LIMIT => {
            text_meets(alloc, prefs, flat, text.as_str())
        }
        _ => Ok(false),
    }
}

/// Whether the text of a row meets a query. It reads that text, and costs what reading and scoring it does.
pub(crate) fn row_meets<K: Keeper>(
    alloc: Global,
    keeper: &mut K,
    catalogue: &Catalogue,
    flat: &Flat,
    row: RowKey,
) -> Result<bool, KeepFault>
    requires ready { (K.view keeper.old).ready }
    requires query { IsQueryFor catalogue.now.prefs (reduced_of flat.now) }
    ensures met { SeesTables K.view keeper.old result (λ ts met. met ≡ target_meets catalogue.now (reduced_of flat.now) ts row.0) }
    ensures reads { OnlyReads K.view keeper.old keeper.new result }
    ensures texts { ReadsTexts 1 (K.view keeper.old).counts (K.view keeper.new).counts }
{
    let target = &catalogue.target;
    let text = text_of(alloc, keeper, &target.table, target.column, row)?;
    Ok(some_meets(alloc, &catalogue.prefs, flat, text)?)
}
