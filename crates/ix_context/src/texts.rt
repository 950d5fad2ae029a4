//! The texts of rows that become documents.
#![tactic(auto, using(ct_keep::specs::laws::Composing::reads_on, ct_keep::specs::laws::Composing::reads_short))]

ghost use Rattle.std.specs.Prelude.{◌≡◌, ◌+◌, ◌<◌, ◌^◌, IfOk, length, true};
ghost use Rattle.ct_keep.specs.KeeperViews.{OnlyReads};
ghost use Rattle.tx_settings.specs.Attributes.{can_be_set};
ghost use Rattle.ix_context.specs.GatheredRows.{AreGathered};
ghost use Rattle.ix_context.specs.Sees.{SeesTables, rows_gathered};

use crate::gathering::IndexRows;
use crate::portions::gather_next;
use ct_base::RowKey;
use ct_keep::{KeepFault, Keeper};
use std::alloc::Global;
use std::thread::Threads;
use tb_table::Target;
use tx_settings::Prefs;

/// What is gathered of the texts of rows that become documents of an index on this target that reads texts by these preferences, the
/// first of them this document. Up to `degree` threads read the texts.
///
/// Its cost is that of reading the texts, and of a logarithm for each place of a word or a section. Its memory is that of what is
/// gathered, and of one text; of several threads that of a portion of texts of a mebibyte, and of its postings.
pub(crate) fn gather_texts<R: Threads + Sync, K: Keeper>(
    rt: &R,
    alloc: Global,
    degree: u32,
    keeper: &mut K,
    target: &Target,
    prefs: &Prefs,
    first: u32,
    rows: &[RowKey],
) -> Result<IndexRows, KeepFault>
    requires ready { (K.view keeper.old).ready }
    requires room { first + length rows.now < 2 ^ 32 }
    requires set { can_be_set prefs.now.lexer ≡ true }
    ensures gathers { SeesTables K.view keeper.old result (λ ts gathered. gathered ≡ rows_gathered ts target.now prefs.now first rows.now) }
    ensures grown { IfOk result AreGathered }
    ensures reads { OnlyReads K.view keeper.old keeper.new result }
{
    let mut gathered = IndexRows::new(alloc);
    let mut document = first;
    let mut rest = rows;
    while !rest.is_empty() {
        let count = gather_next(
            &mut gathered,
            rt,
            alloc,
            degree,
            keeper,
            target,
            prefs,
            document,
            rest,
        )?;
        let (_, later) = rest.split_at(count);
        document += count as u32;
        rest = later;
    }
    Ok(gathered)
}
