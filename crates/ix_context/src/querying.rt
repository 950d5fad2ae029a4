//! How an index reads texts and queries.
#![tactic(auto, using(ct_keep::specs::laws::Composing::reads_on, ct_keep::specs::laws::Composing::reads_short))]

ghost use Rattle.std.specs.Prelude.{◌≡◌, [], Some, None, IfOk, true, IfSome};
ghost use Rattle.ct_keep.specs.KeeperViews.{Finds, OnlyReads};
ghost use Rattle.ct_keep.specs.Looks.{look, LooksAtMost};
ghost use Rattle.ct_entry.specs.declared.kinds.Kind.TheVariants as kind;
ghost use Rattle.ct_entry.specs.Keys.{key, bytes, at};
ghost use Rattle.tx_settings.specs.Attributes.{can_be_set};
ghost use Rattle.ix_context.specs.Sees.{SeesContext};

use crate::entries::read_index;
use ct_base::Name;
use ct_keep::{KeepFault, Keeper};
use std::alloc::Global;
use tx_settings::Prefs;

/// The preferences of an index. None where there is no such index. It takes one look-up, of the index's entry, and never
/// answers Full.
///
/// Its cost is that of reading this entry, with all its stop keys and its group: its length, and the square of the number of
/// the group's tags, of which there are at most 256.
pub fn prefs_of<K: Keeper>(
    alloc: Global,
    keeper: &mut K,
    index: &Name,
) -> Result<Option<Prefs>, KeepFault>
    requires { (K.view keeper.old).ready }
    ensures prefs { SeesContext K.view keeper.old index.now result (λ t x found. found ≡ Some x.prefs) }
    ensures no_entry { Finds K.view keeper.old result (λ m found. at m (key kind.Indexes index.now []) ≡ None → found ≡ None) }
    ensures set { IfOk result (λ found. IfSome found (λ prefs. can_be_set prefs.lexer ≡ true)) }
    ensures reads { OnlyReads K.view keeper.old keeper.new result }
    ensures at_most { LooksAtMost K.view keeper.old keeper.new (look (bytes (key kind.Indexes index.now [])) None) }
{
    match read_index(alloc, keeper, index)? {
        Some(entry) => Ok(Some(entry.prefs)),
        None => Ok(None),
    }
}
