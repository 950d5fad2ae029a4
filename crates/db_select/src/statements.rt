//! The statement SELECT.
#![tactic(auto, using(ct_keep::specs::laws::Composing::reads_on, ct_keep::specs::laws::Composing::reads_short))]

ghost use Rattle.std.specs.Prelude.{◌≡◌, true};
ghost use Rattle.ct_keep.specs.KeeperViews.{OnlyReads};
ghost use Rattle.ct_keep.specs.Looks.{LooksAtMost, no_looks};
ghost use Rattle.db_state.specs.States.{Sees};
ghost use Rattle.db_state.specs.Effects.{reply_by};
ghost use Rattle.db_select.specs.Looking.{SelectsFew};
ghost use Rattle.db_select.specs.Statements.{is_wrong_view, select_statement};
ghost use Rattle.db_select.specs.Choosing.{selection};

use crate::selecting::select_table;
use crate::views::{select_view, view_named};
use ct_base::Name;
use ct_keep::{KeepFault, Keeper};
use st_parse::{OrderItem, Pred, SelectList};
use std::alloc::Global;

/// SELECT of a list by predicates: of the rows of a table, in the order of its own items, or else in that which a CATSEARCH asks for, or in
/// order of their keys; or, from CTX_USER_PENDING, of the rows that wait for a synchronisation, and, from CTX_USER_INDEX_ERRORS, of the
/// faulty rules, in order of the names of indexes and of keys.
///
/// Without CONTAINS, CATSEARCH and MATCHES its cost is that of a walk over the rows that the conditions on the key bound, and of what the
/// other conditions and the order are on in each of them; with one of them that of the search, and of what the conditions and the order are
/// on in each row that this finds; and n log n comparisons of n rows where an order is asked for. COUNT(*) puts nothing in order; a list, and
/// `*`, cost beside it the texts that they show, and the numbers of the rows, as far as no condition is on them.
/// What is read of a row that a search finds is read once. A view costs a scan of the indexes' entries and of those of the rows that it
/// shows; where it is asked for anything but all its lines or their number, nothing is looked up. It changes nothing, and never answers Full.
pub fn select<K: Keeper>(
    alloc: Global,
    keeper: &mut K,
    list: &SelectList,
    table: &Name,
    preds: &[Pred],
    orders: &[OrderItem],
) -> Result<Vec<u8>, KeepFault>
    requires ready { (K.view keeper.old).ready }
    ensures reply { Sees K.view keeper.old result (λ m reply. reply.items ≡ reply_by (select_statement m (selection list.now orders.now) table.now preds.now)) }
    ensures reads { OnlyReads K.view keeper.old keeper.new result }
    ensures at_most { SelectsFew K.view keeper.old keeper.new select_statement (selection list.now orders.now) table.now preds.now }
    ensures wrong_view { is_wrong_view (selection list.now orders.now) table.now preds.now ≡ true → LooksAtMost K.view keeper.old keeper.new no_looks }
{
    match view_named(table) {
        Some(view) => select_view(alloc, keeper, view, list, preds, orders),
        None => select_table(alloc, keeper, list, table, preds, orders),
    }
}
