//! SELECT of what is only looked at.
#![tactic(auto, using(ct_keep::specs::laws::Composing::reads_on, ct_keep::specs::laws::Composing::reads_short))]

ghost use Rattle.std.specs.Prelude.{◌≡◌, false};
ghost use Rattle.ct_keep.specs.KeeperViews.{OnlyReads};
ghost use Rattle.ct_keep.specs.Looks.{LooksAtMost, no_looks};
ghost use Rattle.db_state.specs.States.{Sees};
ghost use Rattle.db_state.specs.Effects.{reply_by};
ghost use Rattle.db_select.specs.Views.{is_bare as has_nothing, is_whole as asks_for_all, select_view as view_effect, view_lines as all_lines, view_named as named_view, view_reply as reply_of_view};
ghost use Rattle.db_select.specs.Choosing.{selection};

use crate::listing::count_line;
use crate::names::index_names;
use crate::view_rows::{or_none, view_keys, view_lines};
use ct_base::Name;
use ct_keep::{KeepFault, Keeper};
use db_cond::{Fault, fault_line};
use st_parse::{OrderItem, Pred, SelectList};
use std::alloc::Global;

/// What is only looked at.
#[derive(Clone, Copy)]
pub(crate) enum View {
    /// CTX_USER_PENDING: the rows that wait for a synchronisation.
    Waiting,
    /// CTX_USER_INDEX_ERRORS: the faulty rules of rule indexes.
    Errors,
}

/// The view of a name.
pub(crate) fn view_named(name: &Name) -> Option<View>
    ensures { result ≡ named_view name.now }
{
    if name.as_str() == "ctx_user_pending" {
        return Some(View::Waiting);
    }
    if name.as_str() == "ctx_user_index_errors" {
        return Some(View::Errors);
    }
    None
}

/// Whether there is neither a predicate nor an item of an order.
fn is_bare(preds: &[Pred], orders: &[OrderItem]) -> bool
    ensures { result ≡ has_nothing preds.now orders.now }
{
    preds.is_empty() && orders.is_empty()
}

/// Whether a view is asked for all its lines or their number: not for items, by a predicate, or in an order.
fn is_whole(list: &SelectList, preds: &[Pred], orders: &[OrderItem]) -> bool
    ensures { result ≡ asks_for_all (selection list.now orders.now) preds.now }
{
    match list {
        SelectList::Star | SelectList::CountAll => is_bare(preds, orders),
        SelectList::Items(_) => false,
    }
}

/// All lines of a view, or their number.
fn view_reply<K: Keeper>(
    alloc: Global,
    keeper: &mut K,
    view: View,
    list: &SelectList,
) -> Result<Vec<u8>, KeepFault>
    requires { (K.view keeper.old).ready }
    ensures reply { Sees K.view keeper.old result (λ m reply. reply.items ≡ reply_of_view list.now (all_lines view m.indexes)) }
    ensures reads { OnlyReads K.view keeper.old keeper.new result }
{
    let names = index_names(alloc, keeper)?;
    match list {
        SelectList::CountAll => {
            let keys = view_keys(alloc, keeper, view, &names)?;
            Ok(count_line(alloc, keys.len())?)
        }
        SelectList::Star | SelectList::Items(_) => {
            let lines = view_lines(alloc, keeper, view, &names)?;
            Ok(or_none(alloc, lines)?)
        }
    }
}

/// SELECT of a view: `index|key`, and of errors `index|key|fault`, in order of the names of indexes and of keys.
///
/// It scans the entries of all indexes, and those of the rows that it shows. Where anything but all lines or their number is asked for, it
/// looks nothing up.
pub(crate) fn select_view<K: Keeper>(
    alloc: Global,
    keeper: &mut K,
    view: View,
    list: &SelectList,
    preds: &[Pred],
    orders: &[OrderItem],
) -> Result<Vec<u8>, KeepFault>
    requires { (K.view keeper.old).ready }
    ensures reply { Sees K.view keeper.old result (λ m reply. reply.items ≡ reply_by (view_effect m view (selection list.now orders.now) preds.now)) }
    ensures reads { OnlyReads K.view keeper.old keeper.new result }
    ensures refused { asks_for_all (selection list.now orders.now) preds.now ≡ false → LooksAtMost K.view keeper.old keeper.new no_looks }
{
    if !is_whole(list, preds, orders) {
        return Ok(fault_line(alloc, Fault::WrongValues)?);
    }
    view_reply(alloc, keeper, view, list)
}
