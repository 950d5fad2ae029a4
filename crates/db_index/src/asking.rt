//! What the PARAMETERS of CREATE INDEX ask for.
#![tactic(auto, using(ct_keep::specs::laws::Composing::reads_on, ct_keep::specs::laws::Composing::reads_short))]

ghost use Rattle.std.specs.Prelude.{◌≡◌, IfOk, IfSome, Some, [], true};
ghost use Rattle.std.specs.Option.{option_or};
ghost use Rattle.ct_keep.specs.KeeperViews.{OnlyReads};
ghost use Rattle.tx_sets.specs.Sets.{are_sub_indexes as sub_indexes};
ghost use Rattle.tx_prefs.specs.Copies.{meant};
ghost use Rattle.db_state.specs.States.{Sees};
ghost use Rattle.db_index.specs.Asking.{AsksForIndex, CanBeCreated, requests_in, unknown_column as column_unknown, wanted_of};

use crate::kinds::{BuiltKind, takes_requests};
use crate::sub_columns::unknown_column;
use ct_base::{Listed, Memory, Name, Text};
use ct_keep::{KeepFault, Keeper};
use std::alloc::Global;
use tb_table::Column;
use tx_prefs::{
    Request, copy, index_set, read_requests, requested_parameters, requested_set, unknown_request,
};
use tx_sets::{IndexSet, are_sub_indexes};
use tx_settings::Prefs;

/// What an index is to have beside its kind and its column.
#[derive(Debug, Drop)]
pub(crate) struct Wanted {
    /// How it reads texts.
    pub(crate) prefs: Prefs,
    /// The columns of its sub-indexes; of a CONTEXT index there are none.
    pub(crate) subs: IndexSet,
}

/// What is asked for.
#[derive(Debug, Drop)]
pub(crate) struct Asked {
    /// The first name that is not defined, or else the first column of the index set that the table doesn't have.
    pub(crate) unknown: Option<Name>,
    /// What the names mean; None where one is not defined, or the text isn't of its form.
    pub(crate) wanted: Option<Wanted>,
}

/// The sub-indexes of the index set, or none where there is no name. None where there is no such set, or, in a store that no state
/// has, where it passes the limits.
fn set_meant<K: Keeper>(
    alloc: Global,
    keeper: &mut K,
    name: &Option<Name>,
) -> Result<Option<IndexSet>, KeepFault>
    requires { (K.view keeper.old).ready }
    ensures set { Sees K.view keeper.old result (λ m found. found ≡ meant m.preferences.sets [] name.now) }
    ensures are { IfOk result (λ found. IfSome found (λ subs. sub_indexes subs ≡ true)) }
    ensures reads { OnlyReads K.view keeper.old keeper.new result }
{
    let Some(name) = name else {
        return Ok(Some(Listed::empty(alloc)));
    };
    let Some(set) = index_set(alloc, keeper, name)? else {
        return Ok(None);
    };
    if !are_sub_indexes(&set) {
        return Ok(None);
    }
    Ok(Some(Listed::of(set)))
}

/// Both, where both are there.
fn wanted_of(prefs: Option<Prefs>, subs: Option<IndexSet>) -> Option<Wanted>
    ensures { result ≡ wanted_of prefs subs }
{
    let Some(prefs) = prefs else {
        return None;
    };
    let Some(subs) = subs else {
        return None;
    };
    Some(Wanted { prefs, subs })
}

/// The name, or else the first column of the sub-indexes that the table doesn't have.
fn first_unknown(
    name: Option<Name>,
    wanted: &Option<Wanted>,
    columns: &[Column],
) -> Result<Option<Name>, Memory>
    ensures { IfOk result (λ unknown. unknown ≡ option_or name (column_unknown columns.now wanted.now)) }
{
    if let Some(name) = name {
        return Ok(Some(name));
    }
    let Some(wanted) = wanted else {
        return Ok(None);
    };
    match unknown_column(wanted.subs.as_slice(), columns) {
        Some(column) => Ok(Some(column.clone()?)),
        None => Ok(None),
    }
}

/// What requests ask for, of an index on a table with these columns.
fn asked_by<K: Keeper>(
    alloc: Global,
    keeper: &mut K,
    requests: &[Request],
    columns: &[Column],
) -> Result<Asked, KeepFault>
    requires { (K.view keeper.old).ready }
    ensures asked { Sees K.view keeper.old result (λ m asked. AsksForIndex m.preferences columns.now (Some requests.now) asked) }
    ensures can { IfOk result (λ asked. IfSome asked.wanted CanBeCreated) }
    ensures reads { OnlyReads K.view keeper.old keeper.new result }
{
    let name = unknown_request(alloc, keeper, requests)?;
    let parameters = requested_parameters(requests)?;
    let prefs = copy(alloc, keeper, &parameters)?;
    let set = requested_set(requests)?;
    let subs = set_meant(alloc, keeper, &set)?;
    let wanted = wanted_of(prefs, subs);
    let unknown = first_unknown(name, &wanted, columns)?;
    Ok(Asked { unknown, wanted })
}

/// What the text of PARAMETERS asks for, of an index of this kind on a table with these columns; where there is no text, the
/// defaults.
pub(crate) fn read_asked<K: Keeper>(
    alloc: Global,
    keeper: &mut K,
    kind: BuiltKind,
    parameters: &Option<Text>,
    columns: &[Column],
) -> Result<Asked, KeepFault>
    requires { (K.view keeper.old).ready }
    ensures asked { Sees K.view keeper.old result (λ m asked. AsksForIndex m.preferences columns.now (requests_in kind parameters.now) asked) }
    ensures can { IfOk result (λ asked. IfSome asked.wanted CanBeCreated) }
    ensures reads { OnlyReads K.view keeper.old keeper.new result }
{
    let Some(text) = parameters else {
        let prefs = Prefs::defaults(alloc)?;
        return Ok(Asked {
            unknown: None,
            wanted: Some(Wanted {
                prefs,
                subs: Listed::empty(alloc),
            }),
        });
    };
    let Some(requests) = read_requests(alloc, text.as_str())? else {
        return Ok(Asked {
            unknown: None,
            wanted: None,
        });
    };
    if !takes_requests(kind, &requests) {
        return Ok(Asked {
            unknown: None,
            wanted: None,
        });
    }
    asked_by(alloc, keeper, &requests, columns)
}
