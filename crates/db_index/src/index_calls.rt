//! The checks of a call for an index, which its first argument names.
#![tactic(auto, using(ct_keep::specs::laws::Composing::reads_on, ct_keep::specs::laws::Composing::reads_short))]

ghost use Rattle.std.specs.Prelude.{◌≡◌};
ghost use Rattle.std.specs.Option.{option_map};
ghost use Rattle.ct_keep.specs.KeeperViews.{OnlyReads};
ghost use Rattle.db_state.specs.States.{Sees};
ghost use Rattle.db_state.specs.Effects.{Effect, Checks};
ghost use Rattle.db_index.specs.IndexCalls.{check_index_call, kind_named as kind_of_named, unknown_name as name_unknown};

use ct_base::Name;
use ct_keep::{KeepFault, Keeper};
use db_cond::Fault;
use db_names::{IndexHead, IndexKind, index_of};
use std::alloc::Global;

/// The name, where no index has it.
pub(crate) fn unknown_name(there: bool, name: &Option<Name>) -> Option<&str>
    ensures { option_map (λ n. n.now) result ≡ name_unknown there name.now }
{
    match name {
        Some(name) if !there => Some(name.as_str()),
        _ => None,
    }
}

/// The first check that fails: by the name that no index has, whether the index that has it is of a kind that the call isn't for, whether
/// the arguments have the number and the types that it wants, and whether one of them is bad.
pub(crate) fn index_call_fault<'a>(
    unknown: Option<&'a str>,
    other: bool,
    shaped: bool,
    bad: bool,
) -> Option<Fault<'a>>
    ensures { (done : Effect) → Checks result (check_index_call (option_map (λ n. n.now) unknown.entry) other shaped bad done) done }
{
    if let Some(name) = unknown {
        return Some(Fault::UnknownName(name));
    }
    if other {
        return Some(Fault::NoIndexOfKind);
    }
    if !shaped {
        return Some(Fault::WrongValues);
    }
    if bad {
        return Some(Fault::BadValue);
    }
    None
}

/// The kind in a head, if there is one.
fn kind_in(head: &Option<IndexHead>) -> Option<IndexKind>
    ensures { result ≡ option_map (λ h. h.kind) head.now }
{
    match head {
        None => None,
        Some(head) => Some(head.kind),
    }
}

/// The kind of the index that has the name, if there is one.
pub(crate) fn kind_named<K: Keeper>(
    alloc: Global,
    keeper: &mut K,
    name: &Option<Name>,
) -> Result<Option<IndexKind>, KeepFault>
    requires { (K.view keeper.old).ready }
    ensures kind { Sees K.view keeper.old result (λ m found. found ≡ kind_of_named m name.now) }
    ensures reads { OnlyReads K.view keeper.old keeper.new result }
{
    let Some(index) = name else {
        return Ok(None);
    };
    let head = index_of(alloc, keeper, index)?;
    Ok(kind_in(&head))
}
