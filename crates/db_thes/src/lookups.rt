//! What the procedures ask of the thesauri.
#![tactic(auto, using(ct_keep::specs::laws::Composing::reads_on, ct_keep::specs::laws::Composing::reads_short))]

ghost use Rattle.std.specs.Prelude.{◌≡◌, is_some};
ghost use Rattle.ct_keep.specs.KeeperViews.{OnlyReads};
ghost use Rattle.th_store.specs.Sees.{is_at_thesaurus_limit as thesauri_at_limit};
ghost use Rattle.db_state.specs.States.{OverStates, Sees};
ghost use Rattle.db_call.specs.Checks.{get_named};
ghost use Rattle.db_thes.specs.Relating.{TellsIfKnown};

use crate::stating::StatedRelation;
use ct_base::Name;
use ct_keep::{KeepFault, Keeper};
use std::alloc::Global;
use th_store::{has_thesaurus, is_at_thesaurus_limit, is_known};

/// Whether there is a thesaurus of the name, if there is a name.
pub(crate) fn is_there<K: Keeper>(
    alloc: Global,
    keeper: &mut K,
    name: &Option<Name>,
) -> Result<bool, KeepFault>
    requires { (K.view keeper.old).ready }
    ensures there { Sees K.view keeper.old result (λ m there. there ≡ is_some (get_named m.thesauri name.now)) }
    ensures reads { OnlyReads K.view keeper.old keeper.new result }
{
    match name {
        Some(name) => has_thesaurus(alloc, keeper, name),
        None => Ok(false),
    }
}

/// Whether there are as many thesauri as there may be.
pub(crate) fn are_most<K: Keeper>(alloc: Global, keeper: &mut K) -> Result<bool, KeepFault>
    requires { (K.view keeper.old).ready }
    ensures most { Sees K.view keeper.old result (λ m most. most ≡ thesauri_at_limit m.thesauri) }
    ensures reads { OnlyReads K.view keeper.old keeper.new result }
{
    is_at_thesaurus_limit(alloc, keeper)
}

/// Whether the thesaurus of the name knows the relation. `there` tells whether there is such a thesaurus. It loads none.
pub(crate) fn is_known_in<K: Keeper>(
    alloc: Global,
    keeper: &mut K,
    there: bool,
    name: &Option<Name>,
    stated: &Option<StatedRelation>,
) -> Result<bool, KeepFault>
    requires { (K.view keeper.old).ready }
    ensures known { OverStates K.view keeper.old (λ m c. TellsIfKnown there m name.now stated.now result) }
    ensures reads { OnlyReads K.view keeper.old keeper.new result }
{
    if !there {
        return Ok(false);
    }
    let Some(name) = name else {
        return Ok(false);
    };
    let Some(stated) = stated else {
        return Ok(false);
    };
    is_known(
        alloc,
        keeper,
        name,
        stated.relation,
        &stated.first,
        &stated.second,
    )
}
