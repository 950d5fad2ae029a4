//! Names that are asked for and not defined.
#![tactic(auto, using(ct_keep::specs::laws::Composing::reads_on, ct_keep::specs::laws::Composing::reads_short))]

ghost use Rattle.std.specs.Prelude.{◌≡◌, None};
ghost use Rattle.ct_keep.specs.KeeperViews.{OnlyReads};
ghost use Rattle.tx_prefs.specs.Requests.{unknown_in, unknown_or};
ghost use Rattle.tx_prefs.specs.Sees.{SeesPreferences};

use crate::lookups::has_named;
use crate::requests::{Request, copy_of};
use ct_base::Name;
use ct_keep::{KeepFault, Keeper};
use std::alloc::Global;

/// The first name in requests that is not defined in its kind. None where all are. It never answers Full.
pub fn unknown_request<K: Keeper>(
    alloc: Global,
    keeper: &mut K,
    requests: &[Request],
) -> Result<Option<Name>, KeepFault>
    requires { (K.view keeper.old).ready }
    ensures unknown { SeesPreferences K.view keeper.old result (λ ps name. name ≡ unknown_in ps requests.now) }
    ensures reads { OnlyReads K.view keeper.old keeper.new result }
{
    let mut rest = requests;
    while let [first, later @ ..] = rest {
        let unknown = unknown_name(alloc, keeper, first)?;
        if unknown.is_some() {
            return Ok(unknown);
        }
        rest = later;
    }
    Ok(None)
}

/// The name in a request, where none of its kind has it.
fn unknown_name<K: Keeper>(
    alloc: Global,
    keeper: &mut K,
    request: &Request,
) -> Result<Option<Name>, KeepFault>
    requires { (K.view keeper.old).ready }
    ensures unknown { SeesPreferences K.view keeper.old result (λ ps name. name ≡ unknown_or None request.now.kind request.now.name ps) }
    ensures reads { OnlyReads K.view keeper.old keeper.new result }
{
    let Some(name) = &request.name else {
        return Ok(None);
    };
    let is_there = has_named(alloc, keeper, request.kind, name)?;
    if is_there {
        return Ok(None);
    }
    let unknown = copy_of(&request.name)?;
    Ok(unknown)
}
