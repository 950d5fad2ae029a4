//! The thesauri that are defined.
#![tactic(auto, using(ct_keep::specs::laws::Composing::reads_on, ct_keep::specs::laws::Composing::reads_short))]

ghost use Rattle.std.specs.Prelude.{◌≡◌, ◌∷◌, ◌++◌, [], OnOk};
ghost use Rattle.ct_keep.specs.KeeperViews.{OnlyReads};
ghost use Rattle.q_reduce.specs.Results.{named_pairs};
ghost use Rattle.db_state.specs.States.{OverStates, Sees, named_thesauri};
ghost use Rattle.db_index.specs.Thesauri.{thesauri_at, thesaurus_at};

use ct_base::{Memory, Name};
use ct_keep::{KeepFault, Keeper};
use q_reduce::NamedThesaurus;
use std::alloc::Global;
use th_graph::Thesaurus;
use th_store::{load, names};

/// Puts a thesaurus with its name.
fn put(loaded: &mut Vec<NamedThesaurus>, name: Name, thesaurus: Thesaurus) -> Result<(), Memory>
    ensures { OnOk result (named_pairs loaded.new.items ≡ named_pairs loaded.old.items ++ (name, thesaurus) ∷ []) }
{
    loaded.push(NamedThesaurus { name, thesaurus })?;
    Ok(())
}

/// Puts the thesaurus of a name, if it is there.
fn put_thesaurus<K: Keeper>(
    alloc: Global,
    keeper: &mut K,
    loaded: &mut Vec<NamedThesaurus>,
    name: Name,
) -> Result<(), KeepFault>
    requires { (K.view keeper.old).ready }
    ensures more { OverStates K.view keeper.old (λ m c. OnOk result (named_pairs loaded.new.items ≡ named_pairs loaded.old.items ++ thesaurus_at m.thesauri name)) }
    ensures reads { OnlyReads K.view keeper.old keeper.new result }
{
    let Some(thesaurus) = load(alloc, keeper, &name)? else {
        return Ok(());
    };
    put(loaded, name, thesaurus)?;
    Ok(())
}

/// The thesauri of these names that are there, each with its name.
fn load_each<K: Keeper>(
    alloc: Global,
    keeper: &mut K,
    names: Vec<Name>,
) -> Result<Vec<NamedThesaurus>, KeepFault>
    requires { (K.view keeper.old).ready }
    ensures each { Sees K.view keeper.old result (λ m loaded. named_pairs loaded.items ≡ thesauri_at m.thesauri names.items) }
    ensures reads { OnlyReads K.view keeper.old keeper.new result }
{
    let mut loaded = Vec::new(alloc);
    for name in names {
        put_thesaurus(alloc, keeper, &mut loaded, name)?;
    }
    Ok(loaded)
}

/// All thesauri, each with its name and in the order of their names. It reads each of their pairs once, and holds them all: there are
/// at most 256 thesauri of 10,000 pairs each. It never answers Full.
pub(crate) fn all_thesauri<K: Keeper>(
    alloc: Global,
    keeper: &mut K,
) -> Result<Vec<NamedThesaurus>, KeepFault>
    requires { (K.view keeper.old).ready }
    ensures thesauri { Sees K.view keeper.old result (λ m loaded. named_pairs loaded.items ≡ named_thesauri m) }
    ensures reads { OnlyReads K.view keeper.old keeper.new result }
{
    let names = names(alloc, keeper)?;
    load_each(alloc, keeper, names)
}
