//! The thesauri that queries name.
#![tactic(auto, using(ct_keep::specs::laws::Composing::reads_on, ct_keep::specs::laws::Composing::reads_short))]

ghost use Rattle.std.specs.Prelude.{◌≡◌, ◌++◌, OnOk};
ghost use Rattle.ct_keep.specs.KeeperViews.{OnlyReads};
ghost use Rattle.q_reduce.specs.Results.{named_pairs};
ghost use Rattle.db_state.specs.States.{OverStates, Sees};
ghost use Rattle.db_find.specs.Thesauri.{AddsNamed, CountsNothing, found_thesaurus, thesauri_of};

use ct_base::{Memory, Name};
use ct_keep::{KeepFault, Keeper};
use q_reduce::NamedThesaurus;
use std::alloc::Global;
use th_graph::Thesaurus;
use th_store::load;

/// Puts a thesaurus with its name, if it was found.
fn put_found(
    found: &mut Vec<NamedThesaurus>,
    name: &Name,
    thesaurus: Option<Thesaurus>,
) -> Result<(), Memory>
    ensures { OnOk result (named_pairs found.new.items ≡ named_pairs found.old.items ++ found_thesaurus name.now thesaurus) }
{
    if let Some(thesaurus) = thesaurus {
        let name = name.clone()?;
        found.push(NamedThesaurus { name, thesaurus })?;
    }
    Ok(())
}

/// Puts the thesaurus of a name, if it is there.
fn put_named<K: Keeper>(
    alloc: Global,
    keeper: &mut K,
    found: &mut Vec<NamedThesaurus>,
    name: &Name,
) -> Result<(), KeepFault>
    requires { (K.view keeper.old).ready }
    ensures thesaurus { OverStates K.view keeper.old (λ m c. OnOk result (AddsNamed m.thesauri name.now found.old.items found.new.items)) }
    ensures reads { OnlyReads K.view keeper.old keeper.new result }
    ensures at_most { CountsNothing K.view keeper.old keeper.new }
{
    let thesaurus = load(alloc, keeper, name)?;
    put_found(found, name, thesaurus)?;
    Ok(())
}

/// The thesauri of these names that are there, each with its name and in the order of the names. Each name's thesaurus is loaded once.
pub(crate) fn named_thesauri<K: Keeper>(
    alloc: Global,
    keeper: &mut K,
    names: &[Name],
) -> Result<Vec<NamedThesaurus>, KeepFault>
    requires { (K.view keeper.old).ready }
    ensures thesauri { Sees K.view keeper.old result (λ m found. named_pairs found.items ≡ thesauri_of m.thesauri names.now) }
    ensures reads { OnlyReads K.view keeper.old keeper.new result }
    ensures at_most { CountsNothing K.view keeper.old keeper.new }
{
    let mut found = Vec::new(alloc);
    for name in names {
        put_named(alloc, keeper, &mut found, name)?;
    }
    Ok(found)
}
