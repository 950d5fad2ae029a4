//! What names have.
#![tactic(auto, using(ct_keep::specs::laws::Composing::reads_on, ct_keep::specs::laws::Composing::reads_short))]

ghost use Rattle.std.specs.Prelude.{◌≡◌, true, IfOk, IfSome};
ghost use Rattle.std.specs.Option.{option_map};
ghost use Rattle.ct_keep.specs.KeeperViews.{OnlyReads};
ghost use Rattle.tx_settings.specs.PrefsBytes.{are_settings, are_words};
ghost use Rattle.tx_prefs.specs.Sees.{is_kind_full};
ghost use Rattle.db_state.specs.States.{Sees};
ghost use Rattle.db_prefs.specs.Defining.{is_there as is_named};
ghost use Rattle.db_call.specs.Checks.{get_named};

use ct_base::{Name, Text};
use ct_keep::{KeepFault, Keeper};
use std::alloc::Global;
use tx_prefs::{PrefKind, has_named, index_set, lexer_settings, section_group, stoplist_words};
use tx_sets::SubIndex;
use tx_settings::Setting;
use tx_tags::Group;

/// Whether one of the kind has the name, if there is a name.
pub(crate) fn is_there<K: Keeper>(
    alloc: Global,
    keeper: &mut K,
    kind: PrefKind,
    name: &Option<Name>,
) -> Result<bool, KeepFault>
    requires { (K.view keeper.old).ready }
    ensures there { Sees K.view keeper.old result (λ m there. there ≡ is_named kind m.preferences name.now) }
    ensures reads { OnlyReads K.view keeper.old keeper.new result }
{
    match name {
        Some(name) => has_named(alloc, keeper, kind, name),
        None => Ok(false),
    }
}

/// Whether there are as many of the kind as there may be.
pub(crate) fn is_full<K: Keeper>(
    alloc: Global,
    keeper: &mut K,
    kind: PrefKind,
) -> Result<bool, KeepFault>
    requires { (K.view keeper.old).ready }
    ensures full { Sees K.view keeper.old result (λ m full. full ≡ is_kind_full kind m.preferences) }
    ensures reads { OnlyReads K.view keeper.old keeper.new result }
{
    tx_prefs::is_kind_full(alloc, keeper, kind)
}

/// The settings of the lexer preference of the name.
pub(crate) fn settings_of<K: Keeper>(
    alloc: Global,
    keeper: &mut K,
    name: &Option<Name>,
) -> Result<Option<Vec<Setting>>, KeepFault>
    requires { (K.view keeper.old).ready }
    ensures settings { Sees K.view keeper.old result (λ m found. option_map (λ v. v.items) found ≡ get_named m.preferences.lexers name.now) }
    ensures are { IfOk result (λ found. IfSome found (λ v. are_settings v.items ≡ true)) }
    ensures reads { OnlyReads K.view keeper.old keeper.new result }
{
    match name {
        Some(name) => lexer_settings(alloc, keeper, name),
        None => Ok(None),
    }
}

/// The words of the stoplist of the name.
pub(crate) fn words_of<K: Keeper>(
    alloc: Global,
    keeper: &mut K,
    name: &Option<Name>,
) -> Result<Option<Vec<Text>>, KeepFault>
    requires { (K.view keeper.old).ready }
    ensures words { Sees K.view keeper.old result (λ m found. option_map (λ v. v.items) found ≡ get_named m.preferences.stoplists name.now) }
    ensures are { IfOk result (λ found. IfSome found (λ v. are_words v.items ≡ true)) }
    ensures reads { OnlyReads K.view keeper.old keeper.new result }
{
    match name {
        Some(name) => stoplist_words(alloc, keeper, name),
        None => Ok(None),
    }
}

/// The section group of the name.
pub(crate) fn group_of<K: Keeper>(
    alloc: Global,
    keeper: &mut K,
    name: &Option<Name>,
) -> Result<Option<Group>, KeepFault>
    requires { (K.view keeper.old).ready }
    ensures group { Sees K.view keeper.old result (λ m found. found ≡ get_named m.preferences.groups name.now) }
    ensures reads { OnlyReads K.view keeper.old keeper.new result }
{
    match name {
        Some(name) => section_group(alloc, keeper, name),
        None => Ok(None),
    }
}

/// The sub-indexes of the index set of the name.
pub(crate) fn set_of<K: Keeper>(
    alloc: Global,
    keeper: &mut K,
    name: &Option<Name>,
) -> Result<Option<Vec<SubIndex>>, KeepFault>
    requires { (K.view keeper.old).ready }
    ensures set { Sees K.view keeper.old result (λ m found. option_map (λ v. v.items) found ≡ get_named m.preferences.sets name.now) }
    ensures reads { OnlyReads K.view keeper.old keeper.new result }
{
    match name {
        Some(name) => index_set(alloc, keeper, name),
        None => Ok(None),
    }
}
