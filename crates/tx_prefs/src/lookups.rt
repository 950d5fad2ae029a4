//! Lexer preferences, stoplists, section groups and index sets by their names, as a keeper has them.
#![tactic(auto, using(ct_keep::specs::laws::Composing::reads_on, ct_keep::specs::laws::Composing::reads_short))]

ghost use Rattle.std.specs.Prelude.{◌≡◌, true, IfOk, IfSome, length, nat_le};
ghost use Rattle.std.specs.Option.{option_map};
ghost use Rattle.std.specs.FinMap.{get};
ghost use Rattle.ct_keep.specs.KeeperViews.{OnlyReads};
ghost use Rattle.tx_settings.specs.PrefsBytes.{are_settings, are_words};
ghost use Rattle.tx_prefs.specs.Rules.{preference_limit};
ghost use Rattle.tx_prefs.specs.Sees.{SeesPreferences, has_named as is_named, is_kind_full};

use crate::kinds::PrefKind;
use crate::reading::{group_in, set_in, settings_in, words_in};
use ct_base::{Name, Text};
use ct_entry::{Kind, fetch_entry, has_entry, owners};
use ct_keep::{KeepFault, Keeper};
use std::alloc::Global;
use tx_sets::SubIndex;
use tx_settings::Setting;
use tx_tags::Group;

/// How many preferences, stoplists, section groups and index sets there are at most, each for itself.
const PREFERENCE_LIMIT: usize = 256;

/// The settings of a lexer preference, in the order of their attributes. None where there is no such preference. It never
/// answers Full.
pub fn lexer_settings<K: Keeper>(
    alloc: Global,
    keeper: &mut K,
    name: &Name,
) -> Result<Option<Vec<Setting>>, KeepFault>
    requires { (K.view keeper.old).ready }
    ensures settings { SeesPreferences K.view keeper.old result (λ ps found. option_map (λ v. v.items) found ≡ get ps.lexers name.now) }
    ensures are { IfOk result (λ found. IfSome found (λ v. are_settings v.items ≡ true)) }
    ensures reads { OnlyReads K.view keeper.old keeper.new result }
{
    let Some(value) = fetch_entry(alloc, keeper, Kind::Preferences, name, &[])? else {
        return Ok(None);
    };
    let settings = settings_in(alloc, &value)?;
    Ok(settings)
}

/// The words of a stoplist, in the order in which they were added. None where there is no such stoplist. It never answers Full.
pub fn stoplist_words<K: Keeper>(
    alloc: Global,
    keeper: &mut K,
    name: &Name,
) -> Result<Option<Vec<Text>>, KeepFault>
    requires { (K.view keeper.old).ready }
    ensures words { SeesPreferences K.view keeper.old result (λ ps found. option_map (λ v. v.items) found ≡ get ps.stoplists name.now) }
    ensures are { IfOk result (λ found. IfSome found (λ v. are_words v.items ≡ true)) }
    ensures reads { OnlyReads K.view keeper.old keeper.new result }
{
    let Some(value) = fetch_entry(alloc, keeper, Kind::Stoplists, name, &[])? else {
        return Ok(None);
    };
    let words = words_in(alloc, &value)?;
    Ok(words)
}

/// A section group. None where there is no such group. It never answers Full.
pub fn section_group<K: Keeper>(
    alloc: Global,
    keeper: &mut K,
    name: &Name,
) -> Result<Option<Group>, KeepFault>
    requires { (K.view keeper.old).ready }
    ensures group { SeesPreferences K.view keeper.old result (λ ps found. found ≡ get ps.groups name.now) }
    ensures reads { OnlyReads K.view keeper.old keeper.new result }
{
    let Some(value) = fetch_entry(alloc, keeper, Kind::SectionGroups, name, &[])? else {
        return Ok(None);
    };
    let group = group_in(alloc, &value)?;
    Ok(group)
}

/// The sub-indexes of an index set, in the order in which they were added. None where there is no such index set. In a store that no
/// state has it may also give more than an index set has, or such that have more columns or none. It never answers Full.
pub fn index_set<K: Keeper>(
    alloc: Global,
    keeper: &mut K,
    name: &Name,
) -> Result<Option<Vec<SubIndex>>, KeepFault>
    requires { (K.view keeper.old).ready }
    ensures set { SeesPreferences K.view keeper.old result (λ ps found. option_map (λ v. v.items) found ≡ get ps.sets name.now) }
    ensures reads { OnlyReads K.view keeper.old keeper.new result }
{
    let Some(value) = fetch_entry(alloc, keeper, Kind::IndexSets, name, &[])? else {
        return Ok(None);
    };
    let set = set_in(alloc, &value)?;
    Ok(set)
}

/// Whether there is one of this kind and name. It never answers Full.
pub fn has_named<K: Keeper>(
    alloc: Global,
    keeper: &mut K,
    kind: PrefKind,
    name: &Name,
) -> Result<bool, KeepFault>
    requires { (K.view keeper.old).ready }
    ensures there { SeesPreferences K.view keeper.old result (λ ps there. there ≡ is_named kind name.now ps) }
    ensures reads { OnlyReads K.view keeper.old keeper.new result }
{
    has_entry(alloc, keeper, kind.entry_kind(), name, &[])
}

/// Whether these are the names of as many of a kind as there may be.
fn are_most(names: &[Name]) -> bool
    ensures { result ≡ nat_le preference_limit (length names.now) }
{
    names.len() >= PREFERENCE_LIMIT
}

/// Whether there are as many of this kind as there may be, which is 256. It reads all entries of the kind whole. It never answers
/// Full.
pub fn is_kind_full<K: Keeper>(
    alloc: Global,
    keeper: &mut K,
    kind: PrefKind,
) -> Result<bool, KeepFault>
    requires { (K.view keeper.old).ready }
    ensures full { SeesPreferences K.view keeper.old result (λ ps full. full ≡ is_kind_full kind ps) }
    ensures reads { OnlyReads K.view keeper.old keeper.new result }
{
    let names = owners(alloc, keeper, kind.entry_kind())?;
    Ok(are_most(&names))
}
