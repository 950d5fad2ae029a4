//! The preferences that an index copies.
#![tactic(auto, using(ct_keep::specs::laws::Composing::reads_on, ct_keep::specs::laws::Composing::reads_short))]

ghost use Rattle.std.specs.Prelude.{◌≡◌, true, [], IfOk, IfSome};
ghost use Rattle.std.specs.Option.{option_map};
ghost use Rattle.ct_keep.specs.KeeperViews.{OnlyReads};
ghost use Rattle.tx_tags.specs.Groups.{no_sections};
ghost use Rattle.tx_settings.specs.Attributes.{can_be_set};
ghost use Rattle.tx_prefs.specs.Copies.{MakesPrefs, copied, meant};
ghost use Rattle.tx_prefs.specs.Sees.{SeesPreferences};

use crate::lookups::{lexer_settings, section_group, stoplist_words};
use crate::parameters::Parameters;
use ct_base::{Memory, Name, Text};
use ct_keep::{KeepFault, Keeper};
use std::alloc::Global;
use tx_settings::{Prefs, Setting, are_taken, options_of};
use tx_stop::{STOP_LIMIT, StopKeys};
use tx_tags::Group;

/// The preferences that the names mean now: the options of the lexer, the keys of the stopwords by its flags, and the group. None
/// where a name is not defined, or, in a store that no state has, where its entry can't be read, or has a value that its attribute
/// doesn't take or more than 4096 words; so the options can be set in any store. It reads at most three entries; beside this it
/// costs what `options_of`, `StopKeys::new` and `read_group` cost. It never answers Full.
pub fn copy<K: Keeper>(
    alloc: Global,
    keeper: &mut K,
    parameters: &Parameters,
) -> Result<Option<Prefs>, KeepFault>
    requires { (K.view keeper.old).ready }
    ensures copied { SeesPreferences K.view keeper.old result (λ ps found. found ≡ copied ps parameters.now) }
    ensures can_be_set { IfOk result (λ found. IfSome found (λ prefs. can_be_set prefs.lexer ≡ true)) }
    ensures reads { OnlyReads K.view keeper.old keeper.new result }
{
    let Some(settings) = settings_meant(alloc, keeper, &parameters.lexer)? else {
        return Ok(None);
    };
    let Some(words) = words_meant(alloc, keeper, &parameters.stoplist)? else {
        return Ok(None);
    };
    let Some(group) = group_meant(alloc, keeper, &parameters.group)? else {
        return Ok(None);
    };
    let prefs = prefs_of(alloc, &settings, &words, group)?;
    Ok(prefs)
}

/// The settings of the preference, or none where there is no name.
fn settings_meant<K: Keeper>(
    alloc: Global,
    keeper: &mut K,
    name: &Option<Name>,
) -> Result<Option<Vec<Setting>>, KeepFault>
    requires { (K.view keeper.old).ready }
    ensures settings { SeesPreferences K.view keeper.old result (λ ps found. option_map (λ v. v.items) found ≡ meant ps.lexers [] name.now) }
    ensures reads { OnlyReads K.view keeper.old keeper.new result }
{
    match name {
        None => Ok(Some(Vec::new(alloc))),
        Some(name) => lexer_settings(alloc, keeper, name),
    }
}

/// The words of the stoplist, or none where there is no name.
fn words_meant<K: Keeper>(
    alloc: Global,
    keeper: &mut K,
    name: &Option<Name>,
) -> Result<Option<Vec<Text>>, KeepFault>
    requires { (K.view keeper.old).ready }
    ensures words { SeesPreferences K.view keeper.old result (λ ps found. option_map (λ v. v.items) found ≡ meant ps.stoplists [] name.now) }
    ensures reads { OnlyReads K.view keeper.old keeper.new result }
{
    match name {
        None => Ok(Some(Vec::new(alloc))),
        Some(name) => stoplist_words(alloc, keeper, name),
    }
}

/// The section group, or the one without sections where there is no name.
fn group_meant<K: Keeper>(
    alloc: Global,
    keeper: &mut K,
    name: &Option<Name>,
) -> Result<Option<Group>, KeepFault>
    requires { (K.view keeper.old).ready }
    ensures group { SeesPreferences K.view keeper.old result (λ ps found. found ≡ meant ps.groups no_sections name.now) }
    ensures reads { OnlyReads K.view keeper.old keeper.new result }
{
    match name {
        None => Ok(Some(Group::empty(alloc, true))),
        Some(name) => section_group(alloc, keeper, name),
    }
}

/// The preferences of these settings, words and group. None where a value isn't one of its attribute, or there are more words than
/// a stoplist has.
fn prefs_of(
    alloc: Global,
    settings: &[Setting],
    words: &[Text],
    group: Group,
) -> Result<Option<Prefs>, Memory>
    ensures prefs { IfOk result (MakesPrefs settings.now words.now group) }
    ensures can_be_set { IfOk result (λ found. IfSome found (λ prefs. can_be_set prefs.lexer ≡ true)) }
{
    if words.len() > STOP_LIMIT {
        return Ok(None);
    }
    if !are_taken(settings) {
        return Ok(None);
    }
    let lexer = options_of(alloc, settings)?;
    let stop = StopKeys::new(alloc, words, lexer.base_letter, lexer.mixed_case)?;
    Ok(Some(Prefs { lexer, stop, group }))
}
