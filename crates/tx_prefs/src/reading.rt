//! Preferences, stoplists, section groups and index sets from the values of entries.

ghost use Rattle.std.specs.Prelude.{IfOk, Some};
ghost use Rattle.std.specs.Option.{option_map};
ghost use Rattle.tx_settings.specs.PrefsBytes.{are_settings, are_words, group_bytes, is_named_group, settings_bytes, words_bytes};
ghost use Rattle.tx_sets.specs.Sets.{are_lists, set_bytes};
ghost use Rattle.tx_prefs.specs.Readings.{EntrySpells};

use ct_base::{Memory, Text};
use std::alloc::Global;
use tx_sets::{SubIndex, read_set};
use tx_settings::{Setting, read_group, read_settings, read_words};
use tx_tags::Group;

/// The settings that the bytes spell; None where they spell none.
pub(crate) fn settings_in(alloc: Global, bytes: &[u8]) -> Result<Option<Vec<Setting>>, Memory>
    ensures { IfOk result (λ found. EntrySpells are_settings settings_bytes (Some bytes.now) (option_map (λ v. v.items) found)) }
{
    let Some((settings, end)) = read_settings(alloc, bytes, 0)? else {
        return Ok(None);
    };
    if end == bytes.len() {
        Ok(Some(settings))
    } else {
        Ok(None)
    }
}

/// The words that the bytes spell; None where they spell none.
pub(crate) fn words_in(alloc: Global, bytes: &[u8]) -> Result<Option<Vec<Text>>, Memory>
    ensures { IfOk result (λ found. EntrySpells are_words words_bytes (Some bytes.now) (option_map (λ v. v.items) found)) }
{
    let Some((words, end)) = read_words(alloc, bytes, 0)? else {
        return Ok(None);
    };
    if end == bytes.len() {
        Ok(Some(words))
    } else {
        Ok(None)
    }
}

/// The section group that the bytes spell; None where they spell none.
pub(crate) fn group_in(alloc: Global, bytes: &[u8]) -> Result<Option<Group>, Memory>
    ensures { IfOk result (λ found. EntrySpells is_named_group group_bytes (Some bytes.now) found) }
{
    let Some((group, end)) = read_group(alloc, bytes, 0)? else {
        return Ok(None);
    };
    if end == bytes.len() {
        Ok(Some(group))
    } else {
        Ok(None)
    }
}

/// The sub-indexes that the bytes spell; None where they spell none.
pub(crate) fn set_in(alloc: Global, bytes: &[u8]) -> Result<Option<Vec<SubIndex>>, Memory>
    ensures { IfOk result (λ found. EntrySpells are_lists set_bytes (Some bytes.now) (option_map (λ v. v.items) found)) }
{
    let Some((set, end)) = read_set(alloc, bytes, 0)? else {
        return Ok(None);
    };
    if end == bytes.len() {
        Ok(Some(set))
    } else {
        Ok(None)
    }
}
