//! What calls put into a batch.

ghost use Rattle.std.specs.Prelude.{◌≡◌, true, [], ◌∷◌, IfOk, IfSome};
ghost use Rattle.ct_entry.specs.Changes.{spell, put_value};
ghost use Rattle.ct_entry.specs.Keys.{key};
ghost use Rattle.ct_entry.specs.Shapes.{AreShaped};
ghost use Rattle.tx_settings.specs.PrefsBytes.{are_settings, are_words, settings_bytes, words_bytes};
ghost use Rattle.tx_prefs.specs.Shapes.{HasPrefValue};
ghost use Rattle.tx_sets.specs.Sets.{are_sub_indexes};
ghost use Rattle.tx_prefs.specs.Spelling.{MakesBatch, lexer_changes, stoplist_changes, group_changes, set_changes};

use ct_base::{Memory, Name, Text};
use ct_entry::{Kind, put_entry};
use ct_keep::{Batch, VALUE_LIMIT};
use std::alloc::Global;
use tx_sets::{SubIndex, keep_names as keep_set_names, put_set};
use tx_settings::{Setting, keep_names, put_group as group_bytes, put_settings, put_words};
use tx_tags::Group;

/// The change by which the entry of a name has this value.
fn change(alloc: Global, kind: Kind, name: &Name, value: Vec<u8>) -> Result<Batch, Memory>
    ensures { IfOk result (λ batch. batch ≡ spell (put_value (key kind name.now []) value.items ∷ [])) }
{
    let mut batch = Batch::new(alloc);
    put_entry(alloc, &mut batch, kind, name, &[], value)?;
    Ok(batch)
}

/// The batch that stores the settings of a lexer preference under this name, in place of what it had. None where its entry would be
/// longer than a value may be.
pub fn lexer_changes(
    alloc: Global,
    name: &Name,
    settings: &[Setting],
) -> Result<Option<Batch>, Memory>
    requires { are_settings settings.now ≡ true }
    ensures changes { IfOk result (MakesBatch (settings_bytes settings.now) (lexer_changes name.now settings.now)) }
    ensures shaped { IfOk result (λ found. IfSome found (AreShaped HasPrefValue)) }
{
    let _named = name.as_str();
    let mut value = Vec::new(alloc);
    put_settings(&mut value, settings)?;
    if value.len() > VALUE_LIMIT {
        return Ok(None);
    }
    Ok(Some(change(alloc, Kind::Preferences, name, value)?))
}

/// The batch that stores the words of a stoplist under this name, in place of what it had. None where its entry would be longer
/// than a value may be.
pub fn stoplist_changes(alloc: Global, name: &Name, words: &[Text]) -> Result<Option<Batch>, Memory>
    requires { are_words words.now ≡ true }
    ensures changes { IfOk result (MakesBatch (words_bytes words.now) (stoplist_changes name.now words.now)) }
    ensures shaped { IfOk result (λ found. IfSome found (AreShaped HasPrefValue)) }
{
    let _named = name.as_str();
    let mut value = Vec::new(alloc);
    put_words(&mut value, words)?;
    if value.len() > VALUE_LIMIT {
        return Ok(None);
    }
    Ok(Some(change(alloc, Kind::Stoplists, name, value)?))
}

/// The batch that stores a section group under this name, in place of what it had.
pub fn group_changes(alloc: Global, name: &Name, group: &Group) -> Result<Batch, Memory>
    ensures changes { IfOk result (λ batch. batch ≡ spell (group_changes name.now group.now)) }
    ensures shaped { IfOk result (AreShaped HasPrefValue) }
{
    let _named = name.as_str();
    keep_names(group.sections());
    let mut value = Vec::new(alloc);
    group_bytes(&mut value, group)?;
    change(alloc, Kind::SectionGroups, name, value)
}

/// The batch that stores the sub-indexes of an index set under this name, in place of what it had.
pub fn set_changes(alloc: Global, name: &Name, set: &[SubIndex]) -> Result<Batch, Memory>
    requires { are_sub_indexes set.now ≡ true }
    ensures changes { IfOk result (λ batch. batch ≡ spell (set_changes name.now set.now)) }
    ensures shaped { IfOk result (AreShaped HasPrefValue) }
{
    let _named = name.as_str();
    keep_set_names(set);
    let mut value = Vec::new(alloc);
    put_set(&mut value, set)?;
    change(alloc, Kind::IndexSets, name, value)
}
