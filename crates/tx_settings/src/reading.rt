//! Preferences read from bytes.

ghost use Rattle.std.specs.Prelude.{◌≡◌, ◌≤◌, true, IfOk, length};
ghost use Rattle.tx_stop.specs.StopKeys.{are_stop_keys};
ghost use Rattle.tx_settings.specs.Attributes.{can_be_set};
ghost use Rattle.tx_settings.specs.PrefsBytes.{Reads, ReadsList, ReadsPrefs, TellsWhetherSpelt, are_lexer_settings, settings_bytes, words_bytes};

use crate::attributes::Setting;
use crate::group_reading::read_group;
use crate::preferences::Prefs;
use crate::setting_reading::read_settings;
use crate::settings::{are_taken, options_of};
use crate::word_reading::read_words;
use ct_base::{Memory, Text};
use std::alloc::Global;
use tx_chars::Key;
use tx_stop::StopKeys;

/// The settings of a lexer preference that stand from `at` on, and the place behind them.
fn read_taken(
    alloc: Global,
    bytes: &[u8],
    at: usize,
) -> Result<Option<(Vec<Setting>, usize)>, Memory>
    ensures { IfOk result (ReadsList are_lexer_settings settings_bytes bytes.now at) }
{
    let Some((settings, next)) = read_settings(alloc, bytes, at)? else {
        return Ok(None);
    };
    if are_taken(settings.as_slice()) {
        Ok(Some((settings, next)))
    } else {
        Ok(None)
    }
}

/// The keys that have the bytes of these words, without a copy.
fn keys_of(alloc: Global, words: Vec<Text>) -> Result<Vec<Key>, Memory>
    ensures { IfOk result (λ keys. keys.items ≡ words.items) }
{
    let mut keys = Vec::new(alloc);
    for word in words {
        keys.push(Key::of(word.into_bytes()))?;
    }
    Ok(keys)
}

/// The stop keys that stand from `at` on, and the place behind them.
fn read_stop(alloc: Global, bytes: &[u8], at: usize) -> Result<Option<(StopKeys, usize)>, Memory>
    ensures { IfOk result (Reads are_stop_keys words_bytes bytes.now at) }
{
    let Some((words, next)) = read_words(alloc, bytes, at)? else {
        return Ok(None);
    };
    let keys = keys_of(alloc, words)?;
    let Some(stop) = StopKeys::read_keys(keys) else {
        return Ok(None);
    };
    Ok(Some((stop, next)))
}

impl Prefs {
    /// Whether the bytes between two places are those of these preferences.
    fn is_spelt(&self, alloc: Global, bytes: &[u8], at: usize, next: usize) -> Result<bool, Memory>
        requires can_be { can_be_set self.now.lexer ≡ true }
        requires from { at ≤ next }
        requires within { next ≤ length bytes.now }
        ensures { IfOk result (TellsWhetherSpelt bytes.now at next self.now) }
    {
        self.keep_rules();
        let spelling = self.bytes(alloc)?;
        Ok(spelling.as_slice() == &bytes[at..next])
    }

    /// The preferences that stand from `at` on, and the place behind them. None exactly where none stand there whose options can
    /// be set. Its cost is the length of what is read, and the square of the number of tags: of the settings each value is tested
    /// before its set is made, which has at most 64 characters then.
    pub fn read(alloc: Global, bytes: &[u8], at: usize) -> Result<Option<(Prefs, usize)>, Memory>
        ensures { IfOk result (ReadsPrefs bytes.now at) }
    {
        let Some((settings, stop_at)) = read_taken(alloc, bytes, at)? else {
            return Ok(None);
        };
        let Some((stop, group_at)) = read_stop(alloc, bytes, stop_at)? else {
            return Ok(None);
        };
        let Some((group, next)) = read_group(alloc, bytes, group_at)? else {
            return Ok(None);
        };
        let lexer = options_of(alloc, settings.as_slice())?;
        let prefs = Prefs { lexer, stop, group };
        // Settings that no options have, as one with a default value, spell no preferences.
        let is_spelt = prefs.is_spelt(alloc, bytes, at, next)?;
        if is_spelt {
            Ok(Some((prefs, next)))
        } else {
            Ok(None)
        }
    }
}
