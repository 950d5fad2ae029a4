//! Settings read from bytes.

ghost use Rattle.std.specs.Prelude.{◌≡◌, IfOk};
ghost use Rattle.tx_settings.specs.Attributes.{all_attributes, named_among};
ghost use Rattle.tx_settings.specs.PrefsBytes.{Reads, ReadsList, always, are_listed, are_settings, has_text, name_bytes, rise_from, setting_bytes, settings_bytes};

use crate::attributes::{ALL_ATTRIBUTES, Attribute, Setting};
use crate::word_reading::read_word;
use ct_base::Memory;
use ct_bytes::{read_text, read_varint};
use std::alloc::Global;

/// The attribute that has just this name.
fn attribute_of(name: &[u8]) -> Option<Attribute>
    ensures { result ≡ named_among name.now all_attributes }
{
    let mut rest = ALL_ATTRIBUTES.as_slice();
    while let [first, later @ ..] = rest {
        if first.name().as_bytes() == name {
            return Some(*first);
        }
        rest = later;
    }
    None
}

/// The attribute whose name stands from `at` on, and the place behind it.
fn read_attribute(bytes: &[u8], at: usize) -> Option<(Attribute, usize)>
    ensures { Reads always name_bytes bytes.now at result }
{
    let (name, next) = read_text(bytes, at)?;
    let attribute = attribute_of(name)?;
    Some((attribute, next))
}

/// The setting that stands from `at` on, and the place behind it.
fn read_setting(alloc: Global, bytes: &[u8], at: usize) -> Result<Option<(Setting, usize)>, Memory>
    ensures { IfOk result (Reads has_text setting_bytes bytes.now at) }
{
    let Some((attribute, start)) = read_attribute(bytes, at) else {
        return Ok(None);
    };
    let Some((value, next)) = read_word(alloc, bytes, start)? else {
        return Ok(None);
    };
    Ok(Some((Setting { attribute, value }, next)))
}

/// Settings in any order.
fn read_each(
    alloc: Global,
    bytes: &[u8],
    at: usize,
) -> Result<Option<(Vec<Setting>, usize)>, Memory>
    ensures { IfOk result (ReadsList (are_listed has_text) settings_bytes bytes.now at) }
{
    let Some((count, start)) = read_varint(bytes, at) else {
        return Ok(None);
    };
    let mut settings = Vec::new(alloc);
    let mut place = start;
    'settings: while settings.len() < count as usize {
        let Some((setting, next)) = read_setting(alloc, bytes, place)? else {
            return Ok(None);
        };
        settings.push(setting)?;
        place = next;
    }
    Ok(Some((settings, place)))
}

/// Whether the attributes of settings rise.
fn are_in_order(settings: &[Setting]) -> bool
    ensures { result ≡ rise_from 0 settings.now }
{
    let mut least = 0;
    let mut rest = settings;
    while let [first, later @ ..] = rest {
        let place = first.attribute.place();
        if place < least {
            return false;
        }
        least = place + 1;
        rest = later;
    }
    true
}

/// The settings that stand from `at` on, in the order of their attributes, each once, with texts in UTF-8 as values; and the place
/// behind them. None exactly where none stand there. Its cost is the length of what is read.
pub fn read_settings(
    alloc: Global,
    bytes: &[u8],
    at: usize,
) -> Result<Option<(Vec<Setting>, usize)>, Memory>
    ensures { IfOk result (ReadsList are_settings settings_bytes bytes.now at) }
{
    let Some((settings, next)) = read_each(alloc, bytes, at)? else {
        return Ok(None);
    };
    if are_in_order(settings.as_slice()) {
        Ok(Some((settings, next)))
    } else {
        Ok(None)
    }
}
