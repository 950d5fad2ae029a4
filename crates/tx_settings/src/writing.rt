//! Preferences as bytes.

ghost use Rattle.std.specs.Prelude.{◌≡◌, ◌++◌, ◌<◌, ◌^◌, true, length, IfOk, OnOk, OnErr};
ghost use Rattle.std.specs.List.{list_all};
ghost use Rattle.tx_settings.specs.PrefsBytes.{are_short, flag_byte, group_bytes, has_short_tags, is_short, kind_byte, listed, prefs_bytes, section_bytes, setting_bytes, settings_bytes, words_bytes};

use crate::attributes::Setting;
use crate::preferences::Prefs;
use crate::settings::settings_of;
use ct_base::{Memory, Text};
use ct_bytes::{put_text, put_varint};
use std::alloc::Global;
use tx_chars::Key;
use tx_tags::{Group, Section, SectionKind};

// ---- behind other bytes, of which some may be left where memory fails

fn add_setting(out: &mut Vec<u8>, setting: &Setting) -> Result<(), Memory>
    requires { is_short setting.now.value ≡ true }
    ensures { OnOk result (out.new.items ≡ out.old.items ++ setting_bytes setting.now) }
{
    put_text(out, setting.attribute.name().as_bytes())?;
    put_text(out, setting.value.as_str().as_bytes())
}

fn add_settings(out: &mut Vec<u8>, settings: &[Setting]) -> Result<(), Memory>
    requires few { length settings.now < 2 ^ 32 }
    requires short { are_short settings.now ≡ true }
    ensures { OnOk result (out.new.items ≡ out.old.items ++ settings_bytes settings.now) }
{
    put_varint(out, settings.len() as u32)?;
    let mut rest = settings;
    while let [first, later @ ..] = rest {
        add_setting(out, first)?;
        rest = later;
    }
    Ok(())
}

fn add_words(out: &mut Vec<u8>, words: &[Text]) -> Result<(), Memory>
    requires few { length words.now < 2 ^ 32 }
    requires short { list_all is_short words.now ≡ true }
    ensures { OnOk result (out.new.items ≡ out.old.items ++ words_bytes words.now) }
{
    put_varint(out, words.len() as u32)?;
    let mut rest = words;
    while let [first, later @ ..] = rest {
        put_text(out, first.as_str().as_bytes())?;
        rest = later;
    }
    Ok(())
}

fn add_keys(out: &mut Vec<u8>, keys: &[Key]) -> Result<(), Memory>
    requires few { length keys.now < 2 ^ 32 }
    requires short { list_all is_short keys.now ≡ true }
    ensures { OnOk result (out.new.items ≡ out.old.items ++ words_bytes keys.now) }
{
    put_varint(out, keys.len() as u32)?;
    let mut rest = keys;
    while let [first, later @ ..] = rest {
        put_text(out, first.as_slice())?;
        rest = later;
    }
    Ok(())
}

/// The byte of a kind.
fn kind_byte(kind: SectionKind) -> u8
    ensures { result ≡ kind_byte kind }
{
    match kind {
        SectionKind::Zone => 1,
        SectionKind::Field => 2,
        SectionKind::VisibleField => 3,
    }
}

fn add_section(out: &mut Vec<u8>, section: &Section) -> Result<(), Memory>
    requires { has_short_tags section.now ≡ true }
    ensures { OnOk result (out.new.items ≡ out.old.items ++ section_bytes section.now) }
{
    put_text(out, section.name.as_str().as_bytes())?;
    out.push(kind_byte(section.kind))?;
    add_words(out, section.tags.as_slice())
}

fn add_sections(out: &mut Vec<u8>, sections: &[Section]) -> Result<(), Memory>
    requires few { length sections.now < 2 ^ 32 }
    requires short { list_all has_short_tags sections.now ≡ true }
    ensures { OnOk result (out.new.items ≡ out.old.items ++ listed section_bytes sections.now) }
{
    put_varint(out, sections.len() as u32)?;
    let mut rest = sections;
    while let [first, later @ ..] = rest {
        add_section(out, first)?;
        rest = later;
    }
    Ok(())
}

fn add_group(out: &mut Vec<u8>, group: &Group) -> Result<(), Memory>
    ensures { OnOk result (out.new.items ≡ out.old.items ++ group_bytes group.now) }
{
    out.push(if group.is_null() { 2 } else { 1 })?;
    out.push(flag_byte(group.has_sentences(), group.has_paragraphs()))?;
    add_sections(out, group.sections())
}

/// The flags as one number.
fn flag_byte(sentence: bool, paragraph: bool) -> u8
    ensures { result ≡ flag_byte sentence paragraph }
{
    match (sentence, paragraph) {
        (false, false) => 0,
        (true, false) => 1,
        (false, true) => 2,
        (true, true) => 3,
    }
}

// ---- at the end, or not at all

/// Puts settings at the end: how many, and the name and the value of each. Its cost is the length of the bytes.
pub fn put_settings(out: &mut Vec<u8>, settings: &[Setting]) -> Result<(), Memory>
    requires few { length settings.now < 2 ^ 32 }
    requires short { are_short settings.now ≡ true }
    ensures ok { OnOk result (out.new.items ≡ out.old.items ++ settings_bytes settings.now) }
    ensures err { OnErr result (out.new.items ≡ out.old.items) }
{
    let mut bytes = Vec::new(*out.allocator());
    add_settings(&mut bytes, settings)?;
    out.extend_from_slice(bytes.as_slice())?;
    Ok(())
}

/// Puts words at the end: how many, and each after its length. Its cost is the length of the bytes.
pub fn put_words(out: &mut Vec<u8>, words: &[Text]) -> Result<(), Memory>
    requires few { length words.now < 2 ^ 32 }
    requires short { list_all is_short words.now ≡ true }
    ensures ok { OnOk result (out.new.items ≡ out.old.items ++ words_bytes words.now) }
    ensures err { OnErr result (out.new.items ≡ out.old.items) }
{
    let mut bytes = Vec::new(*out.allocator());
    add_words(&mut bytes, words)?;
    out.extend_from_slice(bytes.as_slice())?;
    Ok(())
}

/// Puts a group at the end: its kind, its flags and its sections. Its cost is the length of the bytes.
pub fn put_group(out: &mut Vec<u8>, group: &Group) -> Result<(), Memory>
    ensures ok { OnOk result (out.new.items ≡ out.old.items ++ group_bytes group.now) }
    ensures err { OnErr result (out.new.items ≡ out.old.items) }
{
    let mut bytes = Vec::new(*out.allocator());
    add_group(&mut bytes, group)?;
    out.extend_from_slice(bytes.as_slice())?;
    Ok(())
}

impl Prefs {
    /// Puts the lexer options, the stop keys and the group at the end, as the entry of an index has them. Its cost is the length
    /// of the bytes.
    pub fn put(&self, out: &mut Vec<u8>) -> Result<(), Memory>
        ensures ok { OnOk result (out.new.items ≡ out.old.items ++ prefs_bytes self.now) }
        ensures err { OnErr result (out.new.items ≡ out.old.items) }
    {
        let bytes = self.bytes(*out.allocator())?;
        out.extend_from_slice(bytes.as_slice())?;
        Ok(())
    }

    /// The bytes of these preferences.
    pub(crate) fn bytes(&self, alloc: Global) -> Result<Vec<u8>, Memory>
        ensures { IfOk result (λ bytes. bytes.items ≡ prefs_bytes self.now) }
    {
        self.keep_parts();
        let settings = settings_of(alloc, &self.lexer)?;
        let mut bytes = Vec::new(alloc);
        add_settings(&mut bytes, settings.as_slice())?;
        add_keys(&mut bytes, self.stop.keys())?;
        add_group(&mut bytes, &self.group)?;
        Ok(bytes)
    }
}
