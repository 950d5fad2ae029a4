//! Settings and the options that they make.

ghost use Rattle.std.specs.Prelude.{◌≡◌, ◌++◌, true, IfOk, OnOk};
ghost use Rattle.std.specs.Str.{encode_utf8_all};
ghost use Rattle.tx_settings.specs.Attributes.{are_taken, can_be_set, char_setting, flag_setting, options_of, set_setting, settings_of, with_value};

use crate::attributes::Attribute::{
    BaseLetter, Endjoins, MixedCase, Numgroup, Numjoin, Printjoins, Punctuations, Skipjoins,
    Startjoins,
};
use crate::attributes::{Attribute, Setting, is_yes};
use ct_base::{Memory, Text, first_char};
use std::alloc::Global;
use tx_lexer::{CharSet, LexerOptions};

/// Whether the attribute of each setting takes its value. Its cost is linear in the length of the values.
pub fn are_taken(settings: &[Setting]) -> bool
    ensures { result ≡ are_taken settings.now }
{
    let mut rest = settings;
    while let [first, later @ ..] = rest {
        if !first.attribute.takes(first.value.as_str()) {
            return false;
        }
        rest = later;
    }
    true
}

/// What a setting makes of the options.
fn apply(alloc: Global, options: &mut LexerOptions, setting: &Setting) -> Result<(), Memory>
    ensures { IfOk result (λ _. options.new ≡ with_value setting.now.attribute setting.now.value options.old) }
{
    let value = setting.value.as_str();
    match setting.attribute {
        Attribute::BaseLetter => options.base_letter = is_yes(value),
        Attribute::Endjoins => options.endjoins = CharSet::of(alloc, value)?,
        Attribute::IndexText | Attribute::IndexThemes => {}
        Attribute::MixedCase => options.mixed_case = is_yes(value),
        Attribute::Numgroup => options.numgroup = first_char(value),
        Attribute::Numjoin => options.numjoin = first_char(value),
        Attribute::Printjoins => options.printjoins = CharSet::of(alloc, value)?,
        Attribute::Punctuations => options.punctuations = CharSet::of(alloc, value)?,
        Attribute::Skipjoins => options.skipjoins = CharSet::of(alloc, value)?,
        Attribute::Startjoins => options.startjoins = CharSet::of(alloc, value)?,
    }
    Ok(())
}

/// The options that settings make of the default ones, one after the other. Its cost is linear in the length of their values,
/// and for a set quadratic in the number of its characters.
pub fn options_of(alloc: Global, settings: &[Setting]) -> Result<LexerOptions, Memory>
    ensures options { IfOk result (λ o. o ≡ options_of settings.now) }
    ensures can_be_set { are_taken settings.now ≡ true → IfOk result (λ o. can_be_set o ≡ true) }
{
    let mut options = LexerOptions::defaults(alloc)?;
    let mut rest = settings;
    while let [first, later @ ..] = rest {
        apply(alloc, &mut options, first)?;
        rest = later;
    }
    Ok(options)
}

/// The text of these characters.
fn text_of(alloc: Global, chars: &[char]) -> Result<Text, Memory>
    ensures { IfOk result (λ t. t ≡ encode_utf8_all chars.now) }
{
    let mut text = String::new(alloc);
    let mut rest = chars;
    while let [first, later @ ..] = rest {
        text.push(*first)?;
        rest = later;
    }
    Ok(Text::owned(text))
}

fn add_flag(settings: &mut Vec<Setting>, attribute: Attribute, flag: bool) -> Result<(), Memory>
    ensures { OnOk result (settings.new.items ≡ settings.old.items ++ flag_setting attribute flag) }
{
    if flag {
        let value = Text::of(*settings.allocator(), "YES")?;
        settings.push(Setting { attribute, value })?;
    }
    Ok(())
}

fn add_chars(
    settings: &mut Vec<Setting>,
    attribute: Attribute,
    default: &[char],
    set: &[char],
) -> Result<(), Memory>
    ensures { OnOk result (settings.new.items ≡ settings.old.items ++ set_setting attribute default.now set.now) }
{
    if set != default {
        let value = text_of(*settings.allocator(), set)?;
        settings.push(Setting { attribute, value })?;
    }
    Ok(())
}

fn add_set(
    settings: &mut Vec<Setting>,
    attribute: Attribute,
    default: &CharSet,
    set: &CharSet,
) -> Result<(), Memory>
    ensures { OnOk result (settings.new.items ≡ settings.old.items ++ set_setting attribute default.now set.now) }
{
    add_chars(settings, attribute, default.as_slice(), set.as_slice())
}

fn add_char(
    settings: &mut Vec<Setting>,
    attribute: Attribute,
    default: Option<char>,
    c: Option<char>,
) -> Result<(), Memory>
    ensures { OnOk result (settings.new.items ≡ settings.old.items ++ char_setting attribute default c) }
{
    add_chars(settings, attribute, default.as_slice(), c.as_slice())
}

/// The settings that make these options of the default ones, in the order of their attributes. Its cost is linear in the number of
/// the characters of all sets.
pub fn settings_of(alloc: Global, lexer: &LexerOptions) -> Result<Vec<Setting>, Memory>
    ensures { IfOk result (λ v. v.items ≡ settings_of lexer.now) }
{
    let plain = LexerOptions::defaults(alloc)?;
    let mut settings = Vec::new(alloc);
    let all = &mut settings;
    add_flag(all, BaseLetter, lexer.base_letter)?;
    add_set(all, Endjoins, &plain.endjoins, &lexer.endjoins)?;
    add_flag(all, MixedCase, lexer.mixed_case)?;
    add_char(all, Numgroup, plain.numgroup, lexer.numgroup)?;
    add_char(all, Numjoin, plain.numjoin, lexer.numjoin)?;
    add_set(all, Printjoins, &plain.printjoins, &lexer.printjoins)?;
    add_set(all, Punctuations, &plain.punctuations, &lexer.punctuations)?;
    add_set(all, Skipjoins, &plain.skipjoins, &lexer.skipjoins)?;
    add_set(all, Startjoins, &plain.startjoins, &lexer.startjoins)?;
    Ok(settings)
}
