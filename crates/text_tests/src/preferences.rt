//! Attributes, and preferences as bytes.

use crate::rows::compare_bytes;
use ct_base::{Memory, Text};
use std::alloc::Global;
use std::test::Fail;
use tx_settings::{
    Attribute, Prefs, options_of, put_group, put_words, read_group, read_settings, read_words,
};
use tx_stop::StopKeys;
use tx_tags::Group;

/// Names as they are given, and those of the attributes; empty where there is none.
const NAMES: &[(&str, &str)] = &[
    ("base_letter", "base_letter"),
    ("Endjoins", "endjoins"),
    ("INDEX_TEXT", "index_text"),
    ("index_Themes", "index_themes"),
    ("mixed_case", "mixed_case"),
    ("NumGroup", "numgroup"),
    ("numjoin", "numjoin"),
    ("PrintJoins", "printjoins"),
    ("punctuations", "punctuations"),
    ("SKIPJOINS", "skipjoins"),
    ("startjoins", "startjoins"),
    ("composite", ""),
    ("skipjoin", ""),
    ("", ""),
];

/// The name of the attribute that a text names.
fn name_of(text: &str) -> &'static str {
    match Attribute::named(text) {
        Some(attribute) => attribute.name(),
        None => "",
    }
}

#[test]
fn names(rt: HostRuntime) {
    for (given, name) in NAMES {
        assert_eq!(rt; name_of(given), *name, "of {given:?}");
    }
}

/// Values of attributes, and whether these take them.
const VALUES: &[(Attribute, &str, bool)] = &[
    (Attribute::MixedCase, "Yes", true),
    (Attribute::MixedCase, "NO", true),
    (Attribute::MixedCase, "true", false),
    (Attribute::BaseLetter, "no", true),
    (Attribute::BaseLetter, "", false),
    (Attribute::IndexText, "yes", true),
    (Attribute::IndexText, "no", false),
    (Attribute::IndexThemes, "no", true),
    (Attribute::IndexThemes, "yes", false),
    (Attribute::Numjoin, ".", true),
    (Attribute::Numjoin, "", true),
    (Attribute::Numjoin, "..", false),
    (Attribute::Numgroup, "'", true),
    (Attribute::Skipjoins, "-_-", true),
    (Attribute::Printjoins, "-a", false),
    (Attribute::Printjoins, "٣", false),
    (Attribute::Endjoins, "- ", false),
    (Attribute::Startjoins, "¿¡€", true),
    (
        Attribute::Punctuations,
        "................................................................",
        true,
    ),
    (
        Attribute::Punctuations,
        ".................................................................",
        false,
    ),
];

#[test]
fn values(rt: HostRuntime) {
    for (attribute, value, takes) in VALUES {
        assert!(rt; attribute.takes(value) == *takes, "for {value:?}");
    }
}

/// The bytes of preferences with the options that settings make, which stand behind one other byte; and `none` where no settings
/// stand there.
fn settings_again(alloc: Global, bytes: &[u8]) -> Result<Vec<u8>, Memory> {
    let mut out = Vec::new(alloc);
    match read_settings(alloc, bytes, 1)? {
        Some((settings, _)) => {
            let lexer = options_of(alloc, settings.as_slice())?;
            let stop = StopKeys::none(alloc);
            let group = Group::empty(alloc, true);
            Prefs { lexer, stop, group }.put(&mut out)?;
        }
        None => out.extend_from_slice(b"none")?,
    }
    Ok(out)
}

/// Settings behind an `x`, and preferences with their options: those of the defaults, sets in rising order and flags in capitals,
/// values of the defaults, which aren't written, more than one character for one, and what are no settings.
const SETTINGS: &[(&[u8], &[u8])] = &[
    (b"x\0", b"\0\0\x02\0\0"),
    (
        b"x\x03\x0bbase_letter\x03yes\x09skipjoins\x03_-_\x0astartjoins\x02\xc2\xbf",
        b"\x03\x0bbase_letter\x03YES\x09skipjoins\x02-_\x0astartjoins\x02\xc2\xbf\0\x02\0\0",
    ),
    (
        b"x\x03\x0amixed_case\x02no\x07numjoin\x01.\x0cpunctuations\x03?!.",
        b"\0\0\x02\0\0",
    ),
    (
        b"x\x02\x08numgroup\x02;,\x0cpunctuations\0",
        b"\x02\x08numgroup\x01;\x0cpunctuations\0\0\x02\0\0",
    ),
    (b"x\x02\x09skipjoins\x01-\x07numjoin\0", b"none"),
    (b"x\x02\x07numjoin\0\x07numjoin\0", b"none"),
    (b"x\x01\x09composite\0", b"none"),
    (b"x\x01\x07NUMJOIN\0", b"none"),
    (b"x\x01\x07numjoin\x01\xff", b"none"),
    (b"x\x01\x07numjoin", b"none"),
    (b"x\x01", b"none"),
    (b"x\x80\0", b"none"),
    (b"x", b"none"),
];

/// The bytes of settings that make other preferences.
fn wrong_settings(alloc: Global) -> Result<String, Memory> {
    let mut wrong = String::new(alloc);
    for (bytes, prefs) in SETTINGS {
        let found = settings_again(alloc, bytes)?;
        compare_bytes(alloc, &mut wrong, bytes, &found, prefs)?;
    }
    Ok(wrong)
}

#[test]
fn settings(rt: HostRuntime) -> Result<(), Fail> {
    let wrong = wrong_settings(rt.alloc())?;
    assert_eq!(rt; wrong.as_str(), "");
    Ok(())
}

/// Two words put, read again, and counted.
fn two_words(alloc: Global) -> Result<(usize, usize), Memory> {
    let words = [Text::of(alloc, "is")?, Text::of(alloc, "é")?];
    let mut out = Vec::new(alloc);
    put_words(&mut out, words.as_slice())?;
    Ok(match read_words(alloc, out.as_slice(), 0)? {
        Some((found, next)) => (found.len(), next),
        None => (0, 0),
    })
}

#[test]
fn words(rt: HostRuntime) -> Result<(), Fail> {
    assert_eq!(rt; two_words(rt.alloc())?, (2, 7));
    Ok(())
}

/// A group read and put again, or `none`.
fn group_again(alloc: Global, bytes: &[u8]) -> Result<Vec<u8>, Memory> {
    let mut out = Vec::new(alloc);
    match read_group(alloc, bytes, 0)? {
        Some((group, _)) => put_group(&mut out, &group)?,
        None => out.extend_from_slice(b"none")?,
    }
    Ok(out)
}

/// Groups, and what are none: other bytes in front, a null group with a section, an unknown kind, a name that is none or is kept for
/// sentences, a tag that stands twice or has a capital, and one section less than there are to be.
const GROUPS: &[(&[u8], bool)] = &[
    (b"\x02\0\0", true),
    (b"\x01\x03\0", true),
    (
        b"\x01\x01\x02\x01p\x01\x02\x01p\x02h1\x01t\x02\x01\x01t",
        true,
    ),
    (b"\x01\0\x01\x01v\x03\0", true),
    (b"\0\0\0", false),
    (b"\x01\x04\0", false),
    (b"\x02\0\x01\x01p\x01\x01\x01p", false),
    (b"\x01\0\x01\x01p\x04\x01\x01p", false),
    (b"\x01\0\x01\x01P\x01\x01\x01p", false),
    (b"\x01\0\x01\x08sentence\x01\x01\x01s", false),
    (b"\x01\0\x01\x01p\x01\x02\x01p\x01p", false),
    (b"\x01\0\x02\x01p\x01\x01\x01p", false),
];

/// What bytes that are to be kept, or are none, give when they are read and put again.
fn wanted(bytes: &'static [u8], are_kept: bool) -> &'static [u8] {
    if are_kept { bytes } else { b"none" }
}

/// The bytes that are another group.
fn wrong_groups(alloc: Global) -> Result<String, Memory> {
    let mut wrong = String::new(alloc);
    for (bytes, is_group) in GROUPS {
        let found = group_again(alloc, bytes)?;
        compare_bytes(alloc, &mut wrong, bytes, &found, wanted(bytes, *is_group))?;
    }
    Ok(wrong)
}

#[test]
fn groups(rt: HostRuntime) -> Result<(), Fail> {
    let wrong = wrong_groups(rt.alloc())?;
    assert_eq!(rt; wrong.as_str(), "");
    Ok(())
}

/// Preferences read and put again, or `none`.
fn prefs_again(alloc: Global, bytes: &[u8]) -> Result<Vec<u8>, Memory> {
    let mut out = Vec::new(alloc);
    match Prefs::read(alloc, bytes, 0)? {
        Some((prefs, _)) => prefs.put(&mut out)?,
        None => out.extend_from_slice(b"none")?,
    }
    Ok(out)
}

/// Preferences, and what are none: a default value, a flag that is off, a set that doesn't rise, keys that don't rise, an empty key,
/// a set with a character twice, and one with a letter.
const PREFS: &[(&[u8], bool)] = &[
    (b"\0\0\x02\0\0", true),
    (
        b"\x02\x07numjoin\0\x09skipjoins\x01-\x02\x01a\x03the\x01\0\x01\x01t\x02\x01\x01t",
        true,
    ),
    (b"\x01\x07numjoin\x01.\0\x02\0\0", false),
    (b"\x01\x0amixed_case\x02NO\0\x02\0\0", false),
    (b"\x01\x0amixed_case\x03yes\0\x02\0\0", false),
    (b"\x01\x09skipjoins\x02_-\0\x02\0\0", false),
    (b"\x01\x09skipjoins\x02--\0\x02\0\0", false),
    (b"\x01\x09skipjoins\x01a\0\x02\0\0", false),
    (b"\0\x02\x03the\x01a\x02\0\0", false),
    (b"\0\x01\0\x02\0\0", false),
];

/// The bytes that are other preferences.
fn wrong_prefs(alloc: Global) -> Result<String, Memory> {
    let mut wrong = String::new(alloc);
    for (bytes, are_prefs) in PREFS {
        let found = prefs_again(alloc, bytes)?;
        compare_bytes(alloc, &mut wrong, bytes, &found, wanted(bytes, *are_prefs))?;
    }
    Ok(wrong)
}

#[test]
fn prefs(rt: HostRuntime) -> Result<(), Fail> {
    let wrong = wrong_prefs(rt.alloc())?;
    assert_eq!(rt; wrong.as_str(), "");
    Ok(())
}
