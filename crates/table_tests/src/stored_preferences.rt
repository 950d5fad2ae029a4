//! Preferences in a keeper in memory.

use crate::index_sets::{say_set, set_change};
use ct_base::{Memory, Name, Text};
use ct_entry::Kind;
use ct_keep::{Batch, KeepFault, MemKeeper};
use std::alloc::Global;
use std::test::Fail;
use test_keepers::{commit, named, new_keeper};
use tx_prefs::{
    Parameters, PrefKind, Request, asks_only, copy, group_changes, has_named, is_kind_full,
    is_pref_shape, lexer_changes, lexer_settings, read_requests, requested_parameters,
    requested_set, section_group, stoplist_changes, stoplist_words, unknown_request, with_setting,
};
use tx_settings::{Attribute, Prefs, Setting, read_group, read_settings, read_words};
use tx_tags::Section;

/// Commits the changes, if there are any.
fn commit_some(
    alloc: Global,
    keeper: &mut MemKeeper,
    batch: Option<Batch>,
) -> Result<(), KeepFault> {
    match batch {
        Some(batch) => commit(alloc, keeper, batch),
        None => Err(KeepFault::Full),
    }
}

/// The change by which the lexer preference has the settings that the bytes spell.
fn lexer_change(alloc: Global, name: &Name, bytes: &[u8]) -> Result<Option<Batch>, Memory> {
    match read_settings(alloc, bytes, 0)? {
        Some((settings, _)) => lexer_changes(alloc, name, &settings),
        None => Ok(None),
    }
}

/// The change by which the stoplist has the words that the bytes spell.
fn stoplist_change(alloc: Global, name: &Name, bytes: &[u8]) -> Result<Option<Batch>, Memory> {
    match read_words(alloc, bytes, 0)? {
        Some((words, _)) => stoplist_changes(alloc, name, &words),
        None => Ok(None),
    }
}

/// The change by which the section group is the one that the bytes spell.
fn group_change(alloc: Global, name: &Name, bytes: &[u8]) -> Result<Option<Batch>, Memory> {
    match read_group(alloc, bytes, 0)? {
        Some((group, _)) => Ok(Some(group_changes(alloc, name, &group)?)),
        None => Ok(None),
    }
}

/// Stores what the bytes spell.
fn add(
    alloc: Global,
    keeper: &mut MemKeeper,
    kind: PrefKind,
    name: &Name,
    bytes: &[u8],
) -> Result<(), KeepFault> {
    let batch = match kind {
        PrefKind::Lexer => lexer_change(alloc, name, bytes)?,
        PrefKind::Stoplist => stoplist_change(alloc, name, bytes)?,
        PrefKind::SectionGroup => group_change(alloc, name, bytes)?,
        PrefKind::IndexSet => set_change(alloc, name, bytes)?,
    };
    commit_some(alloc, keeper, batch)
}

const STORED: &[(PrefKind, &str, &[u8])] = &[
    (PrefKind::Stoplist, "sl", b"\x01\x05other"),
    (
        PrefKind::Lexer,
        "lx",
        b"\x02\x0amixed_case\x03Yes\x09skipjoins\x01-",
    ),
    (PrefKind::Stoplist, "sl", b"\x02\x03the\x02Is"),
    (
        PrefKind::SectionGroup,
        "g",
        b"\x01\x01\x01\x01p\x01\x02\x01p\x02h1",
    ),
    (
        PrefKind::IndexSet,
        "iset",
        b"\x02\x01\x05price\x02\x04kind\x05price",
    ),
];

/// A keeper in memory with a preference, a stoplist whose words were others at first, a section group and an index set.
fn stored(alloc: Global) -> Result<MemKeeper, KeepFault> {
    let mut keeper = new_keeper(alloc)?;
    for (kind, name, bytes) in STORED {
        let name = named(alloc, name)?;
        add(alloc, &mut keeper, *kind, &name, bytes)?;
    }
    Ok(keeper)
}

pub(crate) fn say(line: &mut String, text: &str) -> Result<(), Memory> {
    line.push_str(text)?;
    line.push_str(" ")?;
    Ok(())
}

fn say_settings(line: &mut String, settings: &[Setting]) -> Result<(), Memory> {
    for setting in settings {
        say(line, setting.attribute.name())?;
        say(line, setting.value.as_str())?;
    }
    Ok(())
}

fn say_words(line: &mut String, words: &[Text]) -> Result<(), Memory> {
    for word in words {
        say(line, word.as_str())?;
    }
    Ok(())
}

fn say_sections(line: &mut String, sections: &[Section]) -> Result<(), Memory> {
    for section in sections {
        say(line, section.name.as_str())?;
        say_words(line, section.tags.as_slice())?;
    }
    Ok(())
}

fn say_lexer(
    alloc: Global,
    line: &mut String,
    keeper: &mut MemKeeper,
    name: &Name,
) -> Result<(), KeepFault> {
    if let Some(settings) = lexer_settings(alloc, keeper, name)? {
        say_settings(line, &settings)?;
    }
    Ok(())
}

fn say_stoplist(
    alloc: Global,
    line: &mut String,
    keeper: &mut MemKeeper,
    name: &Name,
) -> Result<(), KeepFault> {
    if let Some(words) = stoplist_words(alloc, keeper, name)? {
        say_words(line, &words)?;
    }
    Ok(())
}

fn say_group(
    alloc: Global,
    line: &mut String,
    keeper: &mut MemKeeper,
    name: &Name,
) -> Result<(), KeepFault> {
    if let Some(group) = section_group(alloc, keeper, name)? {
        say_sections(line, group.sections())?;
    }
    Ok(())
}

/// Says what a name is of this kind.
fn say_stored(
    alloc: Global,
    line: &mut String,
    keeper: &mut MemKeeper,
    kind: PrefKind,
    name: &Name,
) -> Result<(), KeepFault> {
    match kind {
        PrefKind::Lexer => say_lexer(alloc, line, keeper, name)?,
        PrefKind::Stoplist => say_stoplist(alloc, line, keeper, name)?,
        PrefKind::SectionGroup => say_group(alloc, line, keeper, name)?,
        PrefKind::IndexSet => say_set(alloc, line, keeper, name)?,
    }
    let is_there = has_named(alloc, keeper, kind, name)?;
    say(line, if is_there { "there" } else { "gone" })?;
    Ok(())
}

fn stored_line(alloc: Global, kind: PrefKind, name: &str) -> Result<String, KeepFault> {
    let mut keeper = stored(alloc)?;
    let name = named(alloc, name)?;
    let mut line = String::new(alloc);
    say_stored(alloc, &mut line, &mut keeper, kind, &name)?;
    Ok(line)
}

/// Names, and what they are.
const LINES: &[(PrefKind, &str, &str)] = &[
    (PrefKind::Lexer, "lx", "mixed_case Yes skipjoins - there "),
    (PrefKind::Stoplist, "sl", "the Is there "),
    (PrefKind::SectionGroup, "g", "p p h1 there "),
    (PrefKind::IndexSet, "iset", "price / kind price / there "),
    (PrefKind::IndexSet, "g", "gone "),
    (PrefKind::Lexer, "sl", "gone "),
    (PrefKind::Stoplist, "s", "gone "),
    (PrefKind::SectionGroup, "lx", "gone "),
];

#[test]
fn lookups(rt: HostRuntime) -> Result<(), Fail> {
    for (kind, name, line) in LINES {
        let found = stored_line(rt.alloc(), *kind, name)?;
        assert_eq!(rt; found.as_str(), *line, "of {name:?}");
    }
    Ok(())
}

/// Whether there are as many stoplists as there may be, with so many of them.
fn is_full_of(alloc: Global, count: u16) -> Result<bool, KeepFault> {
    let mut keeper = stored(alloc)?;
    for i in 1..count {
        let text = format!(in alloc; "s{i}").map_err(Memory::from)?;
        let name = named(alloc, text.as_str())?;
        add(alloc, &mut keeper, PrefKind::Stoplist, &name, b"\0")?;
    }
    is_kind_full(alloc, &mut keeper, PrefKind::Stoplist)
}

#[test]
fn limits(rt: HostRuntime) -> Result<(), Fail> {
    for (count, is_full) in [(255, false), (256, true)] {
        assert!(rt; is_full_of(rt.alloc(), count)? == is_full, "{count}");
    }
    Ok(())
}

/// The name, if there is one.
fn optional(alloc: Global, text: &str) -> Result<Option<Name>, Memory> {
    if text.is_empty() {
        return Ok(None);
    }
    Ok(Some(named(alloc, text)?))
}

/// Names of a preference, a stoplist and a section group; empty where there is none.
type Names = (&'static str, &'static str, &'static str);

fn parameters(alloc: Global, names: Names) -> Result<Parameters, Memory> {
    Ok(Parameters {
        lexer: optional(alloc, names.0)?,
        stoplist: optional(alloc, names.1)?,
        group: optional(alloc, names.2)?,
    })
}

/// Whether case is kept, how many stop keys and characters that are left out there are, and the sections.
fn say_prefs(alloc: Global, line: &mut String, prefs: &Prefs) -> Result<(), Memory> {
    let mixed = prefs.lexer.mixed_case;
    let count = prefs.stop.keys().len();
    let left_out = prefs.lexer.skipjoins.as_slice().len();
    let numbers = format!(in alloc; "{mixed} {count} {left_out}")?;
    say(line, numbers.as_str())?;
    say_sections(line, prefs.group.sections())
}

/// The preferences that are copied, if each name is there.
fn copied(alloc: Global, names: Names) -> Result<Option<Prefs>, KeepFault> {
    let asked = parameters(alloc, names)?;
    let mut keeper = stored(alloc)?;
    copy(alloc, &mut keeper, &asked)
}

/// The same in a line, or `none`.
fn copied_line(alloc: Global, names: Names) -> Result<String, KeepFault> {
    let mut line = String::new(alloc);
    match copied(alloc, names)? {
        Some(prefs) => say_prefs(alloc, &mut line, &prefs)?,
        None => say(&mut line, "none")?,
    }
    Ok(line)
}

/// Names of a preference, a stoplist and a group, and what is copied.
const COPIES: &[(Names, &str)] = &[
    (("", "", ""), "false 0 0 "),
    (("lx", "sl", "g"), "true 2 1 p p h1 "),
    (("", "sl", ""), "false 2 0 "),
    (("g", "", ""), "none "),
    (("", "lx", ""), "none "),
    (("lx", "sl", "sl"), "none "),
];

#[test]
fn copies(rt: HostRuntime) -> Result<(), Fail> {
    for (names, line) in COPIES {
        let found = copied_line(rt.alloc(), *names)?;
        assert_eq!(rt; found.as_str(), *line, "of {names:?}");
    }
    Ok(())
}

/// Entries by their kinds, the rests of their keys and their values, and whether they are well shaped.
const SHAPES: &[(Kind, &[u8], &[u8], bool)] = &[
    (Kind::Preferences, b"", b"\x01\x09skipjoins\x01-", true),
    (Kind::Preferences, b"", b"\x01\x09skipjoins\x01-\0", false),
    (Kind::Preferences, b"\0", b"\x01\x09skipjoins\x01-", false),
    (Kind::Stoplists, b"", b"\x02\x03the\x02Is", true),
    (Kind::Stoplists, b"", b"\x03\x03the\x02Is", false),
    (Kind::SectionGroups, b"", b"\x02\0\0", true),
    (Kind::SectionGroups, b"", b"\x02\0\0\0", false),
    (Kind::IndexSets, b"", b"\x02\x01\x05price\0", true),
    (Kind::IndexSets, b"", b"\x02\x01\x05price", false),
    (Kind::IndexSets, b"", b"\x01\x01\x05Price", false),
    (Kind::Tables, b"", b"\x02\0\0", false),
];

#[test]
fn shapes(rt: HostRuntime) -> Result<(), Fail> {
    for (kind, part, value, is) in SHAPES {
        assert!(rt;
            is_pref_shape(rt.alloc(), *kind, part, value)? == *is,
            "of {value:?}"
        );
    }
    Ok(())
}

fn say_name(line: &mut String, name: &Option<Name>) -> Result<(), Memory> {
    match name {
        Some(name) => say(line, name.as_str()),
        None => say(line, "-"),
    }
}

/// What a catalogue may ask for.
const OF_CATALOGUES: &[PrefKind] = &[PrefKind::Lexer, PrefKind::Stoplist, PrefKind::IndexSet];

/// Whether a catalogue may ask for these.
fn say_taken(line: &mut String, requests: &[Request]) -> Result<(), Memory> {
    if asks_only(OF_CATALOGUES, requests) {
        say(line, "taken")
    } else {
        say(line, "refused")
    }
}

/// The name that none has, if there is one, those of the preference, the stoplist, the group and the index set, and whether a
/// catalogue may ask for them.
fn say_requests(alloc: Global, line: &mut String, requests: &[Request]) -> Result<(), KeepFault> {
    let mut keeper = stored(alloc)?;
    let unknown = unknown_request(alloc, &mut keeper, requests)?;
    let asked = requested_parameters(requests)?;
    say_name(line, &unknown)?;
    say_name(line, &asked.lexer)?;
    say_name(line, &asked.stoplist)?;
    say_name(line, &asked.group)?;
    say_name(line, &requested_set(requests)?)?;
    say_taken(line, requests)?;
    Ok(())
}

fn requests_line(alloc: Global, text: &str) -> Result<String, KeepFault> {
    let mut line = String::new(alloc);
    match read_requests(alloc, text)? {
        Some(requests) => say_requests(alloc, &mut line, &requests)?,
        None => say(&mut line, "none")?,
    }
    Ok(line)
}

/// Texts, and what they ask for.
const REQUESTS: &[(&str, &str)] = &[
    ("", "- - - - - taken "),
    (
        " Lexer LX\n\tSECTION group ctxsys.Null_Section_Group ",
        "- lx - - - refused ",
    ),
    (
        "stoplist sl section group g lexer lx",
        "- lx sl g - refused ",
    ),
    (
        "lexer ctxsys.default_lexer stoplist lx section group sl",
        "lx - lx sl - refused ",
    ),
    ("lexer lx INDEX\tset ISET", "- lx - - iset taken "),
    ("index set g stoplist sl", "g - sl - g taken "),
    ("index set", "none "),
    ("index lx", "none "),
    ("index set iset index set iset", "none "),
    ("index set ctxsys.empty_index_set", "none "),
    ("lexer a lexer b", "none "),
    ("lexer", "none "),
    ("section g", "none "),
    ("lexer lé", "none "),
    ("lexer lx transactional", "none "),
    ("lexer ctxsys.empty_stoplist", "none "),
];

#[test]
fn requests(rt: HostRuntime) -> Result<(), Fail> {
    for (text, line) in REQUESTS {
        let found = requests_line(rt.alloc(), text)?;
        assert_eq!(rt; found.as_str(), *line, "of {text:?}");
    }
    Ok(())
}

/// Two settings with a third.
fn set_line(alloc: Global, attribute: Attribute, value: &str) -> Result<String, Memory> {
    let mut line = String::new(alloc);
    let bytes = b"\x02\x0amixed_case\x03Yes\x09skipjoins\x01-";
    if let Some((settings, _)) = read_settings(alloc, bytes, 0)? {
        let value = Text::of(alloc, value)?;
        let more = with_setting(alloc, settings, Setting { attribute, value })?;
        say_settings(&mut line, &more)?;
    }
    Ok(line)
}

/// An attribute with its value, and the settings with it.
const SET: &[(Attribute, &str, &str)] = &[
    (Attribute::MixedCase, "no", "mixed_case no skipjoins - "),
    (
        Attribute::Numjoin,
        ".",
        "mixed_case Yes numjoin . skipjoins - ",
    ),
    (Attribute::Skipjoins, "_", "mixed_case Yes skipjoins _ "),
    (
        Attribute::BaseLetter,
        "no",
        "base_letter no mixed_case Yes skipjoins - ",
    ),
    (
        Attribute::Startjoins,
        "#",
        "mixed_case Yes skipjoins - startjoins # ",
    ),
];

#[test]
fn settings(rt: HostRuntime) -> Result<(), Fail> {
    for (attribute, value, line) in SET {
        let found = set_line(rt.alloc(), *attribute, value)?;
        assert_eq!(rt; found.as_str(), *line, "of {value:?}");
    }
    Ok(())
}
