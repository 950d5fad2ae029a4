//! Documents by several preferences, and their entries.

use crate::rows::{compare, key_text};
use ct_base::{Memory, Name, Text};
use std::alloc::Global;
use std::test::Fail;
use tx_document::{DocView, Entry, SectionView, WordView, analyse};
use tx_lexer::LexerOptions;
use tx_settings::Prefs;
use tx_stop::StopKeys;
use tx_tags::{Group, SectionKind};

/// A section, its kind, and a tag of it.
type Row = (&'static str, SectionKind, &'static str);

/// The zones p and q, the field t, and the field v, which is visible.
const ROWS: &[Row] = &[
    ("p", SectionKind::Zone, "p"),
    ("q", SectionKind::Zone, "q"),
    ("t", SectionKind::Field, "t"),
    ("v", SectionKind::VisibleField, "v"),
];

/// The group of these sections.
fn group_of(alloc: Global, rows: &[Row]) -> Result<Group, Memory> {
    let mut group = Group::empty(alloc, false);
    for (section, kind, tag) in rows {
        let name = Name::read(alloc, section).map_err(|_| Memory)?;
        let Some(next) = group.with_tag(alloc, &name, *kind, tag)? else {
            return Err(Memory);
        };
        group = next;
    }
    Ok(group)
}

/// Preferences with these sections, and the stopword `is`.
fn prefs_of(alloc: Global, group: Group) -> Result<Prefs, Memory> {
    let stop = [Text::of(alloc, "is")?];
    Ok(Prefs {
        lexer: LexerOptions::defaults(alloc)?,
        stop: StopKeys::new(alloc, &stop, false, false)?,
        group,
    })
}

/// The streams of a word, each behind a blank.
fn spell_streams(alloc: Global, line: &mut String, streams: &[u8]) -> Result<(), Memory> {
    for stream in streams {
        let text = format!(in alloc; " {stream}")?;
        line.push_str(text.as_str())?;
    }
    Ok(())
}

fn key_or_none(word: &WordView) -> &str {
    match &word.key {
        None => "-",
        Some(key) => key_text(key.as_slice()),
    }
}

/// A word: its position and key, its streams, and its places.
fn spell_word(alloc: Global, line: &mut String, word: &WordView) -> Result<(), Memory> {
    let position = word.position;
    let key = key_or_none(word);
    let text = format!(in alloc; "{position} {key}")?;
    line.push_str(text.as_str())?;
    spell_streams(alloc, line, word.streams.as_slice())?;
    let start = word.start;
    let end = word.end;
    let text = format!(in alloc; " at {start} {end}; ")?;
    line.push_str(text.as_str())?;
    Ok(())
}

fn spell_section(alloc: Global, line: &mut String, section: &SectionView) -> Result<(), Memory> {
    let name = section.section.as_str();
    let first = section.first;
    let last = section.last;
    let text = format!(in alloc; "{name} {first} {last}; ")?;
    line.push_str(text.as_str())?;
    Ok(())
}

/// A document in one line.
fn spelt(alloc: Global, document: &DocView) -> Result<String, Memory> {
    let mut line = String::new(alloc);
    for word in document.words.as_slice() {
        spell_word(alloc, &mut line, word)?;
    }
    line.push_str("| ")?;
    for section in document.sections.as_slice() {
        spell_section(alloc, &mut line, section)?;
    }
    Ok(line)
}

fn spell_entry(alloc: Global, line: &mut String, entry: &Entry) -> Result<(), Memory> {
    let stream = entry.stream;
    let token = key_text(entry.token.as_slice());
    let text = format!(in alloc; "{stream} {token}")?;
    line.push_str(text.as_str())?;
    for place in entry.places.as_slice() {
        let first = place.first;
        let last = place.last;
        let text = format!(in alloc; " {first}-{last}")?;
        line.push_str(text.as_str())?;
    }
    line.push_str("; ")?;
    Ok(())
}

/// The entries of a document in one line.
fn spelt_entries(alloc: Global, document: &DocView) -> Result<String, Memory> {
    let mut line = String::new(alloc);
    for entry in &document.entries(alloc)? {
        spell_entry(alloc, &mut line, entry)?;
    }
    Ok(line)
}

/// A text of at most 300 bytes by preferences.
fn document_of(alloc: Global, prefs: &Prefs, text: &str) -> Result<DocView, Memory> {
    if text.len() > 300 {
        return Err(Memory);
    }
    analyse(alloc, prefs, text)
}

/// What a text is by preferences, in one line.
fn read(alloc: Global, prefs: &Prefs, text: &str) -> Result<String, Memory> {
    let document = document_of(alloc, prefs, text)?;
    spelt(alloc, &document)
}

/// Texts with sections: fields and zones, a word of two fields, equal instances, an empty one, one that is never closed, tags that
/// cross.
const TAGGED: &[(&str, &str)] = &[
    ("", "| "),
    (
        "<T>alpha</T> <Q>one <P>beta</P></Q>",
        "1 alpha 1 at 3 8; 2 one 0 at 16 19; 3 beta 0 at 23 27; | p 3 3; q 2 3; ",
    ),
    (
        "a <v>b <t>c</t></v> d",
        "1 a 0 at 0 1; 2 b 0 2 at 5 6; 3 c 1 2 at 10 11; 4 d 0 at 20 21; | ",
    ),
    ("<P><P>a</P></P><Q> </Q>", "1 a 0 at 6 7; | p 1 1; "),
    (
        "<p>a<q>b</p>c",
        "1 a 0 at 3 4; 2 b 0 at 7 8; 3 c 0 at 12 13; | p 1 2; q 2 3; ",
    ),
    (
        "<q>b</q> <t>a <t>b</t> c</t> d <p>is</p>",
        "1 b 0 at 3 4; 2 a 1 at 12 13; 3 b 1 at 17 18; 4 c 1 at 23 24; 5 d 0 at 29 30; 6 - 0 at 34 36; | p 6 6; q 1 1; ",
    ),
];

fn full_prefs(alloc: Global) -> Result<Prefs, Memory> {
    prefs_of(alloc, group_of(alloc, ROWS)?)
}

/// Compares the document that a text is with what it is to be.
fn compare_document(
    alloc: Global,
    wrong: &mut String,
    prefs: &Prefs,
    text: &str,
    document: &str,
) -> Result<(), Memory> {
    let found = read(alloc, prefs, text)?;
    compare(alloc, wrong, text, found.as_str(), document)
}

/// The texts that are other documents.
fn wrong_documents(alloc: Global) -> Result<String, Memory> {
    let prefs = full_prefs(alloc)?;
    let mut wrong = String::new(alloc);
    for (text, document) in TAGGED {
        compare_document(alloc, &mut wrong, &prefs, text, document)?;
    }
    Ok(wrong)
}

#[test]
fn sections_and_words(rt: HostRuntime) -> Result<(), Fail> {
    let wrong = wrong_documents(rt.alloc())?;
    assert_eq!(rt; wrong.as_str(), "");
    Ok(())
}

fn read_by_default(alloc: Global, text: &str) -> Result<String, Memory> {
    let prefs = Prefs::defaults(alloc)?;
    prefs.keep_rules();
    read(alloc, &prefs, text)
}

/// A text without sections.
#[test]
fn by_default(rt: HostRuntime) -> Result<(), Fail> {
    let found = read_by_default(rt.alloc(), "Jack <p>is</p>.")?;
    assert_eq!(rt;
        found.as_str(),
        "1 jack 0 at 0 4; 2 p 0 at 6 7; 3 is 0 at 8 10; 4 p 0 at 12 13; | "
    );
    Ok(())
}

/// The sections of a document in one line.
fn sections_text(alloc: Global, document: &DocView) -> Result<String, Memory> {
    let mut line = String::new(alloc);
    for section in document.sections.as_slice() {
        spell_section(alloc, &mut line, section)?;
    }
    Ok(line)
}

/// The sentences and paragraphs of a text.
fn special_sections(alloc: Global, text: &str) -> Result<String, Memory> {
    let group = Group::empty(alloc, false)
        .with_sentences()
        .with_paragraphs();
    let prefs = prefs_of(alloc, group)?;
    let document = document_of(alloc, &prefs, text)?;
    sections_text(alloc, &document)
}

/// Sentences and paragraphs: the last run needs no end.
#[test]
fn sentences_and_paragraphs(rt: HostRuntime) -> Result<(), Fail> {
    let line = special_sections(rt.alloc(), "a b. c.\n d")?;
    assert_eq!(rt;
        line.as_str(),
        "paragraph 1 3; paragraph 4 4; sentence 1 2; sentence 3 3; sentence 4 4; "
    );
    Ok(())
}

fn entries_by_prefs(alloc: Global, text: &str) -> Result<String, Memory> {
    let prefs = full_prefs(alloc)?;
    let document = document_of(alloc, &prefs, text)?;
    spelt_entries(alloc, &document)
}

/// One entry for each key in each stream and for each section, stopwords left out.
#[test]
fn entries(rt: HostRuntime) -> Result<(), Fail> {
    let found = entries_by_prefs(rt.alloc(), "<p>b is a</p> <p>b</p> <t>a</t> <v>B</v>")?;
    assert_eq!(rt;
        found.as_str(),
        "0 a 3-3; 0 b 1-1 4-4 6-6; 1 a 5-5; 2 b 6-6; 255 p 1-3 4-4; "
    );
    Ok(())
}
