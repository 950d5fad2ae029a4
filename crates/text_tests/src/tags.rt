//! Groups, the tags of texts by them, and what they enclose.

ghost use Rattle.std.specs.Prelude.{◌≤◌, IfOk, length};

use crate::rows::compare;
use ct_base::{Memory, Name, Text};
use std::alloc::Global;
use std::test::Fail;
use tx_tags::{
    Group, Section, SectionKind, Spans, TagView, Tagged, all_spans, is_tag, read_tags, spans,
};

/// A section, its kind, and a tag of it.
type Row = (&'static str, SectionKind, &'static str);

/// The zones p and q, and the field t with two tags.
const ROWS: &[Row] = &[
    ("p", SectionKind::Zone, "p"),
    ("q", SectionKind::Zone, "q"),
    ("t", SectionKind::Field, "t"),
    ("T", SectionKind::Zone, "my-tag_1"),
];

fn named(alloc: Global, text: &str) -> Result<Name, Memory> {
    Name::read(alloc, text).map_err(|_| Memory)
}

/// The group of these sections with their tags; None where one of them is refused.
fn group_of(alloc: Global, rows: &[Row]) -> Result<Option<Group>, Memory> {
    let mut group = Group::empty(alloc, false);
    for (section, kind, tag) in rows {
        let name = named(alloc, section)?;
        let Some(next) = group.with_tag(alloc, &name, *kind, tag)? else {
            return Ok(None);
        };
        group = next;
    }
    Ok(Some(group))
}

fn kind_text(kind: SectionKind) -> &'static str {
    match kind {
        SectionKind::Zone => "zone",
        SectionKind::Field => "field",
        SectionKind::VisibleField => "visible field",
    }
}

fn spell_section(alloc: Global, line: &mut String, section: &Section) -> Result<(), Memory> {
    let name = section.name.as_str();
    let kind = kind_text(section.kind);
    let head = format!(in alloc; "{kind} {name}:")?;
    line.push_str(head.as_str())?;
    for tag in section.tags.as_slice() {
        line.push(' ')?;
        line.push_str(tag.as_str())?;
    }
    line.push_str("; ")?;
    Ok(())
}

/// The sections of a group in one line.
fn spelt_group(alloc: Global, group: &Group) -> Result<String, Memory> {
    let mut line = String::new(alloc);
    for section in group.sections() {
        spell_section(alloc, &mut line, section)?;
    }
    Ok(line)
}

/// The group that these rows make, in one line, or `refused`.
fn made(alloc: Global, rows: &[Row]) -> Result<String, Memory> {
    match group_of(alloc, rows)? {
        None => Ok(String::from_str(alloc, "refused")?),
        Some(group) => spelt_group(alloc, &group),
    }
}

/// Rows with the group that they make: of tags that stand once, and of those that break a rule.
const MADE: &[(&[Row], &str)] = &[
    (ROWS, "zone p: p; zone q: q; field t: t my-tag_1; "),
    (
        &[
            ("a", SectionKind::VisibleField, "x"),
            ("b", SectionKind::Zone, "x"),
        ],
        "refused",
    ),
    (&[("sentence", SectionKind::Zone, "s")], "refused"),
    (&[("paragraph", SectionKind::Field, "s")], "refused"),
    (&[("a", SectionKind::Zone, "A")], "refused"),
    (&[("a", SectionKind::Zone, "")], "refused"),
    (
        &[("a", SectionKind::VisibleField, "a")],
        "visible field a: a; ",
    ),
];

#[test]
fn groups(rt: HostRuntime) -> Result<(), Fail> {
    for (rows, line) in MADE {
        assert_eq!(rt; made(rt.alloc(), rows)?.as_str(), *line);
    }
    Ok(())
}

/// The group of `ROWS`.
fn full_group(alloc: Global) -> Result<Group, Memory> {
    group_of(alloc, ROWS)?.ok_or(Memory)
}

/// The kind of a section, whether two tags are there, how many zones, fields and tags there are, and whether it is the null group and
/// has sentences and paragraphs.
fn facts(alloc: Global, group: &Group) -> Result<String, Memory> {
    let kind = group.kind_of(&named(alloc, "t")?).map_or("none", kind_text);
    let q = group.has_tag("q");
    let x = group.has_tag("x");
    let zones = group.zone_count();
    let fields = group.field_count();
    let tags = group.tag_count();
    let null = group.is_null();
    let sentences = group.has_sentences();
    let paragraphs = group.has_paragraphs();
    Ok(format!(in alloc; "{kind} {q} {x} {zones} {fields} {tags} {null} {sentences} {paragraphs}")?)
}

fn plain_facts(alloc: Global) -> Result<String, Memory> {
    facts(alloc, &full_group(alloc)?)
}

fn special_facts(alloc: Global) -> Result<String, Memory> {
    let group = full_group(alloc)?.with_sentences().with_paragraphs();
    facts(alloc, &group)
}

/// What a group tells of itself.
#[test]
fn parts(rt: HostRuntime) -> Result<(), Fail> {
    let plain = plain_facts(rt.alloc())?;
    assert_eq!(rt; plain.as_str(), "field true false 2 1 4 false false false");
    Ok(())
}

#[test]
fn special_sections(rt: HostRuntime) -> Result<(), Fail> {
    let special = special_facts(rt.alloc())?;
    assert_eq!(rt; special.as_str(), "field true false 2 1 4 false true true");
    Ok(())
}

/// Texts, and whether they are tags.
const TAGS: &[(&str, bool)] = &[
    ("h1", true),
    ("h 1", false),
    ("a23456789012345678901234567890", true),
    ("a234567890123456789012345678901", false),
];

#[test]
fn names_of_tags(rt: HostRuntime) {
    for (text, is_one) in TAGS {
        assert_eq!(rt; is_tag(text), *is_one, "of {text}");
    }
}

fn spell_tag(alloc: Global, line: &mut String, tag: &TagView) -> Result<(), Memory> {
    let slash = if tag.closing { "/" } else { "" };
    let section = tag.section.as_str();
    let number = tag.tag;
    let start = tag.start;
    let end = tag.end;
    let text = format!(in alloc; "{slash}{section}{number} {start}-{end}; ")?;
    line.push_str(text.as_str())?;
    Ok(())
}

/// The tags of a text of at most 300 bytes.
fn tagged(alloc: Global, group: &Group, text: &str) -> Result<Tagged, Memory>
    ensures { IfOk result (λ _. length text.now ≤ 300) }
{
    if text.len() > 300 {
        return Err(Memory);
    }
    read_tags(alloc, group, text)
}

/// The tags of a text, and behind them the text without them.
fn spelt_tags(alloc: Global, group: &Group, text: &str) -> Result<String, Memory> {
    let mut line = String::new(alloc);
    let tagged = tagged(alloc, group, text)?;
    for tag in tagged.tags.as_slice() {
        spell_tag(alloc, &mut line, tag)?;
    }
    line.push('[')?;
    line.push_str(tagged.blanked.as_str())?;
    line.push(']')?;
    Ok(line)
}

/// Texts with their tags and what is left of them: tags in any case, tags that no section has, and what only begins as a tag.
const TAGGED: &[(&str, &str)] = &[
    ("", "[]"),
    (
        "<T>alpha</T> <Q>",
        "t2 0-3; /t2 8-12; q1 13-16; [   alpha        ]",
    ),
    ("<x> < p> <p é <", "[<x> < p> <p é <]"),
    ("<<p>>", "p0 1-4; [<   >]"),
    ("é<My-Tag_1>é</p>", "t3 2-12; /p0 14-18; [é          é    ]"),
    ("</ p></p></p >", "/p0 5-9; [</ p>    </p >]"),
    ("<p/><//p><pé>", "[<p/><//p><pé>]"),
    (
        "<aaaaaaaaaaaaaaaaaaaaaaaaaaaaaaaaaaaap>",
        "[<aaaaaaaaaaaaaaaaaaaaaaaaaaaaaaaaaaaap>]",
    ),
];

/// The texts that give other tags, or are something else without them.
fn wrong_tags(alloc: Global) -> Result<String, Memory> {
    let mut wrong = String::new(alloc);
    let group = full_group(alloc)?;
    for (text, line) in TAGGED {
        let found = spelt_tags(alloc, &group, text)?;
        compare(alloc, &mut wrong, text, found.as_str(), line)?;
    }
    Ok(wrong)
}

#[test]
fn tags(rt: HostRuntime) -> Result<(), Fail> {
    let wrong = wrong_tags(rt.alloc())?;
    assert_eq!(rt; wrong.as_str(), "");
    Ok(())
}

#[test]
fn no_tags_of_the_null_group(rt: HostRuntime) -> Result<(), Fail> {
    let plain = spelt_tags(rt.alloc(), &Group::empty(rt.alloc(), true), "<p>")?;
    assert_eq!(rt; plain.as_str(), "[<p>]");
    Ok(())
}

fn spell_spans(alloc: Global, line: &mut String, spans: &Spans) -> Result<(), Memory> {
    for span in spans.as_slice() {
        let start = span.start;
        let end = span.end;
        let text = format!(in alloc; "{start}-{end} ")?;
        line.push_str(text.as_str())?;
    }
    line.push_str("| ")?;
    Ok(())
}

/// What the tags of a text enclose, for each of the numbers below 3.
fn spelt_spans(alloc: Global, group: &Group, text: &str) -> Result<String, Memory> {
    let mut line = String::new(alloc);
    let tagged = tagged(alloc, group, text)?;
    let all = all_spans(alloc, tagged.tags.as_slice(), 3, text.len() as u32)?;
    for spans in &all {
        spell_spans(alloc, &mut line, spans)?;
    }
    Ok(line)
}

/// Texts with what their tags enclose: nested tags, tags that nothing closes, and tags that cross.
const SPANS: &[(&str, &str)] = &[
    ("a", "| | | "),
    (
        "<P>a<p>b</P></x><Q></P>c</P><P>",
        "31-31 7-8 3-19 | 19-31 | | ",
    ),
    ("</q><q>a<p>b</q>c</p></q>", "11-17 | 7-12 | | "),
];

/// The texts whose tags enclose something else.
fn wrong_spans(alloc: Global) -> Result<String, Memory> {
    let mut wrong = String::new(alloc);
    let group = full_group(alloc)?;
    for (text, line) in SPANS {
        let found = spelt_spans(alloc, &group, text)?;
        compare(alloc, &mut wrong, text, found.as_str(), line)?;
    }
    Ok(wrong)
}

#[test]
fn enclosed(rt: HostRuntime) -> Result<(), Fail> {
    let wrong = wrong_spans(rt.alloc())?;
    assert_eq!(rt; wrong.as_str(), "");
    Ok(())
}

/// What the tags with the number 1 enclose.
fn spelt_second(alloc: Global) -> Result<String, Memory> {
    let group = full_group(alloc)?;
    let tagged = tagged(alloc, &group, "<p>a<q>b</p>c")?;
    let found = spans(alloc, tagged.tags.as_slice(), 1, 13)?;
    let mut line = String::new(alloc);
    spell_spans(alloc, &mut line, &Spans::of(found))?;
    Ok(line)
}

/// What the tags with one number enclose is what it is among all.
#[test]
fn one_number(rt: HostRuntime) -> Result<(), Fail> {
    let line = spelt_second(rt.alloc())?;
    assert_eq!(rt; line.as_str(), "7-13 | ");
    Ok(())
}
