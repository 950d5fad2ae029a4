//! The rules that the sections of a group keep.

ghost use Rattle.std.specs.Prelude.{◌≡◌, ◌≤◌, ◌&&◌, ◌||◌, ◌++◌, not, nat_le, length, map};
ghost use Rattle.std.specs.List.{list_all};
ghost use Rattle.tx_tags.specs.Groups.{are_distinct, are_sections, field_count, is_among, is_empty, is_reserved, is_tag, is_zone, section_limit, tag_names, tags_limit, zone_count};

use crate::groups::{Section, SectionKind};
use crate::spelling::is_tag;
use ct_base::Text;

/// How many zones, and how many fields, a group has at most.
const SECTION_LIMIT: usize = 64;

/// How many tags a group has at most.
const TAGS_LIMIT: usize = 256;

/// Whether a group may have these sections.
pub(crate) fn keep_rules(is_null: bool, sections: &[Section]) -> bool
    ensures { result ≡ ((not is_null || is_empty sections.now) && are_sections sections.now) }
{
    (!is_null || sections.is_empty()) && are_sections(sections)
}

fn are_sections(sections: &[Section]) -> bool
    ensures { result ≡ are_sections sections.now }
{
    zone_count(sections) <= SECTION_LIMIT
        && field_count(sections) <= SECTION_LIMIT
        && have_few_tags(sections)
        && have_distinct_names(sections)
        && have_distinct_tags(sections)
        && have_free_names(sections)
        && have_spelt_tags(sections)
}

fn is_zone(kind: SectionKind) -> bool
    ensures { result ≡ is_zone kind }
{
    matches!(kind, SectionKind::Zone)
}

pub(crate) fn zone_count(sections: &[Section]) -> usize
    ensures { result ≡ zone_count sections.now }
{
    sections
        .iter()
        .filter(|section| is_zone(section.kind))
        .count()
}

pub(crate) fn field_count(sections: &[Section]) -> usize
    ensures { result ≡ field_count sections.now }
{
    sections
        .iter()
        .filter(|section| !is_zone(section.kind))
        .count()
}

/// Whether the tags of the sections aren't too many.
fn have_few_tags(sections: &[Section]) -> bool
    ensures { result ≡ nat_le (length (tag_names sections.now)) tags_limit }
{
    let mut left = TAGS_LIMIT;
    let mut rest = sections;
    while let [section, later @ ..] = rest {
        let count = section.tags.as_slice().len();
        if count > left {
            return false;
        }
        left -= count;
        rest = later;
    }
    true
}

/// How many tags the sections have.
pub(crate) fn tag_count(sections: &[Section]) -> usize
    requires { length (tag_names sections.now) ≤ 256 }
    ensures { result ≡ length (tag_names sections.now) }
{
    let mut count = 0;
    let mut rest = sections;
    while let [section, later @ ..] = rest {
        count += section.tags.as_slice().len();
        rest = later;
    }
    count
}

fn have_distinct_names(sections: &[Section]) -> bool
    ensures { result ≡ are_distinct (map (λ s. s.name) sections.now) }
{
    let mut rest = sections;
    while let [section, later @ ..] = rest {
        if have_name(later, section.name.as_str()) {
            return false;
        }
        rest = later;
    }
    true
}

fn have_name(sections: &[Section], name: &str) -> bool
    ensures { result ≡ is_among name.now (map (λ s. s.name) sections.now) }
{
    let mut rest = sections;
    while let [section, later @ ..] = rest {
        if name == section.name.as_str() {
            return true;
        }
        rest = later;
    }
    false
}

fn have_distinct_tags(sections: &[Section]) -> bool
    ensures { result ≡ are_distinct (tag_names sections.now) }
{
    let mut rest = sections;
    while let [section, later @ ..] = rest {
        if !are_apart(section.tags.as_slice(), later) {
            return false;
        }
        rest = later;
    }
    true
}

/// Whether none of these tags stands once more among those behind it and those of later sections.
fn are_apart(tags: &[Text], later: &[Section]) -> bool
    ensures { (result && are_distinct (tag_names later.now)) ≡ are_distinct (tags.now ++ tag_names later.now) }
{
    let mut rest = tags;
    while let [tag, others @ ..] = rest {
        if has_text(others, tag.as_str()) || have_tag(later, tag.as_str()) {
            return false;
        }
        rest = others;
    }
    true
}

fn has_text(texts: &[Text], text: &str) -> bool
    ensures { result ≡ is_among text.now texts.now }
{
    let mut rest = texts;
    while let [first, others @ ..] = rest {
        if text == first.as_str() {
            return true;
        }
        rest = others;
    }
    false
}

/// Whether a section has the tag.
pub(crate) fn have_tag(sections: &[Section], tag: &str) -> bool
    ensures { result ≡ is_among tag.now (tag_names sections.now) }
{
    let mut rest = sections;
    while let [section, later @ ..] = rest {
        if has_text(section.tags.as_slice(), tag) {
            return true;
        }
        rest = later;
    }
    false
}

/// Whether no section has a name that is kept for sentences and paragraphs.
fn have_free_names(sections: &[Section]) -> bool
    ensures { result ≡ list_all (λ s. not (is_reserved s.name)) sections.now }
{
    sections
        .iter()
        .all(|section| !is_reserved(section.name.as_str()))
}

fn is_reserved(name: &str) -> bool
    ensures { result ≡ is_reserved name.now }
{
    name == "sentence" || name == "paragraph"
}

fn have_spelt_tags(sections: &[Section]) -> bool
    ensures { result ≡ list_all is_tag (tag_names sections.now) }
{
    let mut rest = sections;
    while let [section, later @ ..] = rest {
        if !are_tags(section.tags.as_slice()) {
            return false;
        }
        rest = later;
    }
    true
}

fn are_tags(names: &[Text]) -> bool
    ensures { result ≡ list_all is_tag names.now }
{
    names.iter().all(|name| is_tag(name.as_str()))
}
