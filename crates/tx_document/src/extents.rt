//! Where the sections of a text stand.

ghost use Rattle.std.specs.Prelude.{◌≡◌, ◌+◌, ◌≤◌, IfOk, length};
ghost use Rattle.tx_tags.specs.Groups.{is_field};
ghost use Rattle.tx_document.specs.Documents.{extents, hides};
ghost use Rattle.tx_document.specs.Fields.{tag_count};
ghost use Rattle.tx_document.specs.TagSpans.{extents_by, joined_from};

use ct_base::{Memory, Name, Text};
use std::alloc::Global;
use std::marker::Model;
use tx_tags::{Section, SectionKind, Span, Spans, TagView, all_spans};

/// A section with the spans of the text that its tags enclose.
#[derive(Drop)]
pub(crate) struct Extent {
    pub(crate) section: Name,
    pub(crate) kind: SectionKind,
    pub(crate) spans: Spans,
}

impl Model for Extent {
    ghost use Rattle.tx_document.specs.Documents.{Extent as SectionExtent};

    ghost Value = { SectionExtent };

    ghost view = { λ e. record { section = e.section; kind = e.kind; spans = e.spans } };
}

impl Extent {
    pub(crate) fn kind(&self) -> SectionKind
        ensures { result ≡ self.now.kind }
    {
        self.kind
    }

    pub(crate) fn section(&self) -> &Name
        ensures { result.now ≡ self.now.section }
    {
        &self.section
    }

    pub(crate) fn spans(&self) -> &[Span]
        ensures { result.now ≡ self.now.spans }
    {
        self.spans.as_slice()
    }
}

/// The sections with their spans in a text with these tags that ends at `end`. Its cost is linear in the number of tags, those
/// of the text and those of the sections.
pub(crate) fn extents(
    alloc: Global,
    tags: &[TagView],
    sections: &[Section],
    end: u32,
) -> Result<Vec<Extent>, Memory>
    requires { tag_count sections.now ≤ 256 }
    ensures { IfOk result (λ v. v.items ≡ extents tags.now end sections.now) }
{
    let all = all_spans(alloc, tags, tag_count(sections), end)?;
    extents_by(alloc, &all, sections)
}

/// How many tags sections have.
fn tag_count(sections: &[Section]) -> usize
    requires { tag_count sections.now ≤ 256 }
    ensures { result ≡ tag_count sections.now }
{
    let mut count = 0;
    let mut rest = sections;
    while let [section, later @ ..] = rest {
        count += section.tags.as_slice().len();
        rest = later;
    }
    count
}

/// The sections with the spans of their tags, of which all are given by their numbers.
fn extents_by(alloc: Global, all: &[Spans], sections: &[Section]) -> Result<Vec<Extent>, Memory>
    requires { tag_count sections.now ≤ length all.now }
    ensures { IfOk result (λ v. v.items ≡ extents_by all.now 0 sections.now) }
{
    let mut found = Vec::new(alloc);
    let mut number = 0;
    let mut rest = sections;
    while let [section, later @ ..] = rest {
        found.push(enclosed(alloc, all, number, section)?)?;
        number += section.tags.as_slice().len();
        rest = later;
    }
    Ok(found)
}

/// The section, whose first tag has this number, with its spans.
fn enclosed(
    alloc: Global,
    all: &[Spans],
    number: usize,
    section: &Section,
) -> Result<Extent, Memory>
    requires { number + length section.now.tags ≤ length all.now }
    ensures { IfOk result (λ e. e ≡ record { section = section.now.name; kind = section.now.kind; spans = joined_from all.now number section.now.tags }) }
{
    let spans = joined(alloc, all, number, section.tags.as_slice())?;
    Ok(Extent {
        section: section.name.clone()?,
        kind: section.kind,
        spans: Spans::of(spans),
    })
}

/// The spans of the tags with these names, of which the first has this number.
fn joined(alloc: Global, all: &[Spans], first: usize, names: &[Text]) -> Result<Vec<Span>, Memory>
    requires { first + length names.now ≤ length all.now }
    ensures { IfOk result (λ v. v.items ≡ joined_from all.now first names.now) }
{
    let mut found = Vec::new(alloc);
    let mut number = first;
    let mut rest = names;
    while let [_, later @ ..] = rest {
        found.extend_from_slice(all[number].as_slice())?;
        number += 1;
        rest = later;
    }
    Ok(found)
}

/// Whether the words of such a section are not in the main stream.
pub(crate) fn hides(kind: SectionKind) -> bool
    ensures { result ≡ hides kind }
{
    match kind {
        SectionKind::Field => true,
        SectionKind::Zone | SectionKind::VisibleField => false,
    }
}

pub(crate) fn is_field(kind: SectionKind) -> bool
    ensures { result ≡ is_field kind }
{
    match kind {
        SectionKind::Zone => false,
        SectionKind::Field | SectionKind::VisibleField => true,
    }
}
