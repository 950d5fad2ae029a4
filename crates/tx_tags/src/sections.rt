//! Sections of a group by their names.

ghost use Rattle.std.specs.Prelude.{◌≡◌, ◌++◌, ◌∷◌, [], IfOk};
ghost use Rattle.tx_tags.specs.Groups.{kind_of, with_tag};

use crate::groups::{Section, SectionKind, Tags};
use ct_base::{Memory, Name, Text};
use std::alloc::Global;

/// The kind of the section of this name.
pub(crate) fn kind_among(sections: &[Section], name: &str) -> Option<SectionKind>
    ensures { result ≡ kind_of name.now sections.now }
{
    let mut rest = sections;
    while let [section, later @ ..] = rest {
        if section.name.as_str() == name {
            return Some(section.kind);
        }
        rest = later;
    }
    None
}

/// The sections with one tag more: of the section of this name, or of a new one behind the others.
pub(crate) fn sections_with_tag(
    alloc: Global,
    sections: Vec<Section>,
    name: &Name,
    kind: SectionKind,
    tag: &str,
) -> Result<Vec<Section>, Memory>
    ensures { IfOk result (λ v. v.items ≡ with_tag name.now kind tag.now sections.items) }
{
    let mut more = Vec::new(alloc);
    let mut is_put = false;
    for section in sections {
        if is_put || section.name.as_str() != name.as_str() {
            more.push(section)?;
        } else {
            more.push(with_own_tag(alloc, section, tag)?)?;
            is_put = true;
        }
    }
    if !is_put {
        more.push(new_section(alloc, name, kind, tag)?)?;
    }
    Ok(more)
}

fn with_own_tag(alloc: Global, section: Section, tag: &str) -> Result<Section, Memory>
    ensures { IfOk result (λ s. s ≡ record section { tags = section.tags ++ tag.now ∷ [] }) }
{
    let Section { name, kind, tags } = section;
    let tags = tags.with(Text::of(alloc, tag)?)?;
    Ok(Section { name, kind, tags })
}

fn new_section(alloc: Global, name: &Name, kind: SectionKind, tag: &str) -> Result<Section, Memory>
    ensures { IfOk result (λ s. s ≡ record { name = name.now; kind = kind; tags = tag.now ∷ [] }) }
{
    let tags = Tags::empty(alloc).with(Text::of(alloc, tag)?)?;
    Ok(Section {
        name: name.clone()?,
        kind,
        tags,
    })
}
