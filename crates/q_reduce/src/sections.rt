//! The sections of WITHIN.

ghost use Rattle.std.specs.Prelude.{◌≡◌, ◌+◌, ◌≤◌, bytes_eq, IfOk, Some};
ghost use Rattle.tx_tags.specs.Groups.{field_count, is_field};
ghost use Rattle.q_reduce.specs.Faults.{section_faults};
ghost use Rattle.q_reduce.specs.Reducing.{find_section, named_place, zone_or_field, special};
ghost use Rattle.q_reduce.specs.Results.{Answers};

use crate::faults::ReduceFault;
use ct_base::{Memory, Name};
use q_tree::Place;
use std::alloc::Global;
use tx_tags::{Group, Section, SectionKind};

fn is_field(kind: SectionKind) -> bool
    ensures { result ≡ is_field kind }
{
    match kind {
        SectionKind::Zone => false,
        SectionKind::Field => true,
        SectionKind::VisibleField => true,
    }
}

/// Where a section is looked for: a zone by its name, a field by its stream.
fn zone_or_field(kind: SectionKind, stream: u8, name: &Name) -> Result<Place, Memory>
    ensures { IfOk result (λ place. place ≡ zone_or_field kind stream name.now) }
{
    match kind {
        SectionKind::Zone => Ok(Place::Zone(name.clone()?)),
        SectionKind::Field => Ok(Place::Field(stream)),
        SectionKind::VisibleField => Ok(Place::Field(stream)),
    }
}

fn is_same(a: &Name, b: &Name) -> bool
    ensures { result ≡ bytes_eq a.now b.now }
{
    a.as_str() == b.as_str()
}

/// The section of a name. Its cost is linear in the number of sections.
fn find_section(sections: &[Section], name: &Name) -> Result<Option<Place>, Memory>
    requires { field_count sections.now ≤ 64 }
    ensures { IfOk result (λ found. found ≡ find_section 1 sections.now name.now) }
{
    let mut stream = 1;
    let mut rest = sections;
    while let [section, later @ ..] = rest {
        if is_same(&section.name, name) {
            return Ok(Some(zone_or_field(section.kind, stream, name)?));
        }
        if is_field(section.kind) {
            stream += 1;
        }
        rest = later;
    }
    Ok(None)
}

/// The place, where the group has it.
fn special(has_it: bool, place: Place) -> Option<Place>
    ensures { result ≡ special has_it place }
{
    if has_it { Some(place) } else { None }
}

/// What a name says: sentences and paragraphs where the group has them, else a section.
fn named_place(group: &Group, name: &Name) -> Result<Option<Place>, Memory>
    ensures { IfOk result (λ found. found ≡ named_place group.now name.now) }
{
    match name.as_str() {
        "sentence" => Ok(special(group.has_sentences(), Place::Sentence)),
        "paragraph" => Ok(special(group.has_paragraphs(), Place::Paragraph)),
        _ => find_section(group.sections(), name),
    }
}

/// Where a name of WITHIN is looked for; `inside` tells whether another WITHIN stands around it.
pub(crate) fn section(group: &Group, name: &Name, inside: bool) -> Result<Place, ReduceFault>
    ensures { Answers result (section_faults inside name.now (named_place group.now name.now)) (λ place. named_place group.now name.now ≡ Some place) }
{
    match named_place(group, name)? {
        None => Err(ReduceFault::NoSection(name.clone()?)),
        Some(Place::Field(stream)) => {
            if inside {
                return Err(ReduceFault::FieldInside(name.clone()?));
            }
            Ok(Place::Field(stream))
        }
        Some(place) => Ok(place),
    }
}
