//! Section groups read from bytes.

ghost use Rattle.std.specs.Prelude.{IfOk};
ghost use Rattle.ct_base.specs.Names.{is_kept};
ghost use Rattle.ct_bytes.specs.Varints.{text_bytes};
ghost use Rattle.tx_settings.specs.PrefsBytes.{Reads, ReadsList, always, are_listed, group_bytes, head_bytes, is_named_group, is_section, kind_bytes, listed, section_bytes};

use crate::word_reading::read_words;
use ct_base::{Memory, Name};
use ct_bytes::{read_text, read_varint};
use std::alloc::Global;
use tx_tags::{Group, Section, SectionKind, Tags};

/// What the first two bytes of a group tell.
#[derive(Clone, Copy)]
pub(crate) struct Head {
    pub(crate) is_null: bool,
    pub(crate) sentence: bool,
    pub(crate) paragraph: bool,
}

/// What the two bytes from `at` on tell, and the place behind them.
fn read_head(bytes: &[u8], at: usize) -> Option<(Head, usize)>
    ensures { Reads always head_bytes bytes.now at result }
{
    let null = *bytes.get(at)?;
    let flags = *bytes.get(at + 1)?;
    if null == 0 || null > 2 || flags > 3 {
        return None;
    }
    let head = Head {
        is_null: null == 2,
        sentence: flags % 2 == 1,
        paragraph: flags >= 2,
    };
    Some((head, at + 2))
}

/// The kind that the byte at `at` is, and the place behind it.
fn read_kind(bytes: &[u8], at: usize) -> Option<(SectionKind, usize)>
    ensures { Reads always kind_bytes bytes.now at result }
{
    let byte = *bytes.get(at)?;
    if byte == 1 {
        Some((SectionKind::Zone, at + 1))
    } else if byte == 2 {
        Some((SectionKind::Field, at + 1))
    } else if byte == 3 {
        Some((SectionKind::VisibleField, at + 1))
    } else {
        None
    }
}

/// The name that stands from `at` on, and the place behind it.
fn read_name(alloc: Global, bytes: &[u8], at: usize) -> Result<Option<(Name, usize)>, Memory>
    ensures { IfOk result (Reads is_kept text_bytes bytes.now at) }
{
    let Some((text, next)) = read_text(bytes, at) else {
        return Ok(None);
    };
    let Some(name) = Name::of_bytes(alloc, text)? else {
        return Ok(None);
    };
    Ok(Some((name, next)))
}

/// The section that stands from `at` on, and the place behind it.
fn read_section(alloc: Global, bytes: &[u8], at: usize) -> Result<Option<(Section, usize)>, Memory>
    ensures { IfOk result (Reads is_section section_bytes bytes.now at) }
{
    let Some((name, kind_at)) = read_name(alloc, bytes, at)? else {
        return Ok(None);
    };
    let Some((kind, tags_at)) = read_kind(bytes, kind_at) else {
        return Ok(None);
    };
    let Some((tags, next)) = read_words(alloc, bytes, tags_at)? else {
        return Ok(None);
    };
    let tags = Tags::of(tags);
    Ok(Some((Section { name, kind, tags }, next)))
}

/// The sections that stand from `at` on, and the place behind them.
fn read_sections(
    alloc: Global,
    bytes: &[u8],
    at: usize,
) -> Result<Option<(Vec<Section>, usize)>, Memory>
    ensures { IfOk result (ReadsList (are_listed is_section) (listed section_bytes) bytes.now at) }
{
    let Some((count, start)) = read_varint(bytes, at) else {
        return Ok(None);
    };
    let mut sections = Vec::new(alloc);
    let mut place = start;
    'sections: while sections.len() < count as usize {
        let Some((section, next)) = read_section(alloc, bytes, place)? else {
            return Ok(None);
        };
        sections.push(section)?;
        place = next;
    }
    Ok(Some((sections, place)))
}

/// The section group that stands from `at` on, and the place after it. None exactly where no group stands there whose sections'
/// names are spelt as names are stored. Its cost is the length of what is read, and the square of the number of tags.
pub fn read_group(alloc: Global, bytes: &[u8], at: usize) -> Result<Option<(Group, usize)>, Memory>
    ensures { IfOk result (Reads is_named_group group_bytes bytes.now at) }
{
    let Some((head, start)) = read_head(bytes, at) else {
        return Ok(None);
    };
    let Some((sections, next)) = read_sections(alloc, bytes, start)? else {
        return Ok(None);
    };
    let found = Group::of(alloc, head.is_null, sections, head.sentence, head.paragraph)?;
    let Some(group) = found else {
        return Ok(None);
    };
    // This states the rules of groups.
    let _sections = group.sections();
    Ok(Some((group, next)))
}
