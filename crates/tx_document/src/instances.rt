//! The instances of sections.

ghost use Rattle.std.specs.Prelude.{◌≡◌, ◌+◌, ◌<◌, ◌^◌, ◌++◌, IfOk, OnOk, length, flat_map};
ghost use Rattle.tx_document.specs.Documents.{instance_of, instances, positions_in, reach_of, zone_instances};
ghost use Rattle.tx_tags.specs.Groups.{is_zone};
ghost use Rattle.tx_document.specs.Ranges.{AreRising};

use crate::endings::{Ending, put_runs};
use crate::extents::Extent;
use crate::ranges::{range_of, reach_of as reach_of_range};
use crate::views::SectionView;
use ct_base::{Memory, Name, Pair};
use std::alloc::Global;
use tx_lexer::Token;
use tx_tags::{Group, SectionKind, Span};

/// All instances of the group's zones, and of sentences and paragraphs.
pub(crate) fn instances(
    alloc: Global,
    group: &Group,
    extents: &[Extent],
    tokens: &[Token],
) -> Result<Vec<SectionView>, Memory>
    requires short { length tokens.now + 1 < 2 ^ 32 }
    requires order { AreRising tokens.now }
    ensures { IfOk result (λ v. v.items ≡ instances group.now extents.now tokens.now) }
{
    let mut found = Vec::new(alloc);
    put_zones(&mut found, extents, tokens)?;
    put_runs(
        alloc,
        &mut found,
        group.has_sentences(),
        Ending::Sentence,
        tokens,
    )?;
    put_runs(
        alloc,
        &mut found,
        group.has_paragraphs(),
        Ending::Paragraph,
        tokens,
    )?;
    Ok(found)
}

fn put_zones(
    found: &mut Vec<SectionView>,
    extents: &[Extent],
    tokens: &[Token],
) -> Result<(), Memory>
    requires short { length tokens.now + 1 < 2 ^ 32 }
    requires order { AreRising tokens.now }
    ensures { OnOk result (found.new.items ≡ found.old.items ++ flat_map (zone_instances tokens.now) extents.now) }
{
    for extent in extents {
        put_zone(found, extent, tokens)?;
    }
    Ok(())
}

fn put_zone(found: &mut Vec<SectionView>, extent: &Extent, tokens: &[Token]) -> Result<(), Memory>
    requires short { length tokens.now + 1 < 2 ^ 32 }
    requires order { AreRising tokens.now }
    ensures { OnOk result (found.new.items ≡ found.old.items ++ zone_instances tokens.now extent.now) }
{
    if is_zone(extent.kind()) {
        put_spans(found, extent.section(), extent.spans(), tokens)
    } else {
        Ok(())
    }
}

fn is_zone(kind: SectionKind) -> bool
    ensures { result ≡ is_zone kind }
{
    match kind {
        SectionKind::Zone => true,
        SectionKind::Field | SectionKind::VisibleField => false,
    }
}

fn put_spans(
    found: &mut Vec<SectionView>,
    section: &Name,
    spans: &[Span],
    tokens: &[Token],
) -> Result<(), Memory>
    requires short { length tokens.now + 1 < 2 ^ 32 }
    requires order { AreRising tokens.now }
    ensures { OnOk result (found.new.items ≡ found.old.items ++ flat_map (λ s. instance_of section.now (reach_of (positions_in s 1 tokens.now))) spans.now) }
{
    for span in spans {
        put_instance(found, section, reach_of(span, tokens))?;
    }
    Ok(())
}

fn put_instance(
    found: &mut Vec<SectionView>,
    section: &Name,
    reach: Option<Pair>,
) -> Result<(), Memory>
    ensures { OnOk result (found.new.items ≡ found.old.items ++ instance_of section.now reach) }
{
    match reach {
        None => {}
        Some(reach) => found.push(SectionView {
            section: section.clone()?,
            first: reach.first,
            last: reach.last,
        })?,
    }
    Ok(())
}

/// The positions of the first and the last of the tokens that stand in the span.
fn reach_of(span: &Span, tokens: &[Token]) -> Option<Pair>
    requires short { length tokens.now + 1 < 2 ^ 32 }
    requires order { AreRising tokens.now }
    ensures { result ≡ reach_of (positions_in span.now 1 tokens.now) }
{
    reach_of_range(range_of(span, tokens))
}
