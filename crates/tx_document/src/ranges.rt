//! Which tokens stand in spans of a text.

ghost use Rattle.std.specs.Prelude.{◌≡◌, ◌≤◌, ◌<◌, ◌^◌, IfOk, length, map, replicate};
ghost use Rattle.tx_document.specs.Documents.{is_in};
ghost use Rattle.tx_document.specs.Ranges.{AreRising, IsRaised, IsRange, Splits, ends_by, raised_by, reach_of_range, starts_before, swept};

use ct_base::{Memory, Pair};
use std::alloc::Global;
use tx_lexer::Token;
use tx_tags::Span;

/// The places of the tokens in a span: of the first, and behind the last. There are none where the second isn't greater.
#[derive(Clone, Copy, Debug)]
pub(crate) struct Range {
    pub(crate) first: usize,
    pub(crate) behind: usize,
}

/// The tokens that stand in the span. Its cost is the logarithm of the number of tokens.
pub(crate) fn range_of(span: &Span, tokens: &[Token]) -> Range
    requires { AreRising tokens.now }
    ensures is { IsRange span.now tokens.now result }
    ensures within { result.behind ≤ length tokens.now }
{
    Range {
        first: count_before(tokens, span.start),
        behind: count_by(tokens, span.end),
    }
}

/// How many tokens start before the place.
fn count_before(tokens: &[Token], place: u32) -> usize
    requires { AreRising tokens.now }
    ensures { Splits (starts_before place) result tokens.now }
{
    tokens.partition_point(|token| token.start < place)
}

/// How many tokens end at the place or before.
fn count_by(tokens: &[Token], place: u32) -> usize
    requires { AreRising tokens.now }
    ensures splits { Splits (ends_by place) result tokens.now }
    ensures within { result ≤ length tokens.now }
{
    tokens.partition_point(|token| token.end <= place)
}

/// The positions of the first and the last token of the range, if it has any.
pub(crate) fn reach_of(range: Range) -> Option<Pair>
    requires { range.behind < 2 ^ 32 }
    ensures { result ≡ reach_of_range range }
{
    if range.first < range.behind {
        Some(Pair {
            first: range.first as u32 + 1,
            last: range.behind as u32,
        })
    } else {
        None
    }
}

/// Whether each token stands in one of the spans. Its cost is linear in the number of tokens, and a logarithm for each
/// span.
pub(crate) fn marks(alloc: Global, spans: &[Span], tokens: &[Token]) -> Result<Vec<bool>, Memory>
    requires { AreRising tokens.now }
    ensures { IfOk result (λ v. v.items ≡ map (λ t. is_in t spans.now) tokens.now) }
{
    let mut reach = none_reached(alloc, tokens.len())?;
    for span in spans {
        note(&mut reach, span, tokens);
    }
    swept(alloc, &reach)
}

/// How far each place reaches, where none does.
fn none_reached(alloc: Global, count: usize) -> Result<Vec<usize>, Memory>
    ensures { IfOk result (λ v. v.items ≡ replicate count 0) }
{
    let mut reach = Vec::new(alloc);
    reach.resize(count, 0)?;
    Ok(reach)
}

/// Notes how far the span reaches from its first token on.
fn note(reach: &mut Vec<usize>, span: &Span, tokens: &[Token])
    requires order { AreRising tokens.now }
    requires long { length reach.old.items ≡ length tokens.now }
    ensures { IsRaised span.now tokens.now reach.old.items reach.new.items }
{
    let range = range_of(span, tokens);
    raise(reach, range);
}

fn raise(reach: &mut Vec<usize>, range: Range)
    requires { range.behind ≤ length reach.old.items }
    ensures { reach.new.items ≡ raised_by range reach.old.items }
{
    let Range { first, behind } = range;
    if first < behind {
        reach[first] = reach[first].max(behind);
    }
}

/// Which tokens are reached by a range that begins with them or before.
fn swept(alloc: Global, reach: &[usize]) -> Result<Vec<bool>, Memory>
    ensures { IfOk result (λ v. v.items ≡ swept 0 0 reach.now) }
{
    let mut marks = Vec::new(alloc);
    let mut far = 0;
    let mut place = 0;
    let mut rest = reach;
    while let [last, later @ ..] = rest {
        far = far.max(*last);
        marks.push(place < far)?;
        place += 1;
        rest = later;
    }
    Ok(marks)
}
