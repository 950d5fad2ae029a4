//! The nodes of a query over what was read for it.

ghost use Rattle.std.specs.Prelude.{◌≡◌, ℕ, true, IfOk};
ghost use Rattle.q_tree.specs.ReducedQueries.{reduced_of, Term, Both, Near, Within, Define};
ghost use Rattle.q_tree.specs.Scores.{operated, slot_positions, phrase_slots, term_slots, operand_slots};
ghost use Rattle.q_tree.specs.Soundness.{is_sound, is_sum};
ghost use Rattle.ix_lists.specs.Documents.{places_at};
ghost use Rattle.ix_cursor.specs.Feeding.{slot_at, slots_at, phrase_at, term_at, operands_at};
ghost use Rattle.ix_cursor.specs.Nodes.{score_at, may_at, Scores, ScoresWithin, MayScore, MayScoreWithin};
ghost use Rattle.ix_cursor.specs.MayScore.{may_join};

use crate::feeds::{NearFeed, PhraseFeed, SeenSlots, SpanFeed, SumFeed, TermFeed, TokenFeeds};
use crate::nodes::Node;
use crate::sources::Source;
use crate::tokens::tokens_of;
use ct_base::{Memory, Pairs};
use q_sums::Sum;
use q_tree::{Flat, Op, Phrase, Phrases, Place, Slot, SumStep};
use std::alloc::Global;

/// What a slot of a phrase reads.
fn feed_of_slot<S: Source>(
    alloc: Global,
    source: &S,
    stream: u8,
    slot: &Slot,
) -> Result<Option<TokenFeeds>, Memory>
    requires { S.well source.now }
    ensures { IfOk result (λ o. (d : ℕ) → slot_at o d ≡ slot_positions (S.postings source.now d) stream slot.now) }
{
    match slot {
        Slot::Any => Ok(None),
        Slot::Takes { .. } => {
            let tokens = source.tokens(alloc, stream, slot)?;
            Ok(Some(TokenFeeds {
                tokens: tokens_of(alloc, tokens)?,
            }))
        }
    }
}

/// What a phrase reads.
fn feed_of_phrase<S: Source>(
    alloc: Global,
    source: &S,
    stream: u8,
    phrase: &[Slot],
) -> Result<PhraseFeed, Memory>
    requires { S.well source.now }
    ensures { IfOk result (λ p. (d : ℕ) → phrase_at p d ≡ phrase_slots (S.postings source.now d) stream phrase.now) }
{
    let mut slots = Vec::new(alloc);
    for slot in phrase {
        slots.push(feed_of_slot(alloc, source, stream, slot)?)?;
    }
    Ok(PhraseFeed {
        slots,
        seen: SeenSlots::empty(alloc),
    })
}

/// What a term reads.
fn feed_of_term<S: Source>(
    alloc: Global,
    source: &S,
    stream: u8,
    term: &[Phrase],
) -> Result<TermFeed, Memory>
    requires { S.well source.now }
    ensures { IfOk result (λ t. (d : ℕ) → term_at t d ≡ term_slots (S.postings source.now d) stream term.now) }
{
    let mut phrases = Vec::new(alloc);
    for phrase in term {
        phrases.push(feed_of_phrase(alloc, source, stream, phrase.as_slice())?)?;
    }
    Ok(TermFeed { phrases })
}

/// What operands read.
fn feed_of_operands<S: Source>(
    alloc: Global,
    source: &S,
    stream: u8,
    terms: &[Phrases],
) -> Result<Vec<TermFeed>, Memory>
    requires { S.well source.now }
    ensures { IfOk result (λ os. (d : ℕ) → operands_at os.items d ≡ operand_slots (S.postings source.now d) stream terms.now) }
{
    let mut operands = Vec::new(alloc);
    for term in terms {
        operands.push(feed_of_term(alloc, source, stream, term.as_slice())?)?;
    }
    Ok(operands)
}

/// What a section reads.
fn feed_of_section<S: Source>(
    alloc: Global,
    source: &S,
    name: &str,
) -> Result<Box<SpanFeed>, Memory>
    requires { S.well source.now }
    ensures { IfOk result (λ p. (d : ℕ) → places_at p.value.documents d ≡ (S.postings source.now d).spans name.now) }
{
    let documents = source.section(alloc, name)?;
    let seen = Pairs::empty(alloc);
    let scores = Vec::new(alloc);
    let feed = SpanFeed {
        documents,
        seen,
        scores,
    };
    Ok(Box::new(alloc, feed)?)
}

/// The node in a box.
fn boxed(alloc: Global, node: Node) -> Result<Box<Node>, Memory>
    ensures { IfOk result (λ b. b.value ≡ node) }
{
    Ok(Box::new(alloc, node)?)
}

/// The node of an operator between two nodes.
fn operator_node(op: Op, a: Box<Node>, b: Box<Node>) -> Node
    ensures scores { (d lo hi : ℕ) → score_at result d lo hi ≡ operated op (score_at a.value d lo hi) (score_at b.value d lo hi) }
    ensures documents { (d : ℕ) → may_at result d ≡ may_join op (may_at a.value d) (may_at b.value d) }
{
    match op {
        Op::And => Node::And(a, b),
        Op::Or => Node::Or(a, b),
        Op::Not => Node::Not(a, b),
        Op::Minus => Node::Minus(a, b),
    }
}

/// The node of a term over a stream.
fn build_term<S: Source>(
    alloc: Global,
    source: &S,
    phrases: &[Phrase],
    stream: u8,
) -> Result<Box<Node>, Memory>
    requires { S.well source.now }
    ensures scores { IfOk result (λ n. Scores n.value (Term phrases.now) (S.postings source.now) stream) }
    ensures documents { IfOk result (λ n. MayScore n.value (Term phrases.now) (S.postings source.now) stream) }
{
    let term = feed_of_term(alloc, source, stream, phrases)?;
    boxed(alloc, Node::Term(term))
}

/// The node of operands that are to stand near one another, over a stream.
fn build_near<S: Source>(
    alloc: Global,
    source: &S,
    terms: &[Phrases],
    span: u8,
    ordered: bool,
    stream: u8,
) -> Result<Box<Node>, Memory>
    requires { S.well source.now }
    ensures scores { IfOk result (λ n. Scores n.value (Near terms.now span ordered) (S.postings source.now) stream) }
    ensures documents { IfOk result (λ n. MayScore n.value (Near terms.now span ordered) (S.postings source.now) stream) }
{
    let operands = feed_of_operands(alloc, source, stream, terms)?;
    boxed(
        alloc,
        Node::Near(NearFeed {
            operands,
            span,
            ordered,
        }),
    )
}

/// The node of a term whose score is a sum, over a stream.
fn build_sum<S: Source>(
    alloc: Global,
    source: &S,
    phrases: &[Phrase],
    sum: &[SumStep],
    stream: u8,
) -> Result<Box<Node>, Memory>
    requires well { S.well source.now }
    requires sum { is_sum sum.now ≡ true }
    ensures scores { IfOk result (λ n. Scores n.value (Define phrases.now sum.now) (S.postings source.now) stream) }
    ensures documents { IfOk result (λ n. MayScore n.value (Define phrases.now sum.now) (S.postings source.now) stream) }
{
    let term = feed_of_term(alloc, source, stream, phrases)?;
    let sum = Sum::of(alloc, sum)?;
    boxed(alloc, Node::Define(SumFeed { term, sum }))
}

/// The node of a query over a stream. It goes as deep as the query.
#[cycle(build)]
pub(crate) fn build<S: Source>(
    alloc: Global,
    source: &S,
    flat: &Flat,
    stream: u8,
) -> Result<Box<Node>, Memory>
    requires well { S.well source.now }
    requires sound { is_sound (reduced_of flat.now) ≡ true }
    ensures scores { IfOk result (λ n. Scores n.value (reduced_of flat.now) (S.postings source.now) stream) }
    ensures documents { IfOk result (λ n. MayScore n.value (reduced_of flat.now) (S.postings source.now) stream) }
{
    match flat {
        Flat::Term(phrases) => build_term(alloc, source, phrases.as_slice(), stream),
        Flat::And(a, b) => build_both(alloc, source, Op::And, a, b, stream),
        Flat::Or(a, b) => build_both(alloc, source, Op::Or, a, b, stream),
        Flat::Not(a, b) => build_both(alloc, source, Op::Not, a, b, stream),
        Flat::Minus(a, b) => build_both(alloc, source, Op::Minus, a, b, stream),
        Flat::Weight(tenths, a) => {
            let node = build(alloc, source, a, stream)?;
            boxed(alloc, Node::Weight(*tenths, node))
        }
        Flat::Above(n, a) => {
            let node = build(alloc, source, a, stream)?;
            boxed(alloc, Node::Above(*n, node))
        }
        Flat::Near {
            operands,
            span,
            ordered,
        } => build_near(alloc, source, operands.as_slice(), *span, *ordered, stream),
        Flat::Within(place, a) => build_within(alloc, source, place, a, stream),
        Flat::Define(phrases, sum) => {
            build_sum(alloc, source, phrases.as_slice(), sum.as_slice(), stream)
        }
    }
}

/// The node of an operator between two parts of a query, over a stream.
#[cycle(build)]
fn build_both<S: Source>(
    alloc: Global,
    source: &S,
    op: Op,
    a: &Flat,
    b: &Flat,
    stream: u8,
) -> Result<Box<Node>, Memory>
    requires well { S.well source.now }
    requires first { is_sound (reduced_of a.now) ≡ true }
    requires second { is_sound (reduced_of b.now) ≡ true }
    ensures scores { IfOk result (λ n. Scores n.value (Both op (reduced_of a.now) (reduced_of b.now)) (S.postings source.now) stream) }
    ensures documents { IfOk result (λ n. MayScore n.value (Both op (reduced_of a.now) (reduced_of b.now)) (S.postings source.now) stream) }
{
    let first = build(alloc, source, a, stream)?;
    let second = build(alloc, source, b, stream)?;
    boxed(alloc, operator_node(op, first, second))
}

/// The node of a part of a query in a place, over a stream.
#[cycle(build)]
fn build_within<S: Source>(
    alloc: Global,
    source: &S,
    place: &Place,
    a: &Flat,
    stream: u8,
) -> Result<Box<Node>, Memory>
    requires well { S.well source.now }
    requires sound { is_sound (reduced_of a.now) ≡ true }
    ensures scores { IfOk result (λ n. Scores n.value (Within place.now (reduced_of a.now)) (S.postings source.now) stream) }
    ensures documents { IfOk result (λ n. MayScore n.value (Within place.now (reduced_of a.now)) (S.postings source.now) stream) }
{
    match place {
        Place::Field(field) => build(alloc, source, a, *field),
        Place::Zone(name) => build_in_section(alloc, source, name.as_str(), a, stream),
        Place::Sentence => build_in_section(alloc, source, "sentence", a, stream),
        Place::Paragraph => build_in_section(alloc, source, "paragraph", a, stream),
    }
}

/// The node of a part of a query in a section of this name, over a stream.
#[cycle(build)]
fn build_in_section<S: Source>(
    alloc: Global,
    source: &S,
    name: &str,
    a: &Flat,
    stream: u8,
) -> Result<Box<Node>, Memory>
    requires well { S.well source.now }
    requires sound { is_sound (reduced_of a.now) ≡ true }
    ensures scores { IfOk result (λ n. ScoresWithin n.value (reduced_of a.now) name.now (S.postings source.now) stream) }
    ensures documents { IfOk result (λ n. MayScoreWithin n.value (reduced_of a.now) name.now (S.postings source.now) stream) }
{
    let node = build(alloc, source, a, stream)?;
    let section = feed_of_section(alloc, source, name)?;
    boxed(alloc, Node::Within(section, node))
}
