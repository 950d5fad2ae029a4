//! What becomes of rules.

ghost use Rattle.std.specs.Prelude.{◌≡◌, ◌++◌, List, ℕ, codes, IfOk, IfSome, true};
ghost use Rattle.std.specs.Option.{option_map};
ghost use Rattle.q_tree.specs.Limits.{keeps_limits};
ghost use Rattle.q_tree.specs.Soundness.{is_sound};
ghost use Rattle.q_tree.specs.Trees.{tree_of};
ghost use Rattle.q_tree.specs.ReducedQueries.{reduced_of};
ghost use Rattle.q_reduce.specs.Results.{named_pairs};
ghost use Rattle.rule_index.specs.Kept.{IsFaultyOverLimits, IsKept};
ghost use Rattle.rule_index.specs.Outcomes.{Faulty, at_place, context, is_stored_fault, kept as kept_outcome, kept_fault, limit_reached, outcome_of as text_outcome, outcome_of_tree, outcome_seen};

use ct_base::{Memory, Text};
use q_parse::{QueryFault, parse};
use q_reduce::{NamedThesaurus, ReduceCtx, ReduceFault, reduce};
use q_stored::encode;
use q_tree::{Flat, Query};
use std::alloc::Global;
use tx_settings::Prefs;

/// What became of a rule.
#[derive(Drop)]
pub(crate) enum Kept {
    /// The query that it was reduced to, if it isn't nothing, and the bytes by which this is stored.
    Taken { query: Option<Flat>, bytes: Vec<u8> },
    /// The text of its fault.
    Faulty(Text),
}

/// How many bytes the text of a fault has at most. Each has far fewer.
const FAULT_LIMIT: usize = 1 << 26;

/// Whether the text of a fault can be stored.
fn is_stored_fault(text: &str) -> bool
    ensures { result ≡ is_stored_fault text.now }
{
    text.len() <= FAULT_LIMIT
}

/// A rule that is over the limits of what is stored.
fn over_limits(alloc: Global) -> Result<Kept, Memory>
    ensures { IfOk result (λ k. IsKept k (Faulty limit_reached)) }
{
    let text = Text::of(alloc, "E31: limit reached")?;
    Ok(Kept::Faulty(text))
}

/// What becomes of a rule with a fault of this text.
fn keep_fault(alloc: Global, text: Text) -> Result<Kept, Memory>
    ensures { (t : List ℕ) → text ≡ t → IfOk result (λ k. IsKept k (kept_fault t)) }
{
    if is_stored_fault(text.as_str()) {
        Ok(Kept::Faulty(text))
    } else {
        over_limits(alloc)
    }
}

/// What becomes of a rule with a fault of this text.
fn faulty(alloc: Global, text: &str) -> Result<Kept, Memory>
    ensures { IfOk result (λ k. IsKept k (kept_fault text.now)) }
{
    let copy = Text::of(alloc, text)?;
    keep_fault(alloc, copy)
}

/// A text, and a place of a rule.
fn placed_text(alloc: Global, text: &str, place: u32) -> Result<Text, Memory>
    ensures { IfOk result (λ placed. placed ≡ at_place text.now place) }
{
    let place = i64::from(place);
    let text = format!(in alloc; "{text}{place}")?;
    Ok(Text::owned(text))
}

/// What becomes of a rule with a fault at a place of its text.
fn faulty_at(alloc: Global, text: &str, place: u32) -> Result<Kept, Memory>
    ensures { IfOk result (λ k. IsKept k (kept_fault (at_place text.now place))) }
{
    let placed = placed_text(alloc, text, place)?;
    keep_fault(alloc, placed)
}

/// A text in front of a name, and one behind it.
fn named_text(alloc: Global, before: &str, name: &str, behind: &str) -> Result<Text, Memory>
    ensures { IfOk result (λ named. named ≡ before.now ++ name.now ++ behind.now) }
{
    let text = format!(in alloc; "{before}{name}{behind}")?;
    Ok(Text::owned(text))
}

/// What becomes of a rule that names a section which its index doesn't have.
fn no_section(alloc: Global, name: &str) -> Result<Kept, Memory>
    ensures { IfOk result (λ k. IsKept k (kept_fault (codes "E23: unknown section " ++ name.now))) }
{
    let named = named_text(alloc, "E23: unknown section ", name, "")?;
    keep_fault(alloc, named)
}

/// What becomes of a rule with a field inside another WITHIN.
fn field_inside(alloc: Global, name: &str) -> Result<Kept, Memory>
    ensures { IfOk result (λ k. IsKept k (kept_fault (codes "E24: field " ++ name.now ++ codes " inside WITHIN"))) }
{
    let named = named_text(alloc, "E24: field ", name, " inside WITHIN")?;
    keep_fault(alloc, named)
}

/// What becomes of a rule with an operator of a thesaurus that isn't there.
fn no_thesaurus(alloc: Global, name: &str) -> Result<Kept, Memory>
    ensures { IfOk result (λ k. IsKept k (kept_fault (codes "E25: unknown thesaurus " ++ name.now))) }
{
    let named = named_text(alloc, "E25: unknown thesaurus ", name, "")?;
    keep_fault(alloc, named)
}

/// What becomes of a rule that is reduced to this: it is kept, unless it is over the limits of what is stored.
fn keep_query(alloc: Global, query: Option<Flat>) -> Result<Kept, Memory>
    requires { IfSome query (λ q. is_sound (reduced_of q) ≡ true) }
    ensures kept { IfOk result (λ k. IsKept k (kept_outcome (option_map reduced_of query))) }
    ensures limits { IfOk result (λ k. IsFaultyOverLimits k (option_map reduced_of query)) }
{
    let found = encode(alloc, &query)?;
    match found {
        Some(bytes) => Ok(Kept::Taken { query, bytes }),
        None => over_limits(alloc),
    }
}

/// What becomes of a rule that was read, by these thesauri.
fn outcome_of_query(
    alloc: Global,
    prefs: &Prefs,
    thesauri: &[NamedThesaurus],
    query: &Query,
) -> Result<Kept, Memory>
    requires { keeps_limits (tree_of query.now) ≡ true }
    ensures { IfOk result (λ k. IsKept k (outcome_of_tree (context (named_pairs thesauri.now) prefs.now) (tree_of query.now))) }
{
    let ctx = ReduceCtx {
        lexer: &prefs.lexer,
        stop: &prefs.stop,
        group: &prefs.group,
        thesauri,
    };
    match reduce(alloc, query, &ctx) {
        Ok(found) => keep_query(alloc, found),
        Err(ReduceFault::NoSection(name)) => no_section(alloc, name.as_str()),
        Err(ReduceFault::FieldInside(name)) => field_inside(alloc, name.as_str()),
        Err(ReduceFault::NoThesaurus(name)) => no_thesaurus(alloc, name.as_str()),
        Err(ReduceFault::ManyTerms) => faulty(alloc, "E28: too many expanded terms"),
        Err(ReduceFault::ManyTokens(place)) => faulty_at(alloc, "E29: not one word at ", place),
        Err(ReduceFault::Memory) => Err(Memory),
    }
}

/// What becomes of a rule of this text in an index with these preferences, by these thesauri: its text is read and reduced, or it is
/// faulty. Its cost is that of reading and reducing the text.
fn outcome_of(
    alloc: Global,
    prefs: &Prefs,
    thesauri: &[NamedThesaurus],
    text: &str,
) -> Result<Kept, Memory>
    ensures { IfOk result (λ k. IsKept k (text_outcome (named_pairs thesauri.now) prefs.now text.now)) }
{
    match parse(alloc, text) {
        Ok(query) => outcome_of_query(alloc, prefs, thesauri, &query),
        Err(QueryFault::Syntax(place)) => faulty_at(alloc, "E20: query syntax at ", place),
        Err(QueryFault::NotInProfile(place)) => {
            faulty_at(alloc, "E21: operator not in profile at ", place)
        }
        Err(QueryFault::BadNumber(place)) => faulty_at(
            alloc,
            "E22: number out of range at ",
            place,
        ),
        Err(QueryFault::TooLarge) => faulty(alloc, "E26: query too large"),
        Err(QueryFault::Memory) => Err(Memory),
    }
}

/// What becomes of the rule of a row with this text; a row without one has the rule of an empty text.
pub(crate) fn seen_outcome(
    alloc: Global,
    prefs: &Prefs,
    thesauri: &[NamedThesaurus],
    text: &Option<Text>,
) -> Result<Kept, Memory>
    ensures { IfOk result (λ k. IsKept k (outcome_seen (named_pairs thesauri.now) prefs.now text.now)) }
{
    match text {
        Some(text) => outcome_of(alloc, prefs, thesauri, text.as_str()),
        None => outcome_of(alloc, prefs, thesauri, ""),
    }
}
