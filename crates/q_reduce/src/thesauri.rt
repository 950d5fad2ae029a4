//! Operators of thesauri.

ghost use Rattle.std.specs.Prelude.{◌≡◌, ◌++◌, IfOk, OnOk};
ghost use Rattle.std.specs.List.{flat_map};
ghost use Rattle.std.specs.Option.{option_map};
ghost use Rattle.std.specs.String.{string_bytes};
ghost use Rattle.q_tree.specs.declared.queries.Leaf.TheVariants.{Thes};
ghost use Rattle.q_reduce.specs.Reducing.{blank_before, operator_terms, term_phrases, slots_of_term, thesaurus_named, words_text};
ghost use Rattle.q_reduce.specs.Results.{AnswersTerms, PutsLeaf, context_of, named_pairs};

use crate::faults::ReduceFault;
use crate::phrases::put_trimmed;
use crate::reducing::ReduceCtx;
use crate::words::{put_tokens, word_text};
use ct_base::{Memory, Name};
use q_tree::{Phrase, Relation, Slot, Word};
use std::alloc::Global;
use th_graph::{ExpandFault, Term, Thesaurus};
use tx_lexer::tokens_by;

/// A thesaurus with its name.
#[derive(Drop)]
pub struct NamedThesaurus {
    pub name: Name,
    pub thesaurus: Thesaurus,
}

/// The thesaurus of a name, if it is there.
fn thesaurus_named<'a>(thesauri: &'a [NamedThesaurus], name: &Name) -> Option<&'a Thesaurus>
    ensures { option_map (λ t. t.now) result ≡ thesaurus_named name.now (named_pairs thesauri.now) }
{
    let mut rest = thesauri;
    while let [first, later @ ..] = rest {
        if first.name.as_str() == name.as_str() {
            return Some(&first.thesaurus);
        }
        rest = later;
    }
    None
}

/// Puts a blank, where a word follows.
fn put_blank(text: &mut String, later: &[Word]) -> Result<(), Memory>
    ensures { OnOk result (string_bytes text.new ≡ string_bytes text.old ++ blank_before later.now) }
{
    if let [_, ..] = later {
        text.push_str(" ")?;
    }
    Ok(())
}

/// The texts of words, with a blank between two.
fn words_text(alloc: Global, words: &[Word]) -> Result<String, Memory>
    ensures { IfOk result (λ text. string_bytes text ≡ words_text words.now) }
{
    let mut text = String::new(alloc);
    let mut rest = words;
    while let [word, later @ ..] = rest {
        text.push_str(word_text(alloc, word.bits.as_slice())?.as_str())?;
        put_blank(&mut text, later)?;
        rest = later;
    }
    Ok(text)
}

/// The terms that the words of an operator expand to; none where their text stands for no term.
fn operator_terms(
    alloc: Global,
    thesaurus: &Thesaurus,
    relation: Relation,
    level: u8,
    words: &[Word],
) -> Result<Vec<Term>, ReduceFault>
    ensures { AnswersTerms result (operator_terms thesaurus.now relation level words.now) }
{
    let text = words_text(alloc, words)?;
    let Some(term) = Term::of(alloc, text.as_str())? else {
        return Ok(Vec::new(alloc));
    };
    match thesaurus.expand(relation, &term, u32::from(level)) {
        Ok(terms) => Ok(terms),
        Err(ExpandFault::TooMany) => Err(ReduceFault::ManyTerms),
        Err(ExpandFault::Memory) => Err(ReduceFault::Memory),
    }
}

/// The slots of the tokens of a term.
fn slots_of_term(alloc: Global, ctx: &ReduceCtx<'_>, term: &Term) -> Result<Vec<Slot>, Memory>
    ensures { IfOk result (λ v. v.items ≡ slots_of_term (context_of ctx.now) term.now) }
{
    let tokens = tokens_by(alloc, ctx.lexer, term.as_str())?;
    let mut slots = Vec::new(alloc);
    put_tokens(alloc, ctx, &mut slots, tokens)?;
    Ok(slots)
}

/// Puts the phrase of each term, unless it has none.
fn put_terms(
    alloc: Global,
    ctx: &ReduceCtx<'_>,
    phrases: &mut Vec<Phrase>,
    terms: &[Term],
) -> Result<(), Memory>
    ensures { OnOk result (phrases.new.items ≡ phrases.old.items ++ flat_map (term_phrases (context_of ctx.now)) terms.now) }
{
    let mut rest = terms;
    while let [term, later @ ..] = rest {
        let slots = slots_of_term(alloc, ctx, term)?;
        put_trimmed(phrases, slots)?;
        rest = later;
    }
    Ok(())
}

/// Puts the phrases of the terms to which the words of an operator expand in a thesaurus.
pub(crate) fn put_operator(
    alloc: Global,
    ctx: &ReduceCtx<'_>,
    phrases: &mut Vec<Phrase>,
    relation: Relation,
    words: &[Word],
    level: u8,
    name: &Name,
) -> Result<(), ReduceFault>
    ensures { PutsLeaf result (context_of ctx.now) (Thes relation words.now level name.now) phrases.old.items phrases.new.items }
{
    let Some(thesaurus) = thesaurus_named(ctx.thesauri, name) else {
        return Err(ReduceFault::NoThesaurus(name.clone()?));
    };
    let terms = operator_terms(alloc, thesaurus, relation, level, words)?;
    put_terms(alloc, ctx, phrases, &terms)?;
    Ok(())
}
