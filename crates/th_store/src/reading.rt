//! Pairs from the rests of keys.

ghost use Rattle.std.specs.Prelude.{◌≡◌, ◌++◌, ◌∷◌, [], true, IfOk, OnOk, List, map};
ghost use Rattle.std.specs.List.{list_all};
ghost use Rattle.std.specs.Option.{option_map};
ghost use Rattle.std.specs.Str.{is_utf8};
ghost use Rattle.th_graph.specs.Pairs.{term_pair};
ghost use Rattle.th_graph.specs.declared.pairs.TermPair.{TermPair};
ghost use Rattle.th_store.specs.Readings.{IsNumberOf, SpellsPair, SpellsParts, SplitsCounted};
ghost use Rattle.th_store.specs.Rules.{has_lesser_first, is_pair, is_term_text};
ghost use Rattle.th_store.specs.Thesauri.{pair_part};

use ct_base::{Memory, TOKEN_LIMIT, Text};
use std::alloc::Global;
use std::str::from_utf8;
use th_graph::{PairKind, Term, TermPair, Thesaurus};

/// The kind of pairs that has this number.
fn kind_of(number: u8) -> Option<PairKind>
    ensures { IsNumberOf number result }
{
    match number {
        1 => Some(PairKind::Synonyms),
        2 => Some(PairKind::ToBroader),
        3 => Some(PairKind::ToPreferred),
        _ => None,
    }
}

/// The bytes whose length is the first byte, and those behind them; None where there are too few.
fn split_counted(bytes: &[u8]) -> Option<(&[u8], &[u8])>
    ensures { SplitsCounted bytes.now (option_map (λ x. (x.0.now, x.1.now)) result) }
{
    let [length, rest @ ..] = bytes else {
        return None;
    };
    rest.split_at_checked(usize::from(*length))
}

/// The kind and the terms that the rest of a key spells, whatever the terms.
fn parts_in(part: &[u8]) -> Option<(PairKind, &[u8], &[u8])>
    ensures { SpellsParts part.now (option_map (λ x. term_pair x.0 x.1.now x.2.now) result) }
{
    let [number, terms @ ..] = part else {
        return None;
    };
    let Some(kind) = kind_of(*number) else {
        return None;
    };
    let Some((first, behind)) = split_counted(terms) else {
        return None;
    };
    let Some((second, rest)) = split_counted(behind) else {
        return None;
    };
    if rest.is_empty() {
        Some((kind, first, second))
    } else {
        None
    }
}

/// Whether the bytes are UTF-8.
fn is_utf8(bytes: &[u8]) -> bool
    ensures { result ≡ is_utf8 bytes.now }
{
    match from_utf8(bytes) {
        Ok(_) => true,
        Err(_) => false,
    }
}

/// Whether the bytes are a term: 1 to 255 bytes of UTF-8.
fn is_term_text(bytes: &[u8]) -> bool
    ensures { result ≡ is_term_text bytes.now }
{
    !bytes.is_empty() && bytes.len() <= TOKEN_LIMIT && is_utf8(bytes)
}

/// Whether the terms stand in order, if they are synonyms.
fn has_lesser_first(kind: PairKind, first: &[u8], second: &[u8]) -> bool
    ensures { result ≡ has_lesser_first kind first.now second.now }
{
    kind.number() != 1 || !second.cmp(first).is_lt()
}

/// Whether both are terms, and stand in order if they are synonyms.
fn is_pair(kind: PairKind, first: &[u8], second: &[u8]) -> bool
    ensures { result ≡ is_pair (term_pair kind first.now second.now) }
{
    is_term_text(first) && is_term_text(second) && has_lesser_first(kind, first, second)
}

/// The kind and the terms of the pair that the rest of a key spells; None where it spells none. Its cost is linear in its length.
pub(crate) fn pair_in(part: &[u8]) -> Option<(PairKind, &[u8], &[u8])>
    ensures { SpellsPair part.now (option_map (λ x. term_pair x.0 x.1.now x.2.now) result) }
{
    let Some((kind, first, second)) = parts_in(part) else {
        return None;
    };
    if is_pair(kind, first, second) {
        Some((kind, first, second))
    } else {
        None
    }
}

/// The term that these bytes are.
fn term_in(alloc: Global, bytes: &[u8]) -> Result<Term, Memory>
    requires { is_term_text bytes.now ≡ true }
    ensures { IfOk result (λ t. t ≡ bytes.now) }
{
    match from_utf8(bytes) {
        Ok(text) => Ok(Term::stored(Text::of(alloc, text)?)),
        Err(_) => unreachable!(),
    }
}

/// The pair of copies of these terms.
fn stored_pair(
    alloc: Global,
    kind: PairKind,
    first: &[u8],
    second: &[u8],
) -> Result<TermPair, Memory>
    requires { is_pair (term_pair kind first.now second.now) ≡ true }
    ensures { IfOk result (λ p. p ≡ term_pair kind first.now second.now) }
{
    Ok(TermPair {
        kind,
        first: term_in(alloc, first)?,
        second: term_in(alloc, second)?,
    })
}

/// Puts the pair that the rest of a key spells; nothing where it spells none.
fn put_part(alloc: Global, thesaurus: &mut Thesaurus, part: &[u8]) -> Result<(), Memory>
    ensures { OnOk result ((p : TermPair) → is_pair p ≡ true → pair_part p ≡ part.now → thesaurus.new ≡ thesaurus.old ++ p ∷ []) }
{
    match pair_in(part) {
        Some((kind, first, second)) => {
            let pair = stored_pair(alloc, kind, first, second)?;
            thesaurus.put(pair)
        }
        None => Ok(()),
    }
}

/// The thesaurus of the pairs that the rests of keys spell, in their order.
pub(crate) fn thesaurus_in(alloc: Global, found: &[(Vec<u8>, Vec<u8>)]) -> Result<Thesaurus, Memory>
    ensures { IfOk result (λ t. (ps : List TermPair) → list_all is_pair ps ≡ true → map pair_part ps ≡ map (λ e. e.0.items) found.now → t ≡ ps) }
{
    let mut thesaurus = Thesaurus::new(alloc);
    let mut rest = found;
    while let [entry, later @ ..] = rest {
        put_part(alloc, &mut thesaurus, &entry.0)?;
        rest = later;
    }
    Ok(thesaurus)
}
