//! Terms in the order of their keys, one after the other.
#![tactic(auto, using(ct_keep::specs::laws::Composing::reads_on, ct_keep::specs::laws::Composing::reads_short))]

ghost use Rattle.std.specs.Prelude.{◌≡◌, ◌++◌, Some, IfOk};
ghost use Rattle.std.specs.Option.{option_map};
ghost use Rattle.ct_keep.specs.KeeperViews.{Finds, OnlyReads};
ghost use Rattle.ix_repack.specs.declared.terms.Term.TheVariants.{Word, Section};
ghost use Rattle.ix_repack.specs.Terms.{term_of, past, next_term, next_section, next_word, next_stored, IsTermOrStart};

use crate::terms::{Term, is_section_term, is_word_term};
use ct_base::{Bytes, Listed, Memory, Name};
use ct_bytes::put_u32;
use ct_entry::{Kind, key_bytes};
use ct_keep::{KeepFault, Keeper, next_under};
use std::alloc::Global;

/// The term in the rest of the key of a row.
fn term_of(alloc: Global, rest: &[u8]) -> Result<Bytes, Memory>
    ensures { IfOk result (λ term. term ≡ term_of rest.now) }
{
    let term = Vec::from_slice(alloc, &rest[..rest.len().saturating_sub(4)])?;
    Ok(Listed::of(term))
}

/// What stands behind the keys of all rows of a term.
fn past(alloc: Global, term: &[u8]) -> Result<Vec<u8>, Memory>
    ensures { IfOk result (λ bytes. bytes.items ≡ past term.now) }
{
    let mut bytes = Vec::from_slice(alloc, term)?;
    put_u32(&mut bytes, u32::MAX)?;
    Ok(bytes)
}

/// The term of the first row of this kind behind all rows of a place, which is a term or stands before all of them; None exactly where
/// there is none. It takes one look-up, whatever the number of rows that the place has.
fn next_term<K: Keeper>(
    alloc: Global,
    keeper: &mut K,
    kind: Kind,
    index: &Name,
    place: &[u8],
) -> Result<Option<Bytes>, KeepFault>
    requires { (K.view keeper.old).ready }
    ensures term { Finds K.view keeper.old result (λ m term. term ≡ next_term kind index.now place.now m) }
    ensures reads { OnlyReads K.view keeper.old keeper.new result }
{
    let prefix = key_bytes(alloc, kind, index, &[])?;
    let after = past(alloc, place)?;
    match next_under(alloc, keeper, &prefix, &after)? {
        None => Ok(None),
        Some((rest, _row)) => Ok(Some(term_of(alloc, &rest)?)),
    }
}

/// The section, if it is one.
fn section_of(alloc: Global, found: Option<Bytes>) -> Result<Option<Term>, Memory>
    ensures section { IfOk result (λ term. IsTermOrStart (option_map Section found) → term ≡ option_map Section found) }
    ensures proper { IfOk result IsTermOrStart }
{
    let Some(section) = found else {
        return Ok(None);
    };
    if is_section_term(alloc, section.as_slice())? {
        Ok(Some(Term::Section(section)))
    } else {
        Ok(None)
    }
}

/// The next section. None also where the next entry isn't that of a section's row.
fn next_section<K: Keeper>(
    alloc: Global,
    keeper: &mut K,
    index: &Name,
    place: &[u8],
) -> Result<Option<Term>, KeepFault>
    requires { (K.view keeper.old).ready }
    ensures term { Finds K.view keeper.old result (λ m term. IsTermOrStart (next_section index.now place.now m) → term ≡ next_section index.now place.now m) }
    ensures proper { IfOk result IsTermOrStart }
    ensures reads { OnlyReads K.view keeper.old keeper.new result }
{
    let found = next_term(alloc, keeper, Kind::Spans, index, place)?;
    let section = section_of(alloc, found)?;
    Ok(section)
}

/// The word, if it is one.
fn word_of(word: Bytes) -> Option<Term>
    ensures word { IsTermOrStart (Some (Word word)) → result ≡ Some (Word word) }
    ensures proper { IsTermOrStart result }
{
    if is_word_term(word.as_slice()) {
        Some(Term::Word(word))
    } else {
        None
    }
}

/// The next word, or else the first section. None also where the next entry isn't that of a word's row.
fn next_word<K: Keeper>(
    alloc: Global,
    keeper: &mut K,
    index: &Name,
    place: &[u8],
) -> Result<Option<Term>, KeepFault>
    requires { (K.view keeper.old).ready }
    ensures term { Finds K.view keeper.old result (λ m term. IsTermOrStart (next_word index.now place.now m) → term ≡ next_word index.now place.now m) }
    ensures proper { IfOk result IsTermOrStart }
    ensures reads { OnlyReads K.view keeper.old keeper.new result }
{
    match next_term(alloc, keeper, Kind::Postings, index, place)? {
        None => next_section(alloc, keeper, index, &[0]),
        Some(word) => Ok(word_of(word)),
    }
}

/// The first term behind a place, or of all; None exactly where there is none. It takes at most two look-ups.
///
/// Of a content that has other entries under the name of the index than those of rows, it may answer None before the last of them.
pub(crate) fn next_stored<K: Keeper>(
    alloc: Global,
    keeper: &mut K,
    index: &Name,
    place: &Option<Term>,
) -> Result<Option<Term>, KeepFault>
    requires { (K.view keeper.old).ready }
    ensures term { Finds K.view keeper.old result (λ m term. IsTermOrStart (next_stored index.now place.now m) → term ≡ next_stored index.now place.now m) }
    ensures proper { IfOk result IsTermOrStart }
    ensures reads { OnlyReads K.view keeper.old keeper.new result }
{
    match place {
        None => next_word(alloc, keeper, index, &[0, 0]),
        Some(Term::Word(word)) => next_word(alloc, keeper, index, word.as_slice()),
        Some(Term::Section(section)) => next_section(alloc, keeper, index, section.as_slice()),
    }
}
