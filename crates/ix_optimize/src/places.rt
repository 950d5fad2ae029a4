//! The place where an optimisation goes on, and the term behind which it is.

ghost use Rattle.std.specs.Prelude.{◌≡◌, IfOk};
ghost use Rattle.ix_repack.specs.Terms.{IsTermOrStart};
ghost use Rattle.ix_context.specs.Places.{IsPlaceRead};
ghost use Rattle.ix_optimize.specs.Optimising.{term_at, word_behind, section_behind, place_behind};

use ct_base::{Listed, Memory, Name};
use ix_context::Place;
use ix_repack::Term;
use ix_rows::{put_section_term, put_word_term};
use std::alloc::Global;

/// The term behind which a place is; None where it is before all.
pub(crate) fn term_at(alloc: Global, place: &Place) -> Result<Option<Term>, Memory>
    requires { IsPlaceRead place.now }
    ensures { IfOk result (λ term. term ≡ term_at place.now) }
{
    let mut term = Vec::new(alloc);
    match place {
        Place::Start => Ok(None),
        Place::Word(stream, token) => {
            put_word_term(&mut term, *stream, token.as_slice())?;
            Ok(Some(Term::Word(Listed::of(term))))
        }
        Place::Section(name) => {
            put_section_term(&mut term, name.as_str().as_bytes())?;
            Ok(Some(Term::Section(Listed::of(term))))
        }
    }
}

/// The place behind a word.
fn behind_word(alloc: Global, word: &[u8]) -> Result<Place, Memory>
    ensures { IfOk result (λ place. place ≡ word_behind word.now) }
{
    match word {
        [stream, _, token @ ..] => Ok(Place::Word(
            *stream,
            Listed::of(Vec::from_slice(alloc, token)?),
        )),
        _ => Ok(Place::Start),
    }
}

/// The place behind a section.
fn behind_section(alloc: Global, section: &[u8]) -> Result<Place, Memory>
    ensures { IfOk result (λ place. place ≡ section_behind section.now) }
{
    let [_, name @ ..] = section else {
        return Ok(Place::Start);
    };
    match Name::of_bytes(alloc, name)? {
        Some(name) => Ok(Place::Section(name)),
        None => Ok(Place::Start),
    }
}

/// The place behind a term; the start where there is none.
pub(crate) fn place_behind(alloc: Global, term: &Option<Term>) -> Result<Place, Memory>
    ensures { IfOk result (λ place. place ≡ place_behind term.now) }
{
    match term {
        None => Ok(Place::Start),
        Some(Term::Word(word)) => behind_word(alloc, word.as_slice()),
        Some(Term::Section(section)) => behind_section(alloc, section.as_slice()),
    }
}
