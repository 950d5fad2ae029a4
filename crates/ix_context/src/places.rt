//! How tidy an index is, and the place where an optimisation with a limit goes on: the end of the entry of an index.

ghost use Rattle.std.specs.Prelude.{◌≡◌, ◌++◌, IfOk, ◌∷◌};
ghost use Rattle.ct_bytes.specs.Varints.{text_bytes};
ghost use Rattle.ix_context.specs.Places.{IsPlace, is_tidy, place_bytes, tidiness_byte, tidiness_of, end_bytes, SpellsTidiness, SpellsPlace, SpellsEnd};

use ct_base::{Listed, Memory, Name};
use ct_bytes::{put_text, read_text};
use std::alloc::Global;

/// The greatest number of a stream.
pub(crate) const STREAM_LIMIT: u8 = 64;

/// How many bytes a token has at most.
const TOKEN_LIMIT: usize = 255;

/// What stands in front of the name of a section, where a stream stands in front of a token.
const SECTION_MARK: u8 = 255;

/// How tidy an index is. An optimisation makes it so; a row that is lost, and a synchronisation of at least one row, make it untidy.
#[derive(Clone, Copy, Debug, PartialEq, Eq, Drop)]
pub enum Tidiness {
    /// Nothing is known of the rows of postings.
    Untidy,
    /// The rows of each term are the split of its posting list.
    Packed,
    /// They are, and each document in them is a row of the table.
    Clean,
}

/// Where an optimisation with a limit goes on.
#[derive(Debug, Drop)]
pub enum Place {
    /// With the first token.
    Start,
    /// Behind this token of this stream. A token has 1 to 255 bytes, and a stream is at most 64.
    Word(u8, Listed<u8>),
    /// Behind this section. Sections come behind all tokens.
    Section(Name),
}

impl Tidiness {
    /// Whether an optimisation has put the rows of postings in order.
    pub fn is_tidy(self) -> bool
        ensures { result ≡ is_tidy (tidiness_of self) }
    {
        match self {
            Tidiness::Untidy => false,
            Tidiness::Packed => true,
            Tidiness::Clean => true,
        }
    }
}

/// The byte that says how tidy an index is.
fn byte_of(tidiness: Tidiness) -> u8
    ensures { result ≡ tidiness_byte (tidiness_of tidiness) }
{
    match tidiness {
        Tidiness::Untidy => 0,
        Tidiness::Packed => 1,
        Tidiness::Clean => 2,
    }
}

/// How tidy an index is by this byte. None for any byte over 2.
fn tidiness_by(byte: u8) -> Option<Tidiness>
    ensures { SpellsTidiness byte result }
{
    if byte == 0 {
        Some(Tidiness::Untidy)
    } else if byte == 1 {
        Some(Tidiness::Packed)
    } else if byte == 2 {
        Some(Tidiness::Clean)
    } else {
        None
    }
}

/// Puts the end of an entry behind the bytes: how tidy the index is, and the place. The bytes may be longer at an error.
pub(crate) fn put_end(out: &mut Vec<u8>, tidiness: Tidiness, place: &Place) -> Result<(), Memory>
    requires { IsPlace (place_bytes place.now) }
    ensures { IfOk result (λ _. out.new.items ≡ out.old.items ++ end_bytes (tidiness_of tidiness) (place_bytes place.now)) }
{
    out.push(byte_of(tidiness))?;
    match place {
        Place::Start => out.extend_from_slice(&[0, 0])?,
        Place::Word(stream, token) => {
            out.push(*stream)?;
            put_text(out, token.as_slice())?;
        }
        Place::Section(name) => {
            out.push(SECTION_MARK)?;
            put_text(out, name.as_str().as_bytes())?;
        }
    }
    Ok(())
}

/// The place that a stream, or the mark of sections, and the text behind it are.
fn place_of(alloc: Global, stream: u8, text: &[u8]) -> Result<Option<Place>, Memory>
    ensures { IfOk result (SpellsPlace (stream ∷ text_bytes text.now)) }
{
    if stream == SECTION_MARK {
        let Some(name) = Name::of_bytes(alloc, text)? else {
            return Ok(None);
        };
        return Ok(Some(Place::Section(name)));
    }
    if text.is_empty() {
        if stream == 0 {
            return Ok(Some(Place::Start));
        }
        return Ok(None);
    }
    if stream > STREAM_LIMIT {
        return Ok(None);
    }
    if text.len() > TOKEN_LIMIT {
        return Ok(None);
    }
    let token = Listed::of(Vec::from_slice(alloc, text)?);
    Ok(Some(Place::Word(stream, token)))
}

/// The place that the bytes are. None where they are none.
fn read_place(alloc: Global, bytes: &[u8]) -> Result<Option<Place>, Memory>
    ensures { IfOk result (SpellsPlace bytes.now) }
{
    let Some((stream, rest)) = bytes.split_first() else {
        return Ok(None);
    };
    let Some((text, next)) = read_text(rest, 0) else {
        return Ok(None);
    };
    if next != rest.len() {
        return Ok(None);
    }
    place_of(alloc, *stream, text)
}

/// How tidy an index is, and the place, where the bytes are the end of an entry. None where they are none.
pub(crate) fn read_end(alloc: Global, bytes: &[u8]) -> Result<Option<(Tidiness, Place)>, Memory>
    ensures { IfOk result (SpellsEnd bytes.now) }
{
    let Some((first, rest)) = bytes.split_first() else {
        return Ok(None);
    };
    let Some(tidiness) = tidiness_by(*first) else {
        return Ok(None);
    };
    let Some(place) = read_place(alloc, rest)? else {
        return Ok(None);
    };
    Ok(Some((tidiness, place)))
}
