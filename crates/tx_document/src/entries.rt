//! The entries of a document.

ghost use Rattle.std.specs.Prelude.{◌≡◌, ◌∷◌, IfOk, OnOk, map};
ghost use Rattle.tx_document.specs.Documents.{pair};
ghost use Rattle.tx_document.specs.Entries.{DocumentPlace, entries, section_place, word_places};
ghost use Rattle.tx_document.specs.Places.{with_places, with_word_places};

use crate::places::Places;
use crate::views::{DocView, SectionView, WordView};
use ct_base::{Memory, Pair, Pairs};
use std::alloc::Global;
use tx_chars::Key;

/// The stream under which sections stand.
const SECTION_STREAM: u8 = 255;

/// A token or a section of a document, and where it stands.
#[derive(Debug, Drop)]
pub struct Entry {
    /// 0 is the main stream, 1 to 64 are the fields, 255 are the sections.
    pub stream: u8,
    /// The key of the token, or the section's name.
    pub token: Key,
    /// For a token its positions, each position p as the pair (p, p). For a section the first and last positions of its instances.
    /// They rise.
    pub places: Pairs,
}

impl DocView {
    /// One entry for each key in each stream, and for each section, in the order of stream and token. Its cost is the
    /// number of places times the logarithm of the number of entries; each entry's token is copied once.
    pub fn entries(&self, alloc: Global) -> Result<Vec<Entry>, Memory>
        ensures { IfOk result (λ v. v.items ≡ entries self.now) }
    {
        let mut places = Places::new(alloc);
        note_words(alloc, &mut places, self.words.as_slice())?;
        note_sections(alloc, &mut places, self.sections.as_slice())?;
        places.into_entries(alloc)
    }
}

/// Notes the words in their streams.
fn note_words(alloc: Global, places: &mut Places, words: &[WordView]) -> Result<(), Memory>
    ensures { OnOk result (places.new ≡ with_word_places places.old words.now) }
{
    let mut rest = words;
    while let [word, later @ ..] = rest {
        note_word(alloc, places, word)?;
        rest = later;
    }
    Ok(())
}

/// Notes a word in its streams, unless it is a stopword.
fn note_word(alloc: Global, places: &mut Places, word: &WordView) -> Result<(), Memory>
    ensures { OnOk result (places.new ≡ with_places places.old (word_places word.now)) }
{
    match &word.key {
        None => Ok(()),
        Some(key) => note_streams(
            alloc,
            places,
            key.as_slice(),
            word.streams.as_slice(),
            word.position,
        ),
    }
}

/// Notes a position of a key in each of these streams.
fn note_streams(
    alloc: Global,
    places: &mut Places,
    key: &[u8],
    streams: &[u8],
    position: u32,
) -> Result<(), Memory>
    ensures { OnOk result (places.new ≡ with_places places.old (map {B = DocumentPlace} (λ stream. (stream ∷ key.now, pair position position)) streams.now)) }
{
    let place = Pair {
        first: position,
        last: position,
    };
    let mut rest = streams;
    while let [stream, later @ ..] = rest {
        places.note(alloc, *stream, key, place)?;
        rest = later;
    }
    Ok(())
}

/// Notes the instances of sections.
fn note_sections(alloc: Global, places: &mut Places, sections: &[SectionView]) -> Result<(), Memory>
    ensures { OnOk result (places.new ≡ with_places places.old (map section_place sections.now)) }
{
    let mut rest = sections;
    while let [section, later @ ..] = rest {
        let place = Pair {
            first: section.first,
            last: section.last,
        };
        places.note(
            alloc,
            SECTION_STREAM,
            section.section.as_str().as_bytes(),
            place,
        )?;
        rest = later;
    }
    Ok(())
}
