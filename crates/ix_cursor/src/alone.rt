//! The score of a query on a document by its own entries.

ghost use Rattle.std.specs.Prelude.{◌≡◌, ◌≤◌, ◌<◌, ◌^◌, ◌∷◌, [], ℕ, true, length, IfOk};
ghost use Rattle.ix_posting.specs.Forms.{PlacesRise};
ghost use Rattle.ix_lists.specs.Documents.{places_at};
ghost use Rattle.q_tree.specs.ReducedQueries.{reduced_of};
ghost use Rattle.q_tree.specs.Soundness.{is_sound};
ghost use Rattle.q_tree.specs.Scores.{whole_score};
ghost use Rattle.q_tree.specs.Documents.{entry_positions, entry_pairs, fits_entry, is_stored_section, postings_of_entries};
ghost use Rattle.ix_cursor.specs.Unions.{union_at};
ghost use Rattle.ix_cursor.specs.Cursors.{node_score};
ghost use Rattle.ix_cursor.specs.Alone.{AreDocumentEntries, IsDocumentEntry, doc_entry, doc_entries, of_document_1, rising_firsts};

use crate::building::build;
use crate::nodes::Node;
use crate::sources::Source;
use ct_base::{Listed, Memory, Pair};
use ix_lists::Postings;
use ix_posting::{EncodedRows, Place, Row, RowDocument};
use q_match::takes;
use q_tree::{Flat, Slot};
use std::alloc::Global;
use tx_document::Entry;

/// The stream under which sections stand.
const SECTION_STREAM: u8 = 255;

/// The postings of a document of the number 1, which has these places.
fn lone_postings<P: Place>(alloc: Global, places: Listed<P>) -> Result<Postings<P>, Memory>
    requires some { 1 ≤ length places }
    requires few { length places < 2 ^ 32 }
    requires rise { PlacesRise P.form P.form.origin places }
    ensures { IfOk result (λ p. p ≡ record { document = 1; places = places } ∷ []) }
{
    let mut documents = Vec::new(alloc);
    documents.push(RowDocument {
        document: 1,
        places,
    })?;
    Postings::of_row(alloc, Row::of(documents))
}

/// Where pairs begin, each number that is greater than those before it.
fn rising_firsts(alloc: Global, pairs: &[Pair]) -> Result<Vec<u32>, Memory>
    ensures { IfOk result (λ v. v.items ≡ rising_firsts 0 pairs.now) }
{
    let mut firsts = Vec::new(alloc);
    let mut last = 0;
    let mut rest = pairs;
    while let [pair, later @ ..] = rest {
        if pair.first > last {
            firsts.push(pair.first)?;
            last = pair.first;
        }
        rest = later;
    }
    Ok(firsts)
}

/// The postings of a token, by its entry.
fn token_postings(alloc: Global, entry: &Entry) -> Result<Postings<u32>, Memory>
    requires { IsDocumentEntry entry.now }
    ensures { IfOk result (λ p. p ≡ record { document = 1; places = rising_firsts 0 entry.now.places } ∷ []) }
{
    let firsts = rising_firsts(alloc, entry.places.as_slice())?;
    lone_postings(alloc, Listed::of(firsts))
}

/// The postings of a section, by its entry.
fn section_postings(alloc: Global, entry: &Entry) -> Result<Postings<Pair>, Memory>
    requires { IsDocumentEntry entry.now }
    ensures { IfOk result (λ p. p ≡ record { document = 1; places = entry.now.places } ∷ []) }
{
    let pairs = Vec::from_slice(alloc, entry.places.as_slice())?;
    lone_postings(alloc, Listed::of(pairs))
}

/// Whether an entry is of the stream, and the slot takes its token.
fn fits_entry(alloc: Global, stream: u8, slot: &Slot, entry: &Entry) -> Result<bool, Memory>
    ensures { IfOk result (λ fits. fits ≡ fits_entry stream slot.now (doc_entry entry.now)) }
{
    if entry.stream != stream {
        return Ok(false);
    }
    takes(alloc, slot, entry.token.as_slice())
}

/// Whether an entry is that of the section.
fn is_section(entry: &Entry, name: &[u8]) -> bool
    ensures { result ≡ is_stored_section name.now (doc_entry entry.now) }
{
    entry.stream == SECTION_STREAM && entry.token.as_slice() == name
}

/// The postings of each token that a slot takes in a stream.
fn tokens_of_entries(
    alloc: Global,
    entries: &[Entry],
    stream: u8,
    slot: &Slot,
) -> Result<Vec<Postings<u32>>, Memory>
    requires { AreDocumentEntries entries.now }
    ensures { IfOk result (λ v. (d : ℕ) → union_at v.items d ≡ of_document_1 d (entry_positions stream slot.now (doc_entries entries.now))) }
{
    let mut tokens = Vec::new(alloc);
    let mut rest = entries;
    while let [entry, later @ ..] = rest {
        if fits_entry(alloc, stream, slot, entry)? {
            tokens.push(token_postings(alloc, entry)?)?;
        }
        rest = later;
    }
    Ok(tokens)
}

/// The postings of a section.
fn section_of_entries(
    alloc: Global,
    entries: &[Entry],
    name: &[u8],
) -> Result<Postings<Pair>, Memory>
    requires { AreDocumentEntries entries.now }
    ensures { IfOk result (λ p. (d : ℕ) → places_at p d ≡ of_document_1 d (entry_pairs name.now (doc_entries entries.now))) }
{
    let mut rest = entries;
    while let [entry, later @ ..] = rest {
        if is_section(entry, name) {
            return section_postings(alloc, entry);
        }
        rest = later;
    }
    Ok(Postings::of(EncodedRows::of(alloc, Vec::new(alloc))?))
}

/// A document by its entries, as the one document of a store.
#[derive(Drop)]
struct LoneDocument<'e> {
    entries: &'e [Entry],
}

impl Source for LoneDocument<'_> {
    ghost use Rattle.ix_cursor.specs.Alone.{AreDocumentEntries, postings_alone};

    ghost postings = { λ document. postings_alone document.entries.now };

    ghost well = { λ document. AreDocumentEntries document.entries.now };

    fn tokens(&self, alloc: Global, stream: u8, slot: &Slot) -> Result<Vec<Postings<u32>>, Memory> {
        tokens_of_entries(alloc, self.entries, stream, slot)
    }

    fn section(&self, alloc: Global, name: &str) -> Result<Postings<Pair>, Memory> {
        section_of_entries(alloc, self.entries, name.as_bytes())
    }
}

/// The score of a document.
fn score_in(alloc: Global, root: &mut Node, document: u32) -> Result<u32, Memory>
    ensures { IfOk result (λ score. score ≡ node_score root.old document) }
{
    root.see(alloc, document)?;
    let score = root.score(alloc, 1, u32::MAX)?;
    Ok(score)
}

/// The score of the query on the document that has just these entries: 0 to 100.
///
/// Its cost is the number of slots of the query times the number of entries, each with the length of the slot, and then that of scoring one
/// document; it goes as deep as the query.
pub fn score_alone(alloc: Global, flat: &Flat, entries: &[Entry]) -> Result<u32, Memory>
    requires sound { is_sound (reduced_of flat.now) ≡ true }
    requires entries { AreDocumentEntries entries.now }
    ensures { IfOk result (λ score. score ≡ whole_score (reduced_of flat.now) (postings_of_entries (doc_entries entries.now))) }
{
    let document = LoneDocument { entries };
    let mut root = build(alloc, &document, flat, 0)?;
    score_in(alloc, &mut root, 1)
}
