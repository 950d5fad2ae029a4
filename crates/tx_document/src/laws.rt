//! What holds of every document and of its entries. Each function here only states laws, which its contract proves.

ghost use Rattle.tx_document.specs.Promises.{DocumentsKeepRules, EntriesAreOrdered, PlacesAreFew, PlacesAreFound, PlacesArePositions};

use tx_lexer::in_order;

/// Of every text by all preferences: the positions of its words are at least 1 and rise, the streams of each word rise, of 0 to 64,
/// its key has 1 to 255 bytes, and each word ends before the next one starts or where it starts; and the instances of sections
/// rise, each once, from a first word to a last one that isn't before it.
pub fn document_laws()
    ensures { DocumentsKeepRules }
{
    in_order();
}

/// Under each name stands what a scan of the document finds. The places of a key in a stream are the positions of the words that
/// have it there. Each name is a key of 1 to 255 bytes in one of 65 streams, or a section. Its places rise, and a text of n bytes
/// has at most 9n + 2 of them.
#[tactic(auto, using(crate::specs::laws::Found::places_are_found, crate::specs::laws::Found::places_are_positions, crate::specs::laws::Ordered::entries_are_ordered, crate::specs::laws::Few::places_are_few))]
pub fn entry_laws()
    ensures found { PlacesAreFound }
    ensures positions { PlacesArePositions }
    ensures ordered { EntriesAreOrdered }
    ensures few { PlacesAreFew }
{}
