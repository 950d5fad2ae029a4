//! Whether entries of thesauri are well shaped.

ghost use Rattle.std.specs.Prelude.{IsTrue, ◌↔◌};
ghost use Rattle.ct_entry.specs.declared.kinds.Kind.TheVariants as kind;
ghost use Rattle.th_store.specs.Shapes.{IsThesaurusShape};

use crate::reading::pair_in;
use ct_entry::Kind;

/// Whether an entry of this kind, with this rest of its key and this value, is one of a thesaurus or of a pair and well shaped. That its
/// owner is a name isn't tested. Its cost is the length of the rest.
pub fn is_thesaurus_shape(kind: Kind, part: &[u8], value: &[u8]) -> bool
    ensures { IsTrue result ↔ IsThesaurusShape kind part.now value.now }
{
    match kind {
        Kind::Thesauri => part.is_empty() && value.is_empty(),
        Kind::Relations => is_relation(part, value),
        _ => false,
    }
}

/// Whether the entry of a pair is well shaped.
fn is_relation(part: &[u8], value: &[u8]) -> bool
    ensures { IsTrue result ↔ IsThesaurusShape kind.Relations part.now value.now }
{
    match pair_in(part) {
        Some(_) => value.is_empty(),
        None => false,
    }
}
