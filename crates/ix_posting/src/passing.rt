//! Places and documents that are gone over without being kept.

ghost use Rattle.std.specs.Prelude.{ℕ, List, IfSome, IfNone};
ghost use Rattle.ix_posting.specs.Passed.{HasDocumentAt, HasDocumentsAt, HasPlacesAt};
ghost use Rattle.ix_posting.specs.Places.{ArePlacesAt, AreDocumentsAt, IsDocumentAt};
ghost use Rattle.ix_posting.specs.declared.rows.RowDocument.{RowDocument};

use crate::places::Place;
use crate::reading::read_head;

/// Where the bytes go on after so many rising places that stand from `at` on. It takes no memory.
pub(crate) fn pass_places<P: Place>(bytes: &[u8], at: usize, count: u32) -> Option<usize>
    ensures some { IfSome result (λ next. HasPlacesAt P.form bytes.now at count next) }
    ensures none { IfNone result ((ps : List P) (next : ℕ) → ArePlacesAt P.form bytes.now P.form.origin at count ps next → ⊥) }
{
    let mut last = P::origin();
    let mut next = at;
    for _ in 0..count {
        let Some((place, behind)) = P::read(bytes, next, last) else {
            return None;
        };
        last = place;
        next = behind;
    }
    Some(next)
}

/// The number of the document after `before` that stands from `at` on, and where the bytes go on after it.
fn pass_document<P: Place>(bytes: &[u8], at: usize, before: u32) -> Option<(u32, usize)>
    ensures some { IfSome result (λ r. HasDocumentAt P.form bytes.now before at r.0 r.1) }
    ensures none { IfNone result ((d : RowDocument P) (next : ℕ) → IsDocumentAt P.form bytes.now before at d next → ⊥) }
{
    let Some(head) = read_head(bytes, at, before) else {
        return None;
    };
    let Some(next) = pass_places::<P>(bytes, head.next, head.count) else {
        return None;
    };
    Some((head.document, next))
}

/// The number of the last of so many documents from `at` on, and where the bytes go on after them. It takes no memory.
pub(crate) fn pass_documents<P: Place>(bytes: &[u8], at: usize, count: u32) -> Option<(u32, usize)>
    ensures some { IfSome result (λ r. HasDocumentsAt P.form bytes.now at count r.0 r.1) }
    ensures none { IfNone result ((ds : List (RowDocument P)) (next : ℕ) → AreDocumentsAt P.form bytes.now 0 at count ds next → ⊥) }
{
    let mut last = 0;
    let mut place = at;
    for _ in 0..count {
        let Some((document, next)) = pass_document::<P>(bytes, place, last) else {
            return None;
        };
        last = document;
        place = next;
    }
    Some((last, place))
}
