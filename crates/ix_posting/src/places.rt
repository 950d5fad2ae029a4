//! The places of a document, whatever their form.

ghost use Rattle.std.specs.Prelude.{◌≡◌, ◌++◌, ◌<◌, ◌^◌, ℕ, List, length, OnOk, IfOk, IfSome, IfNone, Err};
ghost use Rattle.ix_posting.specs.Forms.{PlaceForm, places_bytes, counted_bytes};
ghost use Rattle.ix_posting.specs.Places.{IsForm, IsPlaceAt, ArePlacesAt};

use crate::faults::RowFault;
use ct_base::Memory;
use ct_bytes::put_varint;
use std::alloc::Global;
use std::fmt::Debug;

/// What may be a place in a document: a position, or a pair of positions.
pub trait Place: Copy + Debug {
    /// Which place may follow which, and its bytes.
    ghost form: { PlaceForm Self };

    /// Places of this form are read back.
    ghost lawful: { IsForm form };

    /// What stands before the first place of a document.
    fn origin() -> Self
        ensures { result ≡ form.origin };

    /// Puts the place after `before`.
    fn put(self, out: &mut Vec<u8>, before: Self) -> Result<(), Memory>
        ensures { OnOk result (out.new.items ≡ out.old.items ++ form.bytes before self) };

    /// The place after `before` that stands from `at` on, and where the bytes go on after it.
    fn read(bytes: &[u8], at: usize, before: Self) -> Option<(Self, usize)>
        ensures some { IfSome result (λ r. IsPlaceAt form bytes.now before at r.0 r.1) }
        ensures none { IfNone result ((p : Self) (next : ℕ) → IsPlaceAt form bytes.now before at p next → ⊥) };
}

/// Puts each place after the one before it.
fn put_each<P: Place>(out: &mut Vec<u8>, places: &[P]) -> Result<(), Memory>
    ensures { OnOk result (out.new.items ≡ out.old.items ++ places_bytes P.form P.form.origin places.now) }
{
    let mut last = P::origin();
    let mut rest = places;
    while let [first, later @ ..] = rest {
        first.put(out, last)?;
        last = *first;
        rest = later;
    }
    Ok(())
}

/// Puts the rising places of a document: how many there are, and each.
pub fn put_places<P: Place>(out: &mut Vec<u8>, places: &[P]) -> Result<(), Memory>
    requires { length places.now < 2 ^ 32 }
    ensures { OnOk result (out.new.items ≡ out.old.items ++ counted_bytes P.form places.now) }
{
    put_varint(out, places.len() as u32)?;
    put_each(out, places)
}

/// So many rising places from `at` on, and where the bytes go on after them. Memory is taken only as places are read.
pub(crate) fn read_places<P: Place>(
    alloc: Global,
    bytes: &[u8],
    at: usize,
    count: u32,
) -> Result<(Vec<P>, usize), RowFault>
    ensures ok { IfOk result (λ r. ArePlacesAt P.form bytes.now P.form.origin at count r.0.items r.1) }
    ensures bad { result ≡ Err RowFault.BadRow → (ps : List P) (next : ℕ) → ArePlacesAt P.form bytes.now P.form.origin at count ps next → ⊥ }
{
    let mut places = Vec::new(alloc);
    let mut last = P::origin();
    let mut at_next = at;
    for _ in 0..count {
        let Some((place, next)) = P::read(bytes, at_next, last) else {
            return Err(RowFault::BadRow);
        };
        places.push(place)?;
        last = place;
        at_next = next;
    }
    Ok((places, at_next))
}
