//! Positions as places, and the numbers of documents, which rise as positions do.

ghost use Rattle.std.specs.Prelude.{◌≡◌, ℕ, IfSome, IfNone};
ghost use Rattle.ix_posting.specs.Forms.{number_form};
ghost use Rattle.ix_posting.specs.Places.{IsPlaceAt};

use crate::places::Place;
use ct_base::Memory;
use ct_bytes::{put_varint, read_varint};

/// The number greater than `before` that stands from `at` on as their difference, and where the bytes go on after it.
pub(crate) fn read_number(bytes: &[u8], at: usize, before: u32) -> Option<(u32, usize)>
    ensures some { IfSome result (λ r. IsPlaceAt number_form bytes.now before at r.0 r.1) }
    ensures none { IfNone result ((n next : ℕ) → IsPlaceAt number_form bytes.now before at n next → ⊥) }
{
    let (step, next) = read_varint(bytes, at)?;
    let number = before.checked_add(step)?;
    if number == before {
        return None;
    }
    Some((number, next))
}

impl Place for u32 {
    ghost use Rattle.ix_posting.specs.laws.Numbers.{numbers_are_read};

    ghost form = { number_form };

    ghost lawful = { numbers_are_read };

    fn origin() -> u32 {
        0
    }

    fn put(self, out: &mut Vec<u8>, before: u32) -> Result<(), Memory> {
        put_varint(out, self.saturating_sub(before))
    }

    fn read(bytes: &[u8], at: usize, before: u32) -> Option<(u32, usize)> {
        read_number(bytes, at, before)
    }
}
