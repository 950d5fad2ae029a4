//! Pairs of positions as places.

ghost use Rattle.std.specs.Prelude.{◌≡◌, ◌↔◌, ℕ, IfSome, IfNone, IsTrue};
ghost use Rattle.ct_base.specs.declared.numbers.Pair.{Pair};
ghost use Rattle.ix_posting.specs.Forms.{ComesAfter, pair_form};
ghost use Rattle.ix_posting.specs.Places.{IsPlaceAt};

use crate::places::Place;
use ct_base::{Memory, Pair};
use ct_bytes::{put_varint, read_varint};

/// Whether the second pair has a greater first, or the same first and a greater last.
fn follows(before: Pair, pair: Pair) -> bool
    ensures { IsTrue result ↔ ComesAfter before pair }
{
    before.first < pair.first || (before.first == pair.first && before.last < pair.last)
}

/// The pair after `before` that stands from `at` on, and where the bytes go on after it.
fn read_pair(bytes: &[u8], at: usize, before: Pair) -> Option<(Pair, usize)>
    ensures some { IfSome result (λ r. IsPlaceAt pair_form bytes.now before at r.0 r.1) }
    ensures none { IfNone result ((p : Pair) (next : ℕ) → IsPlaceAt pair_form bytes.now before at p next → ⊥) }
{
    let (step, mid) = read_varint(bytes, at)?;
    let (extent, next) = read_varint(bytes, mid)?;
    let first = before.first.checked_add(step)?;
    let last = first.checked_add(extent)?;
    let pair = Pair { first, last };
    if first == 0 || !follows(before, pair) {
        return None;
    }
    Some((pair, next))
}

impl Place for Pair {
    ghost use Rattle.ix_posting.specs.laws.Pairs.{pairs_are_read};

    ghost form = { pair_form };

    ghost lawful = { pairs_are_read };

    fn origin() -> Pair {
        Pair { first: 0, last: 0 }
    }

    fn put(self, out: &mut Vec<u8>, before: Pair) -> Result<(), Memory> {
        put_varint(out, self.first.saturating_sub(before.first))?;
        put_varint(out, self.last.saturating_sub(self.first))
    }

    fn read(bytes: &[u8], at: usize, before: Pair) -> Option<(Pair, usize)> {
        read_pair(bytes, at, before)
    }
}
