//! The positions of a word whose places come as pairs, as bytes.

ghost use Rattle.std.specs.Prelude.{◌≡◌, ◌<◌, ◌^◌, ◌++◌, OnOk, length};
ghost use Rattle.ix_posting.specs.Forms.{number_form, places_bytes, counted_bytes};
ghost use Rattle.ix_rows.specs.Firsts.{first_positions};

use ct_base::{Memory, Pair};
use ct_bytes::put_varint;

/// Puts the positions with which rising pairs begin: how many there are, and the step to each.
pub fn put_firsts(out: &mut Vec<u8>, pairs: &[Pair]) -> Result<(), Memory>
    requires { length pairs.now < 2 ^ 32 }
    ensures { OnOk result (out.new.items ≡ out.old.items ++ counted_bytes number_form (first_positions pairs.now)) }
{
    put_varint(out, pairs.len() as u32)?;
    put_first_steps(out, pairs)
}

/// Puts the step to the first of each of some rising pairs.
fn put_first_steps(out: &mut Vec<u8>, pairs: &[Pair]) -> Result<(), Memory>
    ensures { OnOk result (out.new.items ≡ out.old.items ++ places_bytes number_form 0 (first_positions pairs.now)) }
{
    let mut last = 0;
    for pair in pairs {
        put_varint(out, pair.first.saturating_sub(last))?;
        last = pair.first;
    }
    Ok(())
}
