//! Where a script and what is said stand when `hear` is called.

ghost use Rattle.std.specs.Prelude.{◌≡◌, ◌+◌, ◌≤◌, ◌<◌, IfOk, true, [], vec_len};
ghost use Rattle.std.specs.Vec.{vec_capacity};
ghost use Rattle.ct_site.specs.Places.{with_kept_place};

use ct_base::Memory;
use std::alloc::Global;

/// How much of the script had been taken, and how many bytes had been said.
#[derive(Clone, Copy, Debug)]
pub(crate) struct Place {
    pub taken: usize,
    pub said: usize,
}

/// No places yet, with the memory for so many of one kind and of another.
pub(crate) fn places_for(alloc: Global, some: usize, more: usize) -> Result<Vec<Place>, Memory>
    ensures { IfOk result (λ places. (places.items ≡ []) × (some + more ≤ vec_capacity places)) }
{
    let Some(count) = some.checked_add(more) else {
        return Err(Memory);
    };
    Ok(Vec::with_capacity(alloc, count)?)
}

/// Puts a place at the end, if it is to be kept, in memory that is there.
pub(crate) fn keep_place(places: &mut Vec<Place>, is_kept: bool, place: Place)
    requires { is_kept ≡ true → vec_len places.old < vec_capacity places.old }
    ensures items { places.new.items ≡ with_kept_place places.old.items is_kept place }
    ensures capacity { vec_capacity places.old ≤ vec_capacity places.new }
    ensures len { vec_len places.new ≤ vec_len places.old + 1 }
{
    if is_kept {
        places.push_reserved(place);
    }
}
