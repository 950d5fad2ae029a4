//! The steps of a plan: long values.

ghost use Rattle.std.specs.Prelude.{◌≡◌, ◌⊎◌, ◌≤◌, ◌<◌, ◌+◌, ◌-◌, ◌++◌, ◌∷◌, [], ℕ, List, true, IfOk, IfSome, IsNone, OnOk, OnErr, Err, length, get_or, set};
ghost use Rattle.ct_keep.specs.Content.{Content};
ghost use Rattle.pg_map.specs.Kinds.{Free, Long, IsKind};
ghost use Rattle.pg_map.specs.Holding.{kind_of_page};
ghost use Rattle.pg_window.specs.Sheets.{sheet_kind};
ghost use Rattle.pg_plan.specs.Drafts.{StaysAway, with_free_page};
ghost use Rattle.pg_plan.specs.Planned.{HasFree, HasChain, IsLongAt};
ghost use Rattle.pg_map.specs.Done.{IsPlanned, IsDone};
ghost use Rattle.pg_batch.specs.BatchPages.{long_pages};
ghost use Rattle.pg_plan.specs.FreePlaces.{ListsFree, used_pages};
ghost use Rattle.pg_plan.specs.PlanSteps.{MayAdd, NoNewKey, TakesPages};

use crate::drafts::Draft;
use crate::hints::Hints;
use pg_window::Sheet;
use std::alloc::Global;

/// Why a batch can't be planned.
#[derive(Clone, Copy, Debug, PartialEq, Eq)]
pub enum PlanFault {
    Memory,
    /// There would be too many pages for their numbers.
    TooMany,
}

/// The greatest place of a page, counted from the first one behind the root.
const LAST: usize = 2147483644;

/// The place of the free page that was listed last, or of a new page at the end where none was free.
#[tactic(auto, using(crate::specs::laws::Needs::takes_same, crate::proofs::Stepping::takes_added, crate::proofs::Stepping::may_add, crate::proofs::Stepping::adds_none, crate::specs::laws::Freeing::added_free, crate::specs::laws::Freeing::last_is_free))]
pub(crate) fn free_page(draft: &mut Draft, hints: &mut Hints) -> Result<usize, PlanFault>
    requires listed { ListsFree draft.old.now hints.old.free.now }
    ensures before { draft.new.before ≡ draft.old.before }
    ensures kept { hints.new.free.before ≡ hints.old.free.before }
    ensures grows { (draft.new ≡ draft.old) ⊎ (draft.new ≡ with_free_page draft.old) }
    ensures listed { IfOk result (λ at. ListsFree draft.new.now (hints.new.free.now ++ at ∷ [])) }
    ensures free { IfOk result (λ at. HasFree draft.old.now draft.new.now at) }
    ensures bound { IfOk result (λ at. at ≤ 2147483644) }
    ensures takes { TakesPages draft.old draft.new 1 }
    ensures added { IfOk result (λ at. MayAdd draft.old draft.new at) }
    ensures keys { NoNewKey draft.old.now draft.new.now }
    ensures stays { OnOk result (StaysAway draft.old draft.new) }
    ensures too_many { result ≡ Err PlanFault.TooMany → 2147483645 ≤ length draft.new.now }
{
    if let Some(at) = hints.free.take() {
        if at > LAST {
            return Err(PlanFault::TooMany);
        }
        return Ok(at);
    }
    let at = draft.count();
    if at > LAST {
        return Err(PlanFault::TooMany);
    }
    let Ok(()) = draft.grow() else {
        return Err(PlanFault::Memory);
    };
    Ok(at)
}

/// Puts a long page in front of a chain, and gives its number.
#[tactic(auto, using(crate::proofs::Stepping::fills_added, crate::specs::laws::Needs::takes_on, crate::specs::laws::Freeing::used_up))]
fn put_page(
    alloc: Global,
    draft: &mut Draft,
    hints: &mut Hints,
    next: u32,
    bytes: &[u8],
) -> Result<u32, PlanFault>
    requires kind { IsKind (Long next bytes.now) }
    requires listed { ListsFree draft.old.now hints.old.free.now }
    ensures before { draft.new.before ≡ draft.old.before }
    ensures kept { hints.new.free.before ≡ hints.old.free.before }
    ensures listed { OnOk result (ListsFree draft.new.now hints.new.free.now) }
    ensures laid { (m : Content) (value : List ℕ) → HasChain draft.old.now m next value
        → IfOk result (λ first. HasChain draft.new.now m first (bytes.now ++ value)) }
    ensures takes { TakesPages draft.old draft.new 1 }
    ensures keys { NoNewKey draft.old.now draft.new.now }
    ensures stays { OnOk result (StaysAway draft.old draft.new) }
    ensures too_many { result ≡ Err PlanFault.TooMany → 2147483645 ≤ length draft.new.now }
{
    let at = free_page(draft, hints)?;
    let Ok(bytes) = Vec::from_slice(alloc, bytes) else {
        return Err(PlanFault::Memory);
    };
    let Ok(()) = draft.put(at, Sheet::Long { next, bytes }) else {
        return Err(PlanFault::Memory);
    };
    Ok(at as u32 + 3)
}

/// The next page of a long page, and how many bytes it has itself.
fn long_at(draft: &Draft, page: u32) -> Option<(u32, usize)>
    ensures some { IfSome result (λ f. IsLongAt draft.now.now page f.0 f.1) }
    ensures none { IsNone result → (next : ℕ) (bytes : List ℕ) → 3 ≤ page → 1 ≤ length bytes → kind_of_page draft.now.now page ≡ Long next bytes → ⊥ }
{
    if page < 3 {
        return None;
    }
    let at = page as usize - 3;
    if at >= draft.count() {
        return None;
    }
    match draft.sheet(at) {
        Sheet::Long { next, bytes } if !bytes.is_empty() => Some((*next, bytes.len())),
        _ => None,
    }
}

/// Puts a value on long pages, from its end to its front, and gives the number of the first one; 0 where it has no byte.
pub(crate) fn put_long(
    alloc: Global,
    draft: &mut Draft,
    hints: &mut Hints,
    value: &[u8],
) -> Result<u32, PlanFault>
    requires listed { ListsFree draft.old.now hints.old.free.now }
    ensures before { draft.new.before ≡ draft.old.before }
    ensures kept { hints.new.free.before ≡ hints.old.free.before }
    ensures listed { OnOk result (ListsFree draft.new.now hints.new.free.now) }
    ensures laid { (m : Content) → IsDone draft.old.now m → IfOk result (λ first. HasChain draft.new.now m first value.now) }
    ensures takes { TakesPages draft.old draft.new (long_pages (length value.now)) }
    ensures keys { NoNewKey draft.old.now draft.new.now }
    ensures stays { OnOk result (StaysAway draft.old draft.new) }
    ensures too_many { result ≡ Err PlanFault.TooMany → 2147483645 ≤ length draft.new.now }
{
    let mut first = 0;
    let mut left = value.len();
    while left > 0 {
        let count = (left - 1) % 4088 + 1;
        first = put_page(alloc, draft, hints, first, &value[left - count..left])?;
        left -= count;
    }
    Ok(first)
}

/// Frees the long pages of a value of so many bytes.
pub(crate) fn free_long(
    draft: &mut Draft,
    hints: &mut Hints,
    first: u32,
    count: u32,
) -> Result<(), PlanFault>
    requires listed { ListsFree draft.old.now hints.old.free.now }
    ensures before { draft.new.before ≡ draft.old.before }
    ensures kept { hints.new.free.before ≡ hints.old.free.before }
    ensures listed { OnOk result (ListsFree draft.new.now hints.new.free.now) }
    ensures freed { (m : Content) (value : List ℕ) → HasChain draft.old.now m first value → length value ≡ count → OnOk result (IsDone draft.new.now m) }
    ensures pages { length draft.new.now ≡ length draft.old.now }
    ensures used { used_pages draft.new.now ≤ used_pages draft.old.now }
    ensures touches { (m : Content) (value : List ℕ) → HasChain draft.old.now m first value → length value ≡ count
        → length draft.new.touched ≤ length draft.old.touched + long_pages count }
    ensures keys { NoNewKey draft.old.now draft.new.now }
    ensures stays { OnOk result (StaysAway draft.old draft.new) }
    ensures too_many { result ≡ Err PlanFault.TooMany → ⊥ }
{
    let mut first = first;
    let mut left = count as usize;
    while left > 0 {
        let Some((next, used)) = long_at(draft, first) else {
            return Ok(());
        };
        let at = first as usize - 3;
        let Ok(()) = hints.free.add(at) else {
            return Err(PlanFault::Memory);
        };
        let Ok(()) = draft.set(at, Sheet::Free) else {
            return Err(PlanFault::Memory);
        };
        first = next;
        left = left.saturating_sub(used);
    }
    Ok(())
}
