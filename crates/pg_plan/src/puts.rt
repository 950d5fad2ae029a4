//! The steps of a plan: entries.

ghost use Rattle.std.specs.Prelude.{◌≡◌, ◌≢◌, ◌≤◌, ◌<◌, ◌+◌, ◌-◌, ◌^◌, ◌++◌, ◌∷◌, [], ℕ, List, Bool, true, false, IfOk, IfErr, IfSome, IsNone, OnOk, OnErr, Err, length, get_or, set, Some, None};
ghost use Rattle.std.specs.Bool.{if◌then◌else◌};
ghost use Rattle.std.specs.Option.{option_map};
ghost use Rattle.std.specs.FinMap.{get};
ghost use Rattle.ct_keep.specs.SeenChanges.{change_of};
ghost use Rattle.ct_keep.specs.Content.{Content, set_to};
ghost use Rattle.pg_map.specs.Holding.{one_if_long};
ghost use Rattle.pg_map.specs.Kinds.{Free, Slotted, strings_of};
ghost use Rattle.pg_window.specs.Sheets.{sheet_kind, is_away};
ghost use Rattle.pg_plan.specs.Drafts.{EndsWith, IsHere, StaysAway};
ghost use Rattle.pg_plan.specs.Planned.{IsPut, HasRoom, HasNone, IsTaking, IsReplacing, KeepsSlot, HasChain};
ghost use Rattle.pg_map.specs.Done.{IsPlanned, IsDone};
ghost use Rattle.pg_batch.specs.BatchPages.{entry_pages, long_pages};
ghost use Rattle.pg_plan.specs.FreePlaces.{ListsFree, NeedsPages};
ghost use Rattle.pg_plan.specs.PlanSteps.{NoNewKey, TakesPages, TouchesEntry, MakesChange};

use crate::drafts::{Draft, is_free};
use crate::hints::Hints;
use crate::plans::{PlanFault, free_long, free_page, put_long};
use crate::slots::{find, replaced, without};
use ct_base::Memory;
use ct_keep::Change;
use pg_map::{far_in, far_string, short_string};
use pg_page::{Page, Slot};
use pg_window::Sheet;
use std::alloc::Global;

/// How many pages are tried before a string is put on a free one.
const TRIES: usize = 4;

/// A page with the strings of another one; None where that is a long one or isn't in memory.
fn strings_on(sheet: &Sheet) -> Option<Page>
    ensures strings { IfSome result (λ page. strings_of (sheet_kind sheet.now ∷ []) ≡ page) }
    ensures short { IfSome result (λ page. one_if_long (sheet_kind sheet.now) ≡ 0) }
    ensures here { IfSome result (λ page. is_away sheet.now ≡ false) }
    ensures none { IsNone result → sheet_kind sheet.now ≢ Free }
{
    match sheet {
        Sheet::Free => Some(Page::empty()),
        Sheet::Slotted(page) => Some(page.copy()),
        Sheet::Away | Sheet::Long { .. } => None,
    }
}

/// The page at a place with a string behind its others; None where it is a long one, isn't in memory or has no room.
fn with_string(draft: &Draft, at: usize, string: &[u8]) -> Option<Page>
    ensures some { IfSome result (λ page. HasRoom draft.now.now at string.now page) }
    ensures here { IfSome result (λ page. IsHere draft.now at) }
    ensures none { IsNone result → get_or draft.now.now at Free ≡ Free → at < length draft.now.now → length string.now ≤ 4084 → ⊥ }
{
    if at >= draft.count() {
        return None;
    }
    let mut page = strings_on(draft.sheet(at))?;
    let Some(_) = page.put(string) else {
        return None;
    };
    Some(page)
}

/// The same for a page that isn't free.
fn used_page_with(draft: &Draft, at: usize, string: &[u8]) -> Option<Page>
    ensures some { IfSome result (λ page. HasRoom draft.now.now at string.now page) }
    ensures here { IfSome result (λ page. IsHere draft.now at) }
    ensures used { IfSome result (λ page. get_or draft.now.now at Free ≢ Free) }
{
    if at >= draft.count() || is_free(draft.sheet(at)) {
        return None;
    }
    with_string(draft, at, string)
}

/// A page with the string behind its others: one of the pages that were noted last as ones with room. Those that have none for it
/// are noted no more.
fn roomy_page(draft: &Draft, roomy: &mut Vec<usize>, string: &[u8]) -> Option<(usize, Page)>
    ensures some { IfSome result (λ found. HasRoom draft.now.now found.0 string.now found.1) }
    ensures here { IfSome result (λ found. IsHere draft.now found.0) }
    ensures used { IfSome result (λ found. get_or draft.now.now found.0 Free ≢ Free) }
{
    for _ in 0..TRIES {
        let at = *roomy.last()?;
        if let Some(page) = used_page_with(draft, at, string) {
            return Some((at, page));
        }
        let _ = roomy.pop();
    }
    None
}

/// Puts a page of strings in place of another one, which is noted unless it was the one that was changed last.
fn put_slotted(alloc: Global, draft: &mut Draft, at: usize, page: Page) -> Result<(), PlanFault>
    requires { at < length draft.old.now }
    ensures before { draft.new.before ≡ draft.old.before }
    ensures now { OnOk result (draft.new.now ≡ set draft.old.now at (Slotted page)) }
    ensures stays { IsHere draft.old at → OnOk result (StaysAway draft.old draft.new) }
    ensures touches { length draft.new.touched ≤ length draft.old.touched + 1 }
    ensures last { EndsWith draft.old.touched at → draft.new.touched ≡ draft.old.touched }
    ensures err { OnErr result (draft.new ≡ draft.old) }
    ensures memory { IfErr result (λ fault. fault ≡ PlanFault.Memory) }
{
    let Ok(page) = Box::new(alloc, page) else {
        return Err(PlanFault::Memory);
    };
    let Ok(()) = draft.put(at, Sheet::Slotted(page)) else {
        return Err(PlanFault::Memory);
    };
    Ok(())
}

/// Puts a string on a page that has room, or else on a free one; gives its place.
#[tactic(auto, using(crate::proofs::Stepping::fills_added, crate::proofs::Stepping::fills_there, crate::specs::laws::Needs::takes_same, crate::specs::laws::Needs::takes_on, crate::specs::laws::Freeing::used_up, crate::specs::laws::Freeing::used_still))]
fn put_string(
    alloc: Global,
    draft: &mut Draft,
    hints: &mut Hints,
    string: &[u8],
) -> Result<usize, PlanFault>
    requires short { length string.now ≤ 4084 }
    requires listed { ListsFree draft.old.now hints.old.free.now }
    ensures before { draft.new.before ≡ draft.old.before }
    ensures kept { hints.new.free.before ≡ hints.old.free.before }
    ensures listed { OnOk result (ListsFree draft.new.now hints.new.free.now) }
    ensures put { IfOk result (IsPut draft.old.now draft.new.now string.now) }
    ensures takes { TakesPages draft.old draft.new 1 }
    ensures stays { OnOk result (StaysAway draft.old draft.new) }
    ensures too_many { result ≡ Err PlanFault.TooMany → 2147483645 ≤ length draft.new.now }
{
    if let Some((at, page)) = roomy_page(draft, &mut hints.roomy, string) {
        put_slotted(alloc, draft, at, page)?;
        return Ok(at);
    }
    let at = free_page(draft, hints)?;
    let Some(page) = with_string(draft, at, string) else {
        unreachable!()
    };
    put_slotted(alloc, draft, at, page)?;
    hints.add_roomy(at);
    Ok(at)
}

/// The page at a place without the string of a key, and where its entry's long pages begin and how many bytes they have.
fn taking(draft: &Draft, at: usize, key: &[u8]) -> Option<(Page, u32, u32)>
    ensures some { IfSome result (λ t. IsTaking draft.now.now at key.now t.0 t.1 t.2) }
    ensures here { IfSome result (λ t. IsHere draft.now at) }
    ensures none { IsNone result → HasNone draft.now.now at key.now }
{
    if at >= draft.count() {
        return None;
    }
    let Sheet::Slotted(page) = draft.sheet(at) else {
        return None;
    };
    let page: &Page = page;
    let number = find(page, key)?;
    let string = page.get(Slot(number as u16))?;
    let (first, count) = far_in(string);
    Some((without(page, number), first, count))
}

/// Takes the entry of a key off the page at a place, and frees its long pages; whether it was there.
#[tactic(auto, using(crate::specs::laws::Needs::needs_same, crate::proofs::Stepping::removal_needs, crate::proofs::Stepping::slotted_full, crate::specs::laws::Freeing::used_still))]
fn remove_at(
    alloc: Global,
    draft: &mut Draft,
    hints: &mut Hints,
    at: usize,
    key: &[u8],
) -> Result<bool, PlanFault>
    requires listed { ListsFree draft.old.now hints.old.free.now }
    ensures before { draft.new.before ≡ draft.old.before }
    ensures kept { hints.new.free.before ≡ hints.old.free.before }
    ensures listed { OnOk result (ListsFree draft.new.now hints.new.free.now) }
    ensures gone { (m : Content) → IsDone draft.old.now m → IfOk result (λ found. IsDone draft.new.now (if found then set_to key.now None m else m)) }
    ensures none { IfOk result (λ found. found ≡ false → HasNone draft.old.now at key.now) }
    ensures needs { NeedsPages draft.old.now draft.new.now 0 }
    ensures touches { TouchesEntry draft.old draft.new key.now }
    ensures keys { NoNewKey draft.old.now draft.new.now }
    ensures stays { OnOk result (StaysAway draft.old draft.new) }
    ensures too_many { result ≡ Err PlanFault.TooMany → ⊥ }
{
    let Some((rest, first, count)) = taking(draft, at, key) else {
        return Ok(false);
    };
    let Ok(rest) = Box::new(alloc, rest) else {
        return Err(PlanFault::Memory);
    };
    let Ok(()) = draft.set(at, Sheet::Slotted(rest)) else {
        return Err(PlanFault::Memory);
    };
    hints.add_roomy(at);
    free_long(draft, hints, first, count)?;
    Ok(true)
}

/// Puts an entry whose value stands behind its key.
fn put_short(
    alloc: Global,
    draft: &mut Draft,
    hints: &mut Hints,
    key: &[u8],
    value: &[u8],
) -> Result<usize, PlanFault>
    requires short { 3 + length key.now + length value.now ≤ 4084 }
    requires listed { ListsFree draft.old.now hints.old.free.now }
    ensures before { draft.new.before ≡ draft.old.before }
    ensures kept { hints.new.free.before ≡ hints.old.free.before }
    ensures listed { OnOk result (ListsFree draft.new.now hints.new.free.now) }
    ensures put { (m : Content) → IsDone draft.old.now m → get m key.now ≡ None → IfOk result (MakesChange draft.old.now draft.new.now m key.now (Some value.now)) }
    ensures takes { TakesPages draft.old draft.new 1 }
    ensures stays { OnOk result (StaysAway draft.old draft.new) }
    ensures too_many { result ≡ Err PlanFault.TooMany → 2147483645 ≤ length draft.new.now }
{
    let Ok(string) = short_string(alloc, key, value) else {
        return Err(PlanFault::Memory);
    };
    put_string(alloc, draft, hints, &string)
}

/// Puts an entry whose value stands on long pages.
fn put_far(
    alloc: Global,
    draft: &mut Draft,
    hints: &mut Hints,
    key: &[u8],
    value: &[u8],
) -> Result<usize, PlanFault>
    requires key { length key.now ≤ 600 }
    requires value { length value.now ≤ 2 ^ 26 }
    requires long { 4084 < 3 + length key.now + length value.now }
    requires listed { ListsFree draft.old.now hints.old.free.now }
    ensures before { draft.new.before ≡ draft.old.before }
    ensures kept { hints.new.free.before ≡ hints.old.free.before }
    ensures listed { OnOk result (ListsFree draft.new.now hints.new.free.now) }
    ensures put { (m : Content) → IsDone draft.old.now m → get m key.now ≡ None → IfOk result (MakesChange draft.old.now draft.new.now m key.now (Some value.now)) }
    ensures takes { TakesPages draft.old draft.new (1 + long_pages (length value.now)) }
    ensures stays { OnOk result (StaysAway draft.old draft.new) }
    ensures too_many { result ≡ Err PlanFault.TooMany → 2147483645 ≤ length draft.new.now }
{
    let first = put_long(alloc, draft, hints, value)?;
    let Ok(string) = far_string(alloc, key, value.len() as u32, first) else {
        return Err(PlanFault::Memory);
    };
    put_string(alloc, draft, hints, &string)
}

/// The page at a place with another string in the slot of the key's; None where the key has none there, where its value stands on long
/// pages, or where the string has no room.
fn replacing(draft: &Draft, at: usize, key: &[u8], string: &[u8]) -> Option<Page>
    ensures some { IfSome result (λ page. IsReplacing draft.now.now at key.now string.now page) }
    ensures here { IfSome result (λ page. IsHere draft.now at) }
{
    if at >= draft.count() {
        return None;
    }
    let Sheet::Slotted(page) = draft.sheet(at) else {
        return None;
    };
    let page: &Page = page;
    let number = find(page, key)?;
    let old = page.get(Slot(number as u16))?;
    let (_, count) = far_in(old);
    if count > 0 {
        return None;
    }
    let kept = replaced(page, number, string)?;
    Some(kept)
}

/// The page at a place with the new entry of a change in the slot of the old one, where both stand on one page and that has room.
fn kept_page(
    alloc: Global,
    draft: &Draft,
    at: usize,
    change: &Change,
) -> Result<Option<Page>, PlanFault>
    requires value { IfSome change.now.value (λ value. (length change.now.key.items ≤ 600) × (length value.items ≤ 2 ^ 26)) }
    ensures some { IfOk result (λ kept. IfSome kept (λ page. KeepsSlot draft.now.now at change.now.key.items (option_map (λ v. v.items) change.now.value) page)) }
    ensures here { IfOk result (λ kept. IfSome kept (λ page. IsHere draft.now at)) }
    ensures memory { IfErr result (λ fault. fault ≡ PlanFault.Memory) }
{
    let Some(value) = &change.value else {
        return Ok(None);
    };
    if at >= draft.count() || 3 + change.key.len() + value.len() > 4084 {
        return Ok(None);
    }
    let Ok(string) = short_string(alloc, &change.key, value) else {
        return Err(PlanFault::Memory);
    };
    Ok(replacing(draft, at, &change.key, &string))
}

/// Makes a change: where its key has an old entry, that is at this place, and the new one stands in its slot if it can, and else on any
/// page. Gives the place of the new entry.
#[tactic(auto, using(crate::proofs::Replacing::kept_touches, crate::specs::laws::Freeing::used_still))]
pub(crate) fn do_change(
    alloc: Global,
    draft: &mut Draft,
    hints: &mut Hints,
    at: usize,
    change: &Change,
) -> Result<usize, PlanFault>
    requires listed { ListsFree draft.old.now hints.old.free.now }
    requires value { IfSome change.now.value (λ value. (length change.now.key.items ≤ 600) × (length value.items ≤ 2 ^ 26)) }
    ensures before { draft.new.before ≡ draft.old.before }
    ensures kept { hints.new.free.before ≡ hints.old.free.before }
    ensures listed { OnOk result (ListsFree draft.new.now hints.new.free.now) }
    ensures done { (m : Content) → IsDone draft.old.now m → (HasNone draft.old.now at change.now.key.items → get m change.now.key.items ≡ None)
        → IfOk result (MakesChange draft.old.now draft.new.now m change.now.key.items (option_map (λ v. v.items) change.now.value)) }
    ensures needs { NeedsPages draft.old.now draft.new.now (entry_pages change.now.key.items (option_map (λ v. v.items) change.now.value)) }
    ensures touches { (m : Content) → IsDone draft.old.now m → length draft.new.touched
        ≤ length draft.old.touched + (entry_pages change.now.key.items (get m change.now.key.items) + entry_pages change.now.key.items (option_map (λ v. v.items) change.now.value)) }
    ensures stays { OnOk result (StaysAway draft.old draft.new) }
    ensures too_many { result ≡ Err PlanFault.TooMany → 2147483645 ≤ length draft.new.now }
{
    if let Some(page) = kept_page(alloc, draft, at, change)? {
        put_slotted(alloc, draft, at, page)?;
        return Ok(at);
    }
    let _ = remove_at(alloc, draft, hints, at, &change.key)?;
    match &change.value {
        None => Ok(at),
        Some(value) if 3 + change.key.len() + value.len() <= 4084 => {
            put_short(alloc, draft, hints, &change.key, value)
        }
        Some(value) => put_far(alloc, draft, hints, &change.key, value),
    }
}
