//! The directory after a batch: its leaves get their numbers, and the pages above them are made anew where the leaves changed.

ghost use Rattle.std.specs.Prelude.{◌≡◌, ◌≤◌, ◌<◌, ◌+◌, ◌-◌, ◌^◌, ◌++◌, ◌∷◌, [], ℕ, List, true, false, IsTrue, IfOk, OnOk, Err, length, get_or, take};
ghost use Rattle.ct_keep.specs.Content.{Content};
ghost use Rattle.pg_map.specs.Done.{IsDone};
ghost use Rattle.pg_window.specs.Sheets.{is_away};
ghost use Rattle.pg_leaves.specs.Relisting.{made_count, ArePagesOfLeaves};
ghost use Rattle.pg_plan.specs.FreePlaces.{ListsFree, NeedsPages};
ghost use Rattle.pg_change.specs.Rebuilding.{own_numbers, one_if_made, placed_numbers, upper_numbers, pages_taken, changes_noted, AreAway, PlansOn, GoesTo, IsPlaced, HasAbove, AboveIsBuilt, AboveStays, IsRebuilt, RebuildsIn};

use ct_base::Memory;
use pg_directory::{Child, Directory, InnerPage, LeafPage, build_levels, pages_above};
use pg_leaves::{LeafNow, Placed, Relisted, place_leaves};
use pg_plan::{Draft, Hints, PlanFault, give_page, take_page};
use pg_window::Sheet;
use std::alloc::Global;

/// The directory after a batch: the page at its top, 0 where there is none; its pages; and those of them that are to be written, leaves and
/// pages above them.
#[derive(Debug, Drop)]
pub struct Rebuilt {
    pub top: u32,
    pub directory: Directory,
    pub written: Vec<LeafPage>,
    pub upper: Vec<InnerPage>,
}

/// So many leaves there may be.
const MOST: usize = 4294967295;

/// Whether a page isn't in memory.
fn isnt_here(sheet: &Sheet) -> bool
    ensures { result ≡ is_away sheet.now }
{
    match sheet {
        Sheet::Away => true,
        _ => false,
    }
}

/// Whether the page of this number is there and isn't in memory.
fn is_away_at(draft: &Draft, number: u32) -> bool
    ensures low { IsTrue result → 3 ≤ number }
    ensures away { IsTrue result → get_or draft.now.away (number - 3) false ≡ true }
{
    if number < 3 {
        return false;
    }
    let at = number as usize - 3;
    if at >= draft.count() {
        return false;
    }
    isnt_here(draft.sheet(at))
}

/// Gives back a page of the directory. It answers Memory also where the page is in memory.
fn give_number(draft: &mut Draft, hints: &mut Hints, number: u32) -> Result<(), Memory>
    requires { ListsFree draft.old.now hints.old.free.now }
    ensures before { draft.new.before ≡ draft.old.before }
    ensures kept { hints.new.free.before ≡ hints.old.free.before }
    ensures plan { OnOk result (PlansOn draft.old draft.new hints.new.free 1) }
    ensures needs { OnOk result (NeedsPages draft.old.now draft.new.now 0) }
    ensures goes { (ms : List ℕ) → AreAway draft.old (number ∷ ms) → OnOk result (GoesTo draft.old draft.new (number ∷ ms) ms []) }
{
    if !is_away_at(draft, number) {
        return Err(Memory);
    }
    let Ok(()) = give_page(draft, hints, number as usize - 3) else {
        return Err(Memory);
    };
    Ok(())
}

/// Gives back pages of the directory. It takes memory for each of them.
fn give_numbers(draft: &mut Draft, hints: &mut Hints, numbers: &[u32]) -> Result<(), Memory>
    requires { ListsFree draft.old.now hints.old.free.now }
    ensures before { draft.new.before ≡ draft.old.before }
    ensures kept { hints.new.free.before ≡ hints.old.free.before }
    ensures plan { OnOk result (PlansOn draft.old draft.new hints.new.free (length numbers.now)) }
    ensures needs { OnOk result (NeedsPages draft.old.now draft.new.now 0) }
    ensures goes { (ms : List ℕ) → AreAway draft.old (numbers.now ++ ms) → OnOk result (GoesTo draft.old draft.new (numbers.now ++ ms) ms []) }
{
    for i in 0..numbers.len() {
        let Ok(()) = give_number(draft, hints, numbers[i]) else {
            return Err(Memory);
        };
    }
    Ok(())
}

/// Takes a page for the directory, and gives its number.
fn take_number(draft: &mut Draft, hints: &mut Hints) -> Result<u32, PlanFault>
    requires { ListsFree draft.old.now hints.old.free.now }
    ensures before { draft.new.before ≡ draft.old.before }
    ensures kept { hints.new.free.before ≡ hints.old.free.before }
    ensures plan { OnOk result (PlansOn draft.old draft.new hints.new.free 1) }
    ensures needs { NeedsPages draft.old.now draft.new.now 1 }
    ensures goes { (ns : List ℕ) → AreAway draft.old ns → IfOk result (λ n. GoesTo draft.old draft.new ns (n ∷ ns) (n ∷ [])) }
    ensures too_many { result ≡ Err PlanFault.TooMany → 2147483645 ≤ length draft.new.now }
{
    draft.keep_shape();
    let at = take_page(draft, hints)?;
    Ok(at as u32 + 3)
}

/// Takes so many pages for the directory, and gives their numbers.
fn take_numbers(
    alloc: Global,
    draft: &mut Draft,
    hints: &mut Hints,
    count: usize,
) -> Result<Vec<u32>, PlanFault>
    requires { ListsFree draft.old.now hints.old.free.now }
    ensures before { draft.new.before ≡ draft.old.before }
    ensures kept { hints.new.free.before ≡ hints.old.free.before }
    ensures plan { OnOk result (PlansOn draft.old draft.new hints.new.free count) }
    ensures needs { NeedsPages draft.old.now draft.new.now count }
    ensures count { IfOk result (λ numbers. length numbers.items ≡ count) }
    ensures goes { (ns : List ℕ) → AreAway draft.old ns → IfOk result (λ numbers. GoesTo draft.old draft.new ns (numbers.items ++ ns) numbers.items) }
    ensures too_many { result ≡ Err PlanFault.TooMany → 2147483645 ≤ length draft.new.now }
{
    let mut numbers = Vec::new(alloc);
    for _ in 0..count {
        let number = match take_number(draft, hints) {
            Ok(number) => number,
            Err(fault) => return Err(fault),
        };
        let Ok(()) = numbers.push(number) else {
            return Err(PlanFault::Memory);
        };
    }
    Ok(numbers)
}

/// 1 for a leaf that is made anew, and else 0.
fn one_if_made(leaf: &LeafNow) -> usize
    ensures is { result ≡ one_if_made leaf.now }
    ensures few { result ≤ 1 }
{
    match leaf {
        LeafNow::Made(_) => 1,
        LeafNow::Kept(_) => 0,
    }
}

/// How many leaves are made anew.
fn count_made(leaves: &[LeafNow]) -> usize
    ensures { result ≡ made_count leaves.now }
{
    let mut made = 0;
    for i in 0..leaves.len() {
        made += one_if_made(&leaves[i]);
    }
    made
}

/// Takes a page for each leaf that is made anew.
fn take_leaves(
    alloc: Global,
    draft: &mut Draft,
    hints: &mut Hints,
    leaves: Vec<LeafNow>,
) -> Result<Placed, PlanFault>
    requires { ListsFree draft.old.now hints.old.free.now }
    ensures before { draft.new.before ≡ draft.old.before }
    ensures kept { hints.new.free.before ≡ hints.old.free.before }
    ensures plan { OnOk result (PlansOn draft.old draft.new hints.new.free (made_count leaves.items)) }
    ensures needs { NeedsPages draft.old.now draft.new.now (made_count leaves.items) }
    ensures placed { IfOk result (IsPlaced leaves.items) }
    ensures goes { (ns : List ℕ) → AreAway draft.old ns
        → IfOk result (λ placed. GoesTo draft.old draft.new ns (placed_numbers placed ++ ns) (placed_numbers placed)) }
    ensures too_many { result ≡ Err PlanFault.TooMany → 2147483645 ≤ length draft.new.now }
{
    let numbers = match take_numbers(alloc, draft, hints, count_made(&leaves)) {
        Ok(numbers) => numbers,
        Err(fault) => return Err(fault),
    };
    let Ok(placed) = place_leaves(alloc, leaves, &numbers) else {
        return Err(PlanFault::Memory);
    };
    Ok(placed)
}

/// How many pages there are above so many leaves, as few as may be.
fn upper_count(leaves: usize) -> usize
    requires { leaves < 2 ^ 32 }
    ensures few { 1 ≤ leaves → result + 1 ≤ leaves }
{
    let mut level = leaves;
    let mut count = 0;
    while level > 1 {
        level = pages_above(level);
        count += level;
    }
    count
}

/// Appends zeros, until there are so many numbers.
fn pad(numbers: &mut Vec<u32>, count: usize) -> Result<(), Memory>
    ensures first { OnOk result (take (length numbers.old.items) numbers.new.items ≡ numbers.old.items) }
    ensures count { OnOk result (count ≤ length numbers.new.items) }
{
    while numbers.len() < count {
        numbers.push(0)?;
    }
    Ok(())
}

/// Pages above leaves, under numbers that are taken for them.
fn build_above(
    alloc: Global,
    draft: &mut Draft,
    hints: &mut Hints,
    placed: Placed,
) -> Result<Rebuilt, PlanFault>
    requires some { 1 ≤ length placed.children.items }
    requires listed { ListsFree draft.old.now hints.old.free.now }
    ensures before { draft.new.before ≡ draft.old.before }
    ensures kept { hints.new.free.before ≡ hints.old.free.before }
    ensures plan { OnOk result (PlansOn draft.old draft.new hints.new.free (length placed.children.items)) }
    ensures needs { (result ≡ Err PlanFault.Memory → ⊥) → NeedsPages draft.old.now draft.new.now (length placed.children.items) }
    ensures leaves { IfOk result (λ new. new.directory.leaves ≡ placed.children) }
    ensures written { IfOk result (λ new. new.written ≡ placed.written) }
    ensures built { IfOk result AboveIsBuilt }
    ensures goes { (ns : List ℕ) → AreAway draft.old ns → IfOk result (λ new. GoesTo draft.old draft.new ns (new.directory.inner.items ++ ns) (upper_numbers new)) }
    ensures too_many { result ≡ Err PlanFault.TooMany → 2147483645 ≤ length draft.new.now }
{
    let leaves = placed.children.len();
    if leaves > MOST {
        return Err(PlanFault::Memory);
    }
    let count = upper_count(leaves);
    let mut numbers = match take_numbers(alloc, draft, hints, count) {
        Ok(numbers) => numbers,
        Err(fault) => return Err(fault),
    };
    let Ok(()) = pad(&mut numbers, leaves) else {
        return Err(PlanFault::Memory);
    };
    let Ok(upper) = build_levels(alloc, &placed.children, &numbers) else {
        return Err(PlanFault::Memory);
    };
    if upper.pages.len() != count {
        return Err(PlanFault::Memory);
    }
    Ok(Rebuilt {
        top: upper.top.page,
        directory: Directory {
            inner: upper.inner,
            leaves: placed.children,
        },
        written: placed.written,
        upper: upper.pages,
    })
}

/// Whether two leaves have the same page and the same first entry.
fn is_same(now: Child, old: Child) -> bool
    ensures { IsTrue result → now ≡ old }
{
    now.page == old.page && now.least.page == old.least.page && now.least.slot == old.least.slot
}

/// Whether leaves are the same, and there are some.
fn are_same(now: &[Child], old: &[Child]) -> bool
    ensures same { IsTrue result → now.now ≡ old.now }
    ensures some { IsTrue result → 1 ≤ length old.now }
{
    if old.is_empty() || now.len() != old.len() {
        return false;
    }
    for i in 0..old.len() {
        if !is_same(now[i], old[i]) {
            return false;
        }
    }
    true
}

/// Leaves that are the same, and the pages above them, which stay.
fn stay_above(alloc: Global, top: u32, old: &Directory, placed: Placed) -> Result<Rebuilt, Memory>
    requires same { placed.children.items ≡ old.now.leaves.items }
    requires some { 1 ≤ length old.now.leaves.items }
    ensures leaves { IfOk result (λ new. new.directory.leaves ≡ placed.children) }
    ensures written { IfOk result (λ new. new.written ≡ placed.written) }
    ensures stays { IfOk result (AboveStays top old.now) }
{
    let inner = Vec::from_slice(alloc, &old.inner)?;
    Ok(Rebuilt {
        top,
        directory: Directory {
            inner,
            leaves: placed.children,
        },
        written: placed.written,
        upper: Vec::new(alloc),
    })
}

/// The pages above leaves: those that there were, where the leaves are the same, or others.
fn raise(
    alloc: Global,
    draft: &mut Draft,
    hints: &mut Hints,
    top: u32,
    old: &Directory,
    placed: Placed,
) -> Result<Rebuilt, PlanFault>
    requires { ListsFree draft.old.now hints.old.free.now }
    ensures before { draft.new.before ≡ draft.old.before }
    ensures kept { hints.new.free.before ≡ hints.old.free.before }
    ensures plan { OnOk result (PlansOn draft.old draft.new hints.new.free (length old.now.inner.items + length placed.children.items)) }
    ensures needs { (result ≡ Err PlanFault.Memory → ⊥) → NeedsPages draft.old.now draft.new.now (length placed.children.items) }
    ensures raised { IfOk result (HasAbove top old.now placed) }
    ensures goes { (ns : List ℕ) → AreAway draft.old (old.now.inner.items ++ ns)
        → IfOk result (λ new. GoesTo draft.old draft.new (old.now.inner.items ++ ns) (new.directory.inner.items ++ ns) (upper_numbers new)) }
    ensures too_many { result ≡ Err PlanFault.TooMany → 2147483645 ≤ length draft.new.now }
{
    if are_same(&placed.children, &old.leaves) {
        let Ok(new) = stay_above(alloc, top, old, placed) else {
            return Err(PlanFault::Memory);
        };
        return Ok(new);
    }
    let Ok(()) = give_numbers(draft, hints, &old.inner) else {
        return Err(PlanFault::Memory);
    };
    if placed.children.is_empty() {
        return Ok(Rebuilt {
            top: 0,
            directory: Directory {
                inner: Vec::new(alloc),
                leaves: placed.children,
            },
            written: placed.written,
            upper: Vec::new(alloc),
        });
    }
    build_above(alloc, draft, hints, placed)
}

/// The directory after a batch, by what becomes of its leaves. Pages of leaves that don't stay are given back, and one is taken for each leaf
/// that is made anew. Where the leaves then are the ones that there were, by their numbers and first entries, the pages above them stay;
/// else these are given back, and others are taken. Nothing is read or written. It takes some twelve bytes a page of the directory, and
/// fifty for each that is given back or taken. Where a page that is given back is in memory, it answers Memory.
pub fn rebuild(
    alloc: Global,
    draft: &mut Draft,
    hints: &mut Hints,
    top: u32,
    old: &Directory,
    relisted: Relisted,
) -> Result<Rebuilt, PlanFault>
    requires { ListsFree draft.old.now hints.old.free.now }
    ensures before { draft.new.before ≡ draft.old.before }
    ensures kept { hints.new.free.before ≡ hints.old.free.before }
    ensures listed { OnOk result (ListsFree draft.new.now hints.new.free.now) }
    ensures done { (m : Content) → IsDone draft.old.now m → OnOk result (IsDone draft.new.now m) }
    ensures touches { OnOk result (length draft.new.touched ≤ length draft.old.touched + changes_noted old.now relisted) }
    ensures needs { (result ≡ Err PlanFault.Memory → ⊥) → NeedsPages draft.old.now draft.new.now (pages_taken relisted) }
    ensures rebuilt { IfOk result (IsRebuilt top old.now relisted.leaves.items) }
    ensures pages { AreAway draft.old (own_numbers old.now) → ArePagesOfLeaves old.now.leaves.items relisted.leaves.items relisted.gone.items
        → IfOk result (RebuildsIn draft.old draft.new old.now) }
    ensures too_many { result ≡ Err PlanFault.TooMany → 2147483645 ≤ length draft.new.now }
{
    let Relisted { leaves, gone } = relisted;
    let Ok(()) = give_numbers(draft, hints, &gone) else {
        return Err(PlanFault::Memory);
    };
    let placed = match take_leaves(alloc, draft, hints, leaves) {
        Ok(placed) => placed,
        Err(fault) => return Err(fault),
    };
    raise(alloc, draft, hints, top, old, placed)
}
