//! Pages that a plan takes for the directory, and those that it gives back.

ghost use Rattle.std.specs.Prelude.{true, false, ◌≡◌, ◌≤◌, ◌+◌, [], IfOk, OnOk, Err, length, get_or};
ghost use Rattle.ct_keep.specs.Content.{Content};
ghost use Rattle.pg_map.specs.Done.{IsDone};
ghost use Rattle.pg_plan.specs.DirectoryPages.{IsPageGiven, IsPageTaken, OnlyBare};
ghost use Rattle.pg_plan.specs.Drafts.{StaysAway};
ghost use Rattle.pg_plan.specs.FreePlaces.{ListsFree, used_pages};
ghost use Rattle.pg_plan.specs.PlanSteps.{NoNewKey, TakesPages};
ghost use Rattle.pg_plan.specs.Touched.{TouchesOne};

use crate::drafts::Draft;
use crate::hints::Hints;
use crate::plans::{PlanFault, free_page};
use pg_window::Sheet;

/// Takes a free page, or adds one where none is free, and gives its place. To the plan it isn't in memory from then on. After an error the
/// draft and the list of free pages are to be rolled back.
pub fn take_page(draft: &mut Draft, hints: &mut Hints) -> Result<usize, PlanFault>
    requires { ListsFree draft.old.now hints.old.free.now }
    ensures before { draft.new.before ≡ draft.old.before }
    ensures kept { hints.new.free.before ≡ hints.old.free.before }
    ensures listed { OnOk result (ListsFree draft.new.now hints.new.free.now) }
    ensures taken { IfOk result (IsPageTaken draft.old draft.new) }
    ensures touched { IfOk result (TouchesOne draft.old.touched draft.new.touched) }
    ensures bound { IfOk result (λ at. at ≤ 2147483644) }
    ensures done { (m : Content) → IsDone draft.old.now m → OnOk result (IsDone draft.new.now m) }
    ensures takes { TakesPages draft.old draft.new 1 }
    ensures keys { OnOk result (NoNewKey draft.old.now draft.new.now) }
    ensures bare { OnOk result (OnlyBare draft.old.now draft.new.now) }
    ensures too_many { result ≡ Err PlanFault.TooMany → 2147483645 ≤ length draft.new.now }
{
    let at = free_page(draft, hints)?;
    draft.keep_shape();
    let Ok(()) = draft.put(at, Sheet::Away) else {
        return Err(PlanFault::Memory);
    };
    Ok(at)
}

/// Frees a page that isn't in memory. After an error the draft and the list of free pages are to be rolled back.
pub fn give_page(draft: &mut Draft, hints: &mut Hints, at: usize) -> Result<(), PlanFault>
    requires away { get_or draft.old.away at false ≡ true }
    requires listed { ListsFree draft.old.now hints.old.free.now }
    ensures before { draft.new.before ≡ draft.old.before }
    ensures kept { hints.new.free.before ≡ hints.old.free.before }
    ensures listed { OnOk result (ListsFree draft.new.now hints.new.free.now) }
    ensures given { OnOk result (IsPageGiven draft.old draft.new at) }
    ensures done { (m : Content) → IsDone draft.old.now m → OnOk result (IsDone draft.new.now m) }
    ensures used { used_pages draft.new.now ≤ used_pages draft.old.now }
    ensures keys { OnOk result (NoNewKey draft.old.now draft.new.now) }
    ensures bare { OnOk result (OnlyBare draft.old.now draft.new.now) }
    ensures too_many { result ≡ Err PlanFault.TooMany → ⊥ }
{
    draft.keep_shape();
    let Ok(()) = hints.free.add(at) else {
        return Err(PlanFault::Memory);
    };
    let Ok(()) = draft.set(at, Sheet::Free) else {
        return Err(PlanFault::Memory);
    };
    Ok(())
}
