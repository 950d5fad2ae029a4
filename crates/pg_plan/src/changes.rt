//! A batch over pages.

ghost use Rattle.std.specs.Prelude.{◌≡◌, ◌≤◌, Err, OnOk, length, map};
ghost use Rattle.ct_keep.specs.Content.{Content};
ghost use Rattle.ct_keep.specs.SeenChanges.{change_of};
ghost use Rattle.ct_keep.specs.Changes.{AnyEntry, AreWell};
ghost use Rattle.pg_map.specs.Done.{IsDone};
ghost use Rattle.pg_batch.specs.BatchPages.{put_pages};
ghost use Rattle.pg_plan.specs.Changes.{KeysApart, StandAt};
ghost use Rattle.pg_plan.specs.Drafts.{StaysAway};
ghost use Rattle.pg_plan.specs.FreePlaces.{ListsFree, NeedsPages};
ghost use Rattle.pg_plan.specs.PlanSteps.{MakesChanges};

use crate::drafts::Draft;
use crate::hints::Hints;
use crate::plans::PlanFault;
use crate::puts::do_change;
use ct_keep::Change;
use std::alloc::Global;

/// Makes the changes of a batch, in order, no two of them of one key. Beside each stands the place of the page that its key's old entry is
/// on, and any place, as one behind the last page, where it has none. Pages that aren't in memory stay so. It costs the pages that it
/// changes. After an error the draft and the list of free pages are to be rolled back.
pub fn do_changes(
    alloc: Global,
    draft: &mut Draft,
    hints: &mut Hints,
    places: &[usize],
    changes: &[Change],
) -> Result<(), PlanFault>
    requires well { AreWell AnyEntry (map change_of changes.now) }
    requires apart { KeysApart (map change_of changes.now) }
    requires beside { length places.now ≡ length changes.now }
    requires listed { ListsFree draft.old.now hints.old.free.now }
    ensures before { draft.new.before ≡ draft.old.before }
    ensures kept { hints.new.free.before ≡ hints.old.free.before }
    ensures listed { OnOk result (ListsFree draft.new.now hints.new.free.now) }
    ensures stays { OnOk result (StaysAway draft.old draft.new) }
    ensures done { (m : Content) → IsDone draft.old.now m → StandAt draft.old.now (map change_of changes.now) places.now
        → OnOk result (MakesChanges draft.old draft.new (map change_of changes.now) m) }
    ensures needs { NeedsPages draft.old.now draft.new.now (put_pages (map change_of changes.now)) }
    ensures too_many { result ≡ Err PlanFault.TooMany → 2147483645 ≤ length draft.new.now }
{
    for i in 0..changes.len() {
        let _ = do_change(alloc, draft, hints, places[i], &changes[i])?;
    }
    Ok(())
}
