//! A heap over a disk in memory: entries that come, change and go, in pages that are counted in the image.

use crate::stores::{Step, are_done, are_done_anew, has_top, homes_of, pages_of, site_of};
use ct_base::Memory;
use ct_site::MemSite;
use std::alloc::Global;
use std::test::Fail;

/// How many long pages there are, how many pages of the directory, and whether the root names one.
fn sheet_kinds(image: &[u8]) -> (usize, usize, bool) {
    (pages_of(image, 2), pages_of(image, 3), has_top(image))
}

/// Steps, how many long pages there are then, and whether there is a directory, of one page.
type Stage = (&'static [Step], usize, bool);

/// A value of each length. The greatest in the first form has 4,080 bytes, beside a key of one byte.
const FILLING: &[Step] = &[
    Step::Put(0, 0),
    Step::Put(1, 1),
    Step::Put(2, 4000),
    Step::Put(3, 4079),
    Step::Put(4, 4080),
    Step::Put(5, 4088),
    Step::Put(6, 4089),
    Step::Put(7, 9000),
];

const FILLED: &[Step] = &[
    Step::Has(0, 0),
    Step::Has(1, 1),
    Step::Has(2, 4000),
    Step::Has(3, 4079),
    Step::Has(4, 4080),
    Step::Has(5, 4088),
    Step::Has(6, 4089),
    Step::Has(7, 9000),
    Step::Lacks(8),
];

const EMPTYING: &[Step] = &[
    Step::Remove(0),
    Step::Remove(1),
    Step::Remove(2),
    Step::Remove(3),
    Step::Remove(4),
    Step::Remove(5),
    Step::Remove(6),
    Step::Remove(7),
    Step::Empty,
];

/// Stages over a store that is new at first, and how many home pages it has then: each page that is free is taken again.
type Case = (&'static [Stage], u8);

const CASES: &[Case] = &[
    // values of each length stand on four slotted pages, as one that is nearly full gets nothing, and on six long ones; a long one is
    // replaced by a short one
    (
        &[
            (FILLING, 6, true),
            (FILLED, 6, true),
            (&[Step::Put(7, 1), Step::Has(7, 1)], 3, true),
        ],
        14,
    ),
    // entries that go leave no long page, and the last one no directory; long pages are taken again
    (
        &[
            (FILLING, 6, true),
            (EMPTYING, 0, false),
            (&[Step::Put(9, 9000), Step::Has(9, 9000)], 3, true),
        ],
        14,
    ),
    // a value that grows from short to long, and back
    (
        &[
            (
                &[Step::Put(1, 10), Step::Put(2, 20), Step::Has(1, 10)],
                0,
                true,
            ),
            (
                &[Step::Put(1, 9000), Step::Has(1, 9000), Step::Has(2, 20)],
                3,
                true,
            ),
            (&[Step::Put(1, 4081), Step::Has(1, 4081)], 1, true),
            (
                &[Step::Put(1, 3), Step::Has(1, 3), Step::Has(2, 20)],
                0,
                true,
            ),
            (
                &[
                    Step::Remove(2),
                    Step::Has(1, 3),
                    Step::Remove(1),
                    Step::Empty,
                ],
                0,
                false,
            ),
        ],
        8,
    ),
    // values that are read before they change, and then: a page that is kept in memory is never an old one
    (
        &[
            (
                &[
                    Step::Put(1, 10),
                    Step::Has(1, 10),
                    Step::Put(1, 11),
                    Step::Has(1, 11),
                    Step::Put(2, 9000),
                    Step::Has(2, 9000),
                    Step::Put(2, 8999),
                    Step::Has(2, 8999),
                    Step::Put(1, 4090),
                    Step::Has(2, 8999),
                    Step::Has(1, 4090),
                    Step::Remove(1),
                    Step::Lacks(1),
                    Step::Put(3, 2),
                    Step::Lacks(1),
                    Step::Has(2, 8999),
                    Step::Has(3, 2),
                ],
                3,
                true,
            ),
            (
                &[Step::Lacks(1), Step::Has(2, 8999), Step::Has(3, 2)],
                3,
                true,
            ),
        ],
        10,
    ),
];

/// Whether a stage is as it is to be, where the heap is loaded once, or for each step.
fn is_stage(
    alloc: Global,
    site: &mut MemSite,
    stage: &Stage,
    is_anew: bool,
) -> Result<bool, Memory> {
    let (steps, long, is_named) = *stage;
    let are_done = if is_anew {
        are_done_anew(alloc, site, steps)?
    } else {
        are_done(alloc, site, steps)?
    };
    Ok(are_done && sheet_kinds(site.image()) == (long, is_named as usize, is_named))
}

/// The first stage that isn't as it is to be.
fn wrong_stage(
    alloc: Global,
    site: &mut MemSite,
    stages: &[Stage],
    is_anew: bool,
) -> Result<Option<usize>, Memory> {
    for (number, stage) in stages.iter().enumerate() {
        if !is_stage(alloc, site, stage, is_anew)? {
            return Ok(Some(number));
        }
    }
    Ok(None)
}

/// The same over a new store, and how many home pages it has then.
fn case_outcome(
    alloc: Global,
    stages: &[Stage],
    is_anew: bool,
) -> Result<(Option<usize>, u8), Memory> {
    let mut site = site_of(alloc, b"", 0)?;
    let wrong = wrong_stage(alloc, &mut site, stages, is_anew)?;
    Ok((wrong, homes_of(site.image())))
}

/// What is read from a page that is kept in memory is what was committed to it last.
#[test]
fn values_stand_on_pages(rt: HostRuntime) -> Result<(), Fail> {
    for (stages, homes) in CASES {
        let found = case_outcome(rt.alloc(), stages, false)?;
        assert!(rt; found == (None, *homes), "{found:?}");
    }
    Ok(())
}

#[test]
fn values_stand_on_pages_that_are_loaded_for_each_step(rt: HostRuntime) -> Result<(), Fail> {
    for (stages, homes) in CASES {
        let found = case_outcome(rt.alloc(), stages, true)?;
        assert!(rt; found == (None, *homes), "{found:?}");
    }
    Ok(())
}

/// What there is behind a put over a new store.
#[derive(Clone, Copy, PartialEq, Eq)]
enum After {
    /// It failed, and the store is as before.
    Old,
    /// It failed, and the value is there.
    New,
    Done,
    Other,
}

/// Whether a store of this image has nothing, and whether it has the value.
fn value_in(alloc: Global, image: &[u8]) -> Result<(bool, bool), Memory> {
    let mut site = site_of(alloc, image, 0)?;
    let is_old = are_done(alloc, &mut site, &[Step::Lacks(1), Step::Empty])?;
    Ok((is_old, are_done(alloc, &mut site, &[Step::Has(1, 5000)])?))
}

/// What there is where this call of the disk fails. The store is loaded again then.
fn after_failing(alloc: Global, call: u64) -> Result<After, Memory> {
    let mut site = site_of(alloc, b"", call)?;
    let is_put = are_done(alloc, &mut site, &[Step::Put(1, 5000)])?;
    Ok(match (is_put, value_in(alloc, site.image())?) {
        (false, (true, false)) => After::Old,
        (false, (false, true)) => After::New,
        (true, (false, true)) => After::Done,
        _ => After::Other,
    })
}

/// How often there is this, over the first hundred calls of the disk.
fn count_after(alloc: Global, wanted: After) -> Result<u32, Memory> {
    let mut count = 0u32;
    for call in 1..101 {
        if after_failing(alloc, call)? == wanted {
            count = count.saturating_add(1);
        }
    }
    Ok(count)
}

/// The load of an empty file calls the disk ten times, and the commit of five pages twenty times: eleven of these until the gate is written,
/// and nine from its sync on.
const AFTER: &[(After, u32)] = &[
    (After::Old, 21),
    (After::New, 9),
    (After::Done, 70),
    (After::Other, 0),
];

#[test]
fn a_commit_that_fails_leaves_the_old_map_or_the_new_one(rt: HostRuntime) -> Result<(), Fail> {
    for (after, count) in AFTER {
        assert_eq!(rt; count_after(rt.alloc(), *after)?, *count);
    }
    Ok(())
}
