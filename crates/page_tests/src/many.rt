//! A store of so many entries that its directory has several leaves.

ghost use Rattle.std.specs.Prelude.{IfOk, IsTrue};
ghost use Rattle.ct_keep.specs.Changes.{AnyEntry, AreWell};
ghost use Rattle.pg_heap.specs.Heaps.{IsDirected, IsReady};

use crate::stores::{add_change, heap_of, keys_in, pages_of, site_of};
use ct_base::Memory;
use ct_keep::Batch;
use ct_site::{Disk, MemSite};
use pg_heap::Heap;
use std::alloc::Global;
use std::test::Fail;

/// The keys from one number to before another get an empty value, or lose their entries.
#[derive(Clone, Copy)]
struct Changes {
    from: u16,
    to: u16,
    is_put: bool,
}

/// The key of a number below an owner.
fn key_of(number: u16) -> [u8; 5] {
    let [high, low] = number.to_be_bytes();
    [1, 1, b't', high, low]
}

fn batch_of(alloc: Global, changes: Changes) -> Result<Batch, Memory>
    ensures { IfOk result (AreWell AnyEntry) }
{
    let count = if changes.is_put { Some(0) } else { None };
    let mut batch = Batch::new(alloc);
    for number in changes.from..changes.to {
        add_change(alloc, &mut batch, &key_of(number), count)?;
    }
    Ok(batch)
}

/// The first and the last number of each run of keys, each of which has a blank behind it.
fn runs_of(alloc: Global, keys: &[u8]) -> Result<Vec<(u16, u16)>, Memory> {
    let mut runs = Vec::new(alloc);
    for key in keys.chunks(6) {
        if let [1, 1, b't', high, low, b' '] = key {
            add_number(&mut runs, u16::from_be_bytes([*high, *low]))?;
        }
    }
    Ok(runs)
}

fn add_number(runs: &mut Vec<(u16, u16)>, number: u16) -> Result<(), Memory> {
    if let Some((_, last)) = runs.last_mut() {
        if last.checked_add(1) == Some(number) {
            *last = number;
            return Ok(());
        }
    }
    runs.push((number, number))?;
    Ok(())
}

/// Changes, the runs of keys that there are then, how many keys these are, and how many pages the directory has.
struct Stage {
    changes: Changes,
    runs: &'static [(u16, u16)],
    count: u64,
    directory: usize,
}

/// A leaf has 681 entries at most, so 1500 of them stand on three leaves below a page. Where all entries of a leaf go, it goes.
const STAGES: &[Stage] = &[
    Stage {
        changes: Changes {
            from: 0,
            to: 1500,
            is_put: true,
        },
        runs: &[(0, 1499)],
        count: 1500,
        directory: 4,
    },
    Stage {
        changes: Changes {
            from: 1500,
            to: 1600,
            is_put: true,
        },
        runs: &[(0, 1599)],
        count: 1600,
        directory: 4,
    },
    Stage {
        changes: Changes {
            from: 100,
            to: 1400,
            is_put: false,
        },
        runs: &[(0, 99), (1400, 1599)],
        count: 300,
        directory: 3,
    },
    Stage {
        changes: Changes {
            from: 700,
            to: 800,
            is_put: true,
        },
        runs: &[(0, 99), (700, 799), (1400, 1599)],
        count: 400,
        directory: 3,
    },
    Stage {
        changes: Changes {
            from: 0,
            to: 1600,
            is_put: false,
        },
        runs: &[],
        count: 0,
        directory: 0,
    },
];

/// Whether there are the keys of a stage, each entry of which weighs 64 bytes.
fn are_there<D: Disk>(
    alloc: Global,
    disk: &mut D,
    heap: &mut Heap,
    stage: &Stage,
) -> Result<bool, Memory>
    requires ready { IsReady (D.disk disk.old) heap.old }
    requires directed { IsDirected heap.old }
    ensures ready { IsReady (D.disk disk.new) heap.new }
    ensures directed { IsDirected heap.new }
{
    let is_counted = heap.count(&[1, 1, b't']) == stage.count;
    let is_weighed = heap.weight() / 64 == stage.count;
    let keys = keys_in(alloc, disk, heap)?;
    let runs = runs_of(alloc, &keys)?;
    Ok(is_counted && is_weighed && runs.as_slice() == stage.runs)
}

/// Whether the changes of a stage were made, and its keys are there, in the same heap.
fn is_stage<D: Disk>(
    alloc: Global,
    disk: &mut D,
    heap: &mut Heap,
    stage: &Stage,
) -> Result<bool, Memory>
    requires ready { IsReady (D.disk disk.old) heap.old }
    requires directed { IsDirected heap.old }
    ensures ready { IfOk result (λ is. IsTrue is → IsReady (D.disk disk.new) heap.new) }
    ensures directed { IfOk result (λ is. IsTrue is → IsDirected heap.new) }
{
    let batch = batch_of(alloc, stage.changes)?;
    let Ok(()) = heap.apply(alloc, disk, batch) else {
        return Ok(false);
    };
    are_there(alloc, disk, heap, stage)
}

/// The first stage that isn't as it is to be, in one heap.
fn wrong_stage_in<D: Disk>(
    alloc: Global,
    disk: &mut D,
    heap: &mut Heap,
) -> Result<Option<usize>, Memory>
    requires ready { IsReady (D.disk disk.old) heap.old }
    requires directed { IsDirected heap.old }
{
    for (number, stage) in STAGES.iter().enumerate() {
        if !is_stage(alloc, disk, heap, stage)? {
            return Ok(Some(number));
        }
    }
    Ok(None)
}

fn wrong_stage(alloc: Global) -> Result<Option<usize>, Memory> {
    let mut site = site_of(alloc, b"", 0)?;
    match heap_of(alloc, &mut site) {
        Ok(mut heap) => wrong_stage_in(alloc, &mut site, &mut heap),
        Err(_) => Ok(Some(99)),
    }
}

#[test]
fn leaves_come_and_go(rt: HostRuntime) -> Result<(), Fail> {
    assert_eq!(rt; wrong_stage(rt.alloc())?, None);
    Ok(())
}

/// Whether a stage is as it is to be in a heap that is loaded for it.
fn is_stage_anew(alloc: Global, site: &mut MemSite, stage: &Stage) -> Result<bool, Memory> {
    match heap_of(alloc, site) {
        Ok(mut heap) => is_stage(alloc, site, &mut heap, stage),
        Err(_) => Ok(false),
    }
}

/// Whether its keys are there in another one.
fn are_there_anew(alloc: Global, site: &mut MemSite, stage: &Stage) -> Result<bool, Memory> {
    match heap_of(alloc, site) {
        Ok(mut heap) => are_there(alloc, site, &mut heap, stage),
        Err(_) => Ok(false),
    }
}

/// Whether both are so, and the directory has as many pages as it is to have.
fn is_kept(alloc: Global, site: &mut MemSite, stage: &Stage) -> Result<bool, Memory> {
    let is_stage = is_stage_anew(alloc, site, stage)?;
    let are_there = are_there_anew(alloc, site, stage)?;
    Ok(is_stage && are_there && pages_of(site.image(), 3) == stage.directory)
}

/// The first stage that isn't as it is to be, in heaps that are loaded for it.
fn wrong_stage_anew(alloc: Global) -> Result<Option<usize>, Memory> {
    let mut site = site_of(alloc, b"", 0)?;
    for (number, stage) in STAGES.iter().enumerate() {
        if !is_kept(alloc, &mut site, stage)? {
            return Ok(Some(number));
        }
    }
    Ok(None)
}

#[test]
fn leaves_come_and_go_in_heaps_that_are_loaded_for_it(rt: HostRuntime) -> Result<(), Fail> {
    assert_eq!(rt; wrong_stage_anew(rt.alloc())?, None);
    Ok(())
}
