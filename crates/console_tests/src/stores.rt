//! A run over a store in memory that is stopped at each of its calls, or of whose calls of the disk one fails.
#![tactic(auto)]

use crate::runs::{AMPLE, arguments};
use ct_base::{Memory, Numbers};
use ct_site::{Faults, MemSite, Pick};
use db_console::run;
use std::alloc::Global;
use std::test::Fail;
use std::thread::Threads;

/// A table with an index and a row that waits.
const WAITING: &str = "CREATE TABLE docs (id NUMBER PRIMARY KEY, body CLOB, price NUMBER);
CREATE INDEX di ON docs(body) INDEXTYPE IS CTXSYS.CONTEXT;
INSERT INTO docs VALUES (1,'quick fox quick',0);
";

const SYNC: &str = "EXEC CTX_DDL.SYNC_INDEX('di');\n";

const DONE: &[u8] = b"PL/SQL procedure successfully completed.\n";

const QUICK: &str = "SELECT id, SCORE(1) FROM docs WHERE CONTAINS(body,'quick',1) > 0;\n";

const NOTHING_FOUND: &[u8] = b"no rows selected\n";

const FOUND: &[u8] = b"1|2\n";

/// Which calls fail: the call of the disk of this number, where it isn't 0, and every call after so many.
#[derive(Clone, Copy)]
struct Failing {
    disk: u64,
    stop: Option<u64>,
}

const NOTHING_FAILS: Failing = Failing {
    disk: 0,
    stop: None,
};

fn faults_of(alloc: Global, failing: Failing) -> Result<Faults, Memory> {
    let mut faults = Faults::none(alloc);
    faults.disk = Numbers::of(Vec::from_slice(alloc, &[failing.disk])?);
    faults.stop = failing.stop;
    Ok(faults)
}

/// A site with this script and this image, of which at most a million bytes are taken.
fn site_of(alloc: Global, script: &str, image: &[u8], failing: Failing) -> Result<MemSite, Memory> {
    let faults = faults_of(alloc, failing)?;
    let script = Vec::from_slice(alloc, script.as_bytes())?;
    let count = image.len().min(AMPLE.image);
    let image = Vec::from_slice(alloc, &image[..count])?;
    MemSite::new(alloc, script, image, faults, AMPLE)
}

/// The image of a store with a table, an index, and a row that waits.
fn waiting<R: Threads + Sync>(rt: &R, alloc: Global) -> Result<Vec<u8>, Memory> {
    let arguments = arguments(alloc)?;
    let mut site = site_of(alloc, WAITING, b"", NOTHING_FAILS)?;
    let _ = run(rt, alloc, &arguments, &mut site);
    Ok(Vec::from_slice(alloc, site.image())?)
}

/// Whether what was left is the state before the synchronisation or after it; and after it, where its reply was said.
fn is_either<R: Threads + Sync>(
    rt: &R,
    alloc: Global,
    left: &[u8],
    is_said: bool,
) -> Result<bool, Memory> {
    let arguments = arguments(alloc)?;
    let mut site = site_of(alloc, QUICK, left, NOTHING_FAILS)?;
    let status = run(rt, alloc, &arguments, &mut site);
    let is_before = !is_said && site.said() == NOTHING_FOUND;
    Ok(status == 0 && (is_before || site.said() == FOUND))
}

/// The status of a synchronisation, whether its reply was said, and what a crash then leaves.
fn crashed<R: Threads + Sync>(
    rt: &R,
    alloc: Global,
    image: &[u8],
    failing: Failing,
    pick: Pick,
) -> Result<(u8, bool, Vec<u8>), Memory> {
    let arguments = arguments(alloc)?;
    let mut site = site_of(alloc, SYNC, image, failing)?;
    let status = run(rt, alloc, &arguments, &mut site);
    let is_said = site.said() == DONE;
    let left = site.crash(alloc, pick)?;
    Ok((status, is_said, left))
}

/// The status of a synchronisation that stops after so many calls, and whether what each pick leaves is the state before or after it.
fn stopped<R: Threads + Sync>(
    rt: &R,
    alloc: Global,
    image: &[u8],
    stop: u64,
    pick: Pick,
) -> Result<(u8, bool), Memory> {
    let stop = Some(stop);
    let (status, is_said, left) = crashed(rt, alloc, image, Failing { disk: 0, stop }, pick)?;
    let is_well = is_either(rt, alloc, &left, is_said)?;
    Ok((status, is_well))
}

/// The first number of calls after which a stop leaves another state, if there is one below a hundred, and the last status. Each pick
/// has a test of its own, since the time of a test is limited.
fn bad_stop<R: Threads + Sync>(
    rt: &R,
    alloc: Global,
    pick: Pick,
) -> Result<(Option<u64>, u8), Memory> {
    let image = waiting(rt, alloc)?;
    let mut last = 255;
    for stop in 0..100 {
        let (status, is_well) = stopped(rt, alloc, &image, stop, pick)?;
        last = status;
        if !is_well {
            return Ok((Some(stop), last));
        }
    }
    Ok((None, last))
}

/// What such a test finds: no bad stop, and a status of 0, since a hundred calls are enough.
const NO_BAD_STOP: (Option<u64>, u8) = (None, 0);

#[test]
fn a_stop_at_each_call(rt: HostRuntime) -> Result<(), Fail> {
    assert!(rt; bad_stop(&rt, rt.alloc(), Pick::Old)? == NO_BAD_STOP);
    Ok(())
}

#[test]
fn a_stop_at_each_call_that_leaves_new_bytes(rt: HostRuntime) -> Result<(), Fail> {
    assert!(rt; bad_stop(&rt, rt.alloc(), Pick::New)? == NO_BAD_STOP);
    Ok(())
}

#[test]
fn a_stop_at_each_call_that_leaves_zeros(rt: HostRuntime) -> Result<(), Fail> {
    assert!(rt; bad_stop(&rt, rt.alloc(), Pick::Zeros)? == NO_BAD_STOP);
    Ok(())
}

#[test]
fn a_stop_at_each_call_that_leaves_ones(rt: HostRuntime) -> Result<(), Fail> {
    assert!(rt; bad_stop(&rt, rt.alloc(), Pick::Ones)? == NO_BAD_STOP);
    Ok(())
}

/// What is said, as far as it goes: nothing, the reply of the synchronisation, or something else.
#[derive(Clone, Copy, PartialEq, Eq)]
enum Said {
    Nothing,
    Done,
    Other,
}

fn said_of(said: &[u8]) -> Said {
    if said.is_empty() {
        Said::Nothing
    } else if said == DONE {
        Said::Done
    } else {
        Said::Other
    }
}

/// The status of a synchronisation of which this call of the disk fails, what it said, and the image that it leaves.
fn failed<R: Threads + Sync>(
    rt: &R,
    alloc: Global,
    image: &[u8],
    disk: u64,
) -> Result<(u8, Said, Vec<u8>), Memory> {
    let arguments = arguments(alloc)?;
    let mut site = site_of(alloc, SYNC, image, Failing { disk, stop: None })?;
    let status = run(rt, alloc, &arguments, &mut site);
    Ok((
        status,
        said_of(site.said()),
        Vec::from_slice(alloc, site.image())?,
    ))
}

/// Whether the run ends with 6 where this call of the disk fails; None where it isn't as it is to be: after 6 nothing was said, and the
/// state before the synchronisation or after it was left, and else it was done and said so.
fn is_told<R: Threads + Sync>(
    rt: &R,
    alloc: Global,
    image: &[u8],
    disk: u64,
) -> Result<Option<bool>, Memory> {
    let (status, said, left) = failed(rt, alloc, image, disk)?;
    let is_well = is_either(rt, alloc, &left, said == Said::Done)?;
    Ok(match (status, said) {
        (6, Said::Nothing) if is_well => Some(true),
        (0, Said::Done) => Some(false),
        _ => None,
    })
}

/// How many of the first calls of the disk end the run where they fail; None where one of these runs isn't as it is to be.
fn told_calls<R: Threads + Sync>(rt: &R, alloc: Global) -> Result<Option<u64>, Memory> {
    let image = waiting(rt, alloc)?;
    let mut told = 0u64;
    for disk in 1..60 {
        match is_told(rt, alloc, &image, disk)? {
            None => return Ok(None),
            Some(true) => told = told.saturating_add(1),
            Some(false) => {}
        }
    }
    Ok(Some(told))
}

#[test]
fn each_call_of_the_disk_fails(rt: HostRuntime) -> Result<(), Fail> {
    let told = told_calls(&rt, rt.alloc())?;
    assert!(rt; matches!(told, Some(11..=58)), "{told:?}");
    Ok(())
}
