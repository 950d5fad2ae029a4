//! A script that is generated, and run over an empty store in memory.

ghost use Rattle.std.specs.Prelude.{◌≡◌, ◌≤◌, false, IfOk};
ghost use Rattle.db_cond.specs.Faults.{out_of_memory, store_full};
ghost use Rattle.gen_script.specs.Hits.{hit_count};
ghost use Rattle.gen_script.specs.Occurring.{occurs};
ghost use Rattle.db_console.specs.Generating.{HasHits, IsGenerated};

use crate::running::{SCRIPT_LIMIT, serve};
use ct_base::Memory;
use ct_keep::MemKeeper;
use db_arguments::{DEFAULT_DEGREE, STORE_LIMIT};
use db_cond::{out_of_memory, store_full};
use gen_script::{hit_count, occurs, script, summary};
use std::alloc::Global;
use std::thread::Threads;

/// How many bytes the replies to the script for so many rows have at most: 256 for each row, and 4096.
fn said_room(rows: u32) -> usize {
    rows as usize * 256 + 4096
}

/// How many hits were said, where no statement was answered for want of memory or of room.
fn hits_in(said: &[u8]) -> Result<u64, Memory>
    ensures { IfOk result (λ hits. (hits ≡ hit_count said.now) × (occurs out_of_memory said.now ≡ false) × (occurs store_full said.now ≡ false)) }
{
    if occurs(said, out_of_memory()) || occurs(said, store_full()) {
        return Err(Memory);
    }
    Ok(hit_count(said))
}

/// How many hits the run of a script over an empty store in memory says. It takes the memory for that store, and for `room` bytes said.
fn hits_of<R: Threads + Sync>(
    rt: &R,
    alloc: Global,
    script: Vec<u8>,
    room: usize,
) -> Result<u64, Memory>
    ensures { IfOk result (HasHits script.items) }
{
    let mut keeper = MemKeeper::new(alloc, script, STORE_LIMIT, room)?;
    let status = serve(rt, alloc, DEFAULT_DEGREE, SCRIPT_LIMIT, &mut keeper);
    if status != 0 {
        return Err(Memory);
    }
    hits_in(keeper.said())
}

/// The script for so many rows, 1 to 100,000, and the line that sums up its run over an empty store in memory. It takes some 70 bytes
/// for each row, and twice that and the store for the run.
pub(crate) fn generate<R: Threads + Sync>(
    rt: &R,
    alloc: Global,
    rows: u32,
) -> Result<Vec<u8>, Memory>
    requires some { 1 ≤ rows }
    requires few { rows ≤ 100000 }
    ensures { IfOk result (λ bytes. IsGenerated rows bytes.items) }
{
    let mut bytes = script(alloc, rows)?;
    let copy = Vec::from_slice(alloc, &bytes)?;
    let hits = hits_of(rt, alloc, copy, said_room(rows))?;
    let line = summary(alloc, rows, hits)?;
    bytes.extend_from_slice(&line)?;
    Ok(bytes)
}
