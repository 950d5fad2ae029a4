//! A keeper in memory that remembers its commits, and scripts that are served over it: what there is at each moment, and what
//! was said by then.

ghost use Rattle.std.specs.Prelude.{◌≡◌, ◌++◌, ◌∷◌, [], ◌<◌, IfOk, OnOk, vec_len};
ghost use Rattle.std.specs.Vec.{vec_capacity};
ghost use Rattle.ct_keep.specs.SeenChanges.{change_of};
ghost use Rattle.console_tests.specs.Histories.{Remembers, history_view, holds_history, now_past, past_now, settled_history, stays_held};

use ct_base::Memory;
use ct_keep::{Batch, Change, KeepFault, Keeper, MemKeeper};
use ct_site::Failed;
use db_console::serve;
use std::alloc::Global;
use std::test::Fail;
use std::thread::Threads;

/// A keeper in memory that remembers its commits, each with how many bytes had been said by then.
#[derive(Debug, Drop)]
struct HistoryKeeper {
    keeper: MemKeeper,
    commits: u64,
    log: Vec<(Batch, usize)>,
}

impl HistoryKeeper {
    /// An empty keeper, as `MemKeeper::new` makes it.
    fn new(
        alloc: Global,
        script: Vec<u8>,
        limit: u64,
        said_room: usize,
    ) -> Result<HistoryKeeper, Memory>
        ensures { IfOk result (λ k. Remembers k.keeper k.log.items) }
    {
        let keeper = MemKeeper::new(alloc, script, limit, said_room)?;
        Ok(HistoryKeeper {
            keeper,
            commits: 0,
            log: Vec::new(alloc),
        })
    }
}

/// Adds a copy of a change to a batch.
fn add_change(alloc: Global, batch: &mut Batch, change: &Change) -> Result<(), Memory>
    ensures { OnOk result (batch.new ≡ batch.old ++ change_of change.now ∷ []) }
{
    let key = Vec::from_slice(alloc, &change.key)?;
    match &change.value {
        Some(value) => batch.put(key, Vec::from_slice(alloc, value)?),
        None => batch.remove(key),
    }
}

/// A copy of a batch.
fn copy_of(alloc: Global, batch: &Batch) -> Result<Batch, Memory>
    ensures { IfOk result (λ copy. copy ≡ batch.now) }
{
    let mut copy = Batch::new(alloc);
    for change in batch.changes() {
        add_change(alloc, &mut copy, change)?;
    }
    Ok(copy)
}

/// A copy of a batch, for which the log has room.
fn copy_for(alloc: Global, log: &mut Vec<(Batch, usize)>, batch: &Batch) -> Result<Batch, Memory>
    ensures copy { IfOk result (λ copy. copy ≡ batch.now) }
    ensures log { log.new.items ≡ log.old.items }
    ensures room { OnOk result (vec_len log.new < vec_capacity log.new) }
{
    log.reserve(1)?;
    copy_of(alloc, batch)
}

impl Keeper for HistoryKeeper {
    ghost view = { λ k. history_view k.keeper k.commits k.log.items };

    fn fetch(&mut self, alloc: Global, key: &[u8]) -> Result<Option<Vec<u8>>, KeepFault> {
        self.keeper.fetch(alloc, key)
    }

    fn next_after(
        &mut self,
        alloc: Global,
        key: &[u8],
    ) -> Result<Option<(Vec<u8>, Vec<u8>)>, KeepFault> {
        self.keeper.next_after(alloc, key)
    }

    fn count(&self, owner: &[u8]) -> u64 {
        self.keeper.count(owner)
    }

    fn commit(&mut self, alloc: Global, batch: Batch) -> Result<(), KeepFault> {
        self.commits = self.commits.saturating_add(1);
        let changes = copy_for(alloc, &mut self.log, &batch)?;
        self.keeper.commit(alloc, batch)?;
        let by_then = self.keeper.said().len();
        self.log.push_reserved((changes, by_then));
        Ok(())
    }

    fn hear(&mut self, into: &mut [u8]) -> Result<usize, Failed> {
        self.keeper.hear(into)
    }

    fn say(&mut self, bytes: &[u8]) -> Result<usize, Failed> {
        self.keeper.say(bytes)
    }

    ghost settled = { λ k ready. settled_history k.keeper k.commits k.log.items };

    ghost holds = { λ k ready m is. holds_history k.keeper k.log.items ready m is };

    ghost counts_now = { λ k t left said le now. now_past k.keeper k.log.items t left said le now };

    ghost may_stay = { λ k ready m said is told. stays_held k.keeper k.log.items ready m said is told };

    ghost only_now = { λ k left said now. past_now k.keeper k.log.items left said now };
}

/// Whether there is an entry of a key after these commits.
fn has_key(log: &[(Batch, usize)], key: &[u8]) -> bool {
    let mut has = false;
    for (batch, _) in log {
        for change in batch.changes() {
            if change.key.as_slice() == key {
                has = change.value.is_some();
            }
        }
    }
    has
}

/// Adds a line that says which tables there are after these commits, of one letter each, and what was said by then.
fn add_moment(
    moments: &mut Vec<u8>,
    tables: &str,
    log: &[(Batch, usize)],
    said: &[u8],
) -> Result<(), Memory> {
    for table in tables.bytes() {
        if has_key(log, &[1, 1, table]) {
            moments.push(table)?;
        }
    }
    moments.push(b':')?;
    moments.extend_from_slice(said)?;
    moments.push(b'\n')?;
    Ok(())
}

/// For each number of commits the last moment at which there were so many: which tables there are, and all that was said by then.
fn last_moments(alloc: Global, keeper: &HistoryKeeper, tables: &str) -> Result<Vec<u8>, Memory> {
    let log = keeper.log.as_slice();
    let said = keeper.keeper.said();
    let mut moments = Vec::new(alloc);
    for (count, (_, by_then)) in log.iter().enumerate() {
        let count_said = (*by_then).min(said.len());
        add_moment(&mut moments, tables, &log[..count], &said[..count_said])?;
    }
    add_moment(&mut moments, tables, log, said)?;
    Ok(moments)
}

/// The status of serving a script over an empty keeper that remembers, and its last moments.
fn remembered<R: Threads + Sync>(
    rt: &R,
    alloc: Global,
    script: &str,
    limit: u64,
    said_room: usize,
) -> Result<(u8, Vec<u8>), Memory> {
    let script = Vec::from_slice(alloc, script.as_bytes())?;
    let mut keeper = HistoryKeeper::new(alloc, script, limit, said_room)?;
    let status = serve(rt, alloc, 1, 1000, &mut keeper);
    Ok((status, last_moments(alloc, &keeper, "abc")?))
}

const TABLES: &str = "CREATE TABLE a (id NUMBER PRIMARY KEY);
SELEC;
CREATE TABLE b (id NUMBER PRIMARY KEY);
CREATE TABLE a (id NUMBER PRIMARY KEY);
CREATE TABLE c (id NUMBER PRIMARY KEY);
";

/// How much the content may weigh, how many bytes may be said, the status, and the last moments.
type Moments = (u64, usize, u8, &'static str);

const MOMENTS: &[Moments] = &[
    // each table is there before it is said so, and nothing of that was said when it wasn't there
    (
        4096,
        200,
        0,
        ":
a:Table created.
E10: statement not understood

ab:Table created.
E10: statement not understood
Table created.
E12: a exists already

abc:Table created.
E10: statement not understood
Table created.
E12: a exists already
Table created.

",
    ),
    // a store that is full after two tables makes no third commit
    (
        128,
        200,
        0,
        ":
a:Table created.
E10: statement not understood

ab:Table created.
E10: statement not understood
Table created.
E12: a exists already
E80: store full

",
    ),
    // where the second table can't be said to be there, it is there
    (
        4096,
        50,
        4,
        ":
a:Table created.
E10: statement not understood

ab:Table created.
E10: statement not understood

",
    ),
];

/// Whether serving the script ends with the status of a row, and with its moments.
fn is_remembered<R: Threads + Sync>(rt: &R, alloc: Global, row: &Moments) -> Result<bool, Memory> {
    let (limit, said_room, status, moments) = *row;
    let (ended, found) = remembered(rt, alloc, TABLES, limit, said_room)?;
    Ok(ended == status && found.as_slice() == moments.as_bytes())
}

#[test]
fn no_reply_is_said_before_its_commit(rt: HostRuntime) -> Result<(), Fail> {
    for row in MOMENTS {
        assert!(rt; is_remembered(&rt, rt.alloc(), row)?, "{} {}", row.0, row.1);
    }
    Ok(())
}
