//! A whole run.

ghost use Rattle.std.specs.Prelude.{◌≡◌, ◌≤◌, ◌⊎◌, map};
ghost use Rattle.std.specs.String.{string_bytes};
ghost use Rattle.db_state.specs.Shapes.{AcceptsStatements, IsStoreEntry};
ghost use Rattle.pg_keeper.specs.Paged.{IsUsable, told_content};
ghost use Rattle.db_arguments.specs.Arguments.{AskForNothing};
ghost use Rattle.db_console.specs.Views.{DiskRose};
ghost use Rattle.db_console.specs.Generating.{Generates};
ghost use Rattle.db_console.specs.Limits.{script_limit, statement_limit};
ghost use Rattle.db_console.specs.Stores.{CompletesRun, FailsToLoad, GeneratesBy, OfScript, OfStore, OverForeign, OverStores, RanOver, RefusesBy, RunsBy, ServesHeap, SiteFaultsBy, TellsBy, TellsUnless, status_of_load};
ghost use Rattle.db_console.specs.Table.{Completes, FaultsBy, ServedWith, TellsPast};

use crate::generating::generate;
use crate::saying::say_to;
use crate::serving::serve_script;
use ct_keep::Keeper;
use ct_site::Site;
use db_arguments::{Asked, read_arguments};
use db_engine::StoreShape;
use pg_heap::Heap;
use pg_journal::LoadFault;
use pg_keeper::{PagedKeeper, load_heap};
use std::alloc::Global;
use std::thread::Threads;

/// How many bytes a statement has at most, without its `;`.
pub const STATEMENT_LIMIT: usize = 65_536;

/// How many bytes a script has at most.
pub const SCRIPT_LIMIT: u64 = 1 << 40;

/// The status where the arguments of the command are of none of its forms.
const NOT_OF_THE_FORM: u8 = 2;

/// The status where standard output failed.
const NOT_SAID: u8 = 4;

/// The status where there was no memory.
const NO_MEMORY: u8 = 5;

/// Serves a script of at most `most` bytes over a keeper, and gives the status (docs/ERRORS.md). At most `degree` threads are at
/// work on a statement. After the status 6 the keeper may only hear and say. Its cost is that of the statements.
pub fn serve<R: Threads + Sync, K: Keeper>(
    rt: &R,
    alloc: Global,
    degree: u32,
    most: u64,
    keeper: &mut K,
) -> u8
    requires { AcceptsStatements (K.view keeper.old) }

    // the table of statuses, with the moments of a crash, and with a bound on what searches look up
    ensures table { ServedWith statement_limit most (K.view keeper.old) (K.view keeper.new) result }

    // causes
    ensures faults { FaultsBy result (K.view keeper.old) (K.view keeper.new) }
    ensures memory { result ≡ 5 → keeper.new ≡ keeper.old }
    ensures past { TellsPast most result (K.view keeper.old).beside (K.view keeper.new).beside }
    ensures complete { Completes most result (K.view keeper.old).beside (K.view keeper.new).beside (¬ DiskRose (K.view keeper.old) (K.view keeper.new)) }
{
    serve_script(rt, alloc, degree, STATEMENT_LIMIT, most, keeper).status()
}

/// The status where the store couldn't be loaded.
fn status_of_load(fault: LoadFault) -> u8
    ensures { result ≡ status_of_load fault }
{
    match fault {
        LoadFault::Memory => 5,
        LoadFault::Disk => 6,
        LoadFault::NotAStore => 7,
    }
}

/// Serves the script of a site over the heap of its disk. At most `degree` threads are at work on a statement.
fn serve_heap<R: Threads + Sync, S: Site>(
    rt: &R,
    alloc: Global,
    degree: u32,
    limit: u64,
    heap: Heap,
    site: &mut S,
) -> u8
    requires { IsUsable (S.disk site.old) heap IsStoreEntry }
    ensures table { ServesHeap limit 0 (told_content (S.disk site.old).image) (S.disk site.old) (S.disk site.new) result }
    ensures faults { SiteFaultsBy result (S.disk site.old) (S.disk site.new) }
    ensures memory { result ≡ 5 → (S.disk site.new).beside ≡ (S.disk site.old).beside }
    ensures past { TellsPast script_limit result (S.disk site.old).beside (S.disk site.new).beside }
    ensures complete { CompletesRun result (S.disk site.old) (S.disk site.new) }
{
    let mut keeper = PagedKeeper::over(site, heap, StoreShape, limit);
    let status = serve(rt, alloc, degree, SCRIPT_LIMIT, &mut keeper);
    let _site = keeper.finish();
    status
}

/// Serves the script of a site over the store that its disk has; where it has none yet, over a new one.
fn serve_store<R: Threads + Sync, S: Site>(
    rt: &R,
    alloc: Global,
    degree: u32,
    limit: u64,
    site: &mut S,
) -> u8
    ensures table { OverStores (S.disk site.old) (λ image m. RanOver limit image m (S.disk site.old) (S.disk site.new) result) }
    ensures foreign { OverForeign (S.disk site.old) (λ image. FailsToLoad image (S.disk site.old) (S.disk site.new) result) }
    ensures stores { TellsBy (S.disk site.old) result }
    ensures loaded { result ≡ 2 → ⊥ }
    ensures faults { SiteFaultsBy result (S.disk site.old) (S.disk site.new) }
    ensures unheard { (result ≡ 5) ⊎ (result ≡ 7) → (S.disk site.new).beside ≡ (S.disk site.old).beside }
    ensures past { TellsPast script_limit result (S.disk site.old).beside (S.disk site.new).beside }
    ensures complete { OverStores (S.disk site.old) (λ image m. CompletesRun result (S.disk site.old) (S.disk site.new)) }
{
    let heap = match load_heap(alloc, site, &StoreShape) {
        Ok(heap) => heap,
        Err(fault) => return status_of_load(fault),
    };
    serve_heap(rt, alloc, degree, limit, heap, site)
}

/// Says the script for so many rows, which is run over an empty store in memory, and the line that sums up that run. All memory is taken
/// before the first byte is said.
fn say_generated<R: Threads + Sync, S: Site>(rt: &R, alloc: Global, rows: u32, site: &mut S) -> u8
    requires some { 1 ≤ rows }
    requires few { rows ≤ 100000 }
    ensures script { Generates rows result (S.disk site.old) (S.disk site.new) }
    ensures unsaid { result ≡ 5 → site.new ≡ site.old }
{
    let Ok(bytes) = generate(rt, alloc, rows) else {
        return NO_MEMORY;
    };
    match say_to(site, &bytes) {
        Ok(()) => 0,
        Err(_) => NOT_SAID,
    }
}

/// Runs the script that the site gives over the store that its disk has, or a script that is generated, and gives the status of the program
/// (docs/ERRORS.md). The arguments of the command tell which of these, how much the content of the store may weigh, and how many threads
/// may be at work on a statement; the site has the disk of the FILE that they name. Over a store its first call is a sync of that disk; of
/// a generated script it says the bytes alone. Its cost is that of reading the store and of the statements.
pub fn run<R: Threads + Sync, S: Site>(
    rt: &R,
    alloc: Global,
    arguments: &[String],
    site: &mut S,
) -> u8

    // arguments
    ensures form { result ≡ 2 → AskForNothing (map string_bytes arguments.now) }
    ensures refused { AskForNothing (map string_bytes arguments.now) → (result ≡ 2) ⊎ (result ≡ 5) }
    ensures no_call { result ≡ 2 → site.new ≡ site.old }

    // the table of statuses, from the state that the store stands for
    ensures table { RunsBy (map string_bytes arguments.now) (S.disk site.old) (S.disk site.new) result }
    // a file that is no store is refused
    ensures foreign { RefusesBy (map string_bytes arguments.now) (S.disk site.old) (S.disk site.new) result }
    // what the status tells of the file, unless there was no memory for the arguments
    ensures stores { OfStore (map string_bytes arguments.now) (TellsUnless (site.new ≡ site.old) (S.disk site.old) result) }

    // a script that is generated
    ensures script { GeneratesBy (map string_bytes arguments.now) (S.disk site.old) (S.disk site.new) result }
    ensures unsaid { OfScript (map string_bytes arguments.now) (λ rows. result ≡ 5 → site.new ≡ site.old) }

    // causes
    ensures faults { SiteFaultsBy result (S.disk site.old) (S.disk site.new) }
    ensures unheard { (result ≡ 5) ⊎ (result ≡ 7) → (S.disk site.new).beside ≡ (S.disk site.old).beside }
    ensures past { (result ≡ 2 → ⊥) → TellsPast script_limit result (S.disk site.old).beside (S.disk site.new).beside }
    ensures complete { (result ≡ 2 → ⊥) → OverStores (S.disk site.old) (λ image m. CompletesRun result (S.disk site.old) (S.disk site.new)) }
{
    let Ok(read) = read_arguments(alloc, arguments) else {
        return NO_MEMORY;
    };
    let Some(asked) = read else {
        return NOT_OF_THE_FORM;
    };
    match asked {
        Asked::Over(store) => serve_store(rt, alloc, store.degree, store.limit, site),
        Asked::Rows(rows) => say_generated(rt, alloc, rows, site),
    }
}
