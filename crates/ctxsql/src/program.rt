//! The work of the program, over any runtime.

ghost use Rattle.std.specs.Prelude.{◌≡◌, ◌⊎◌, ℕ, IfErr, IfOk, IsOkAnd, IfNone, IfSome, map};
ghost use Rattle.std.specs.Process.{exit_status};
ghost use Rattle.std.specs.String.{string_bytes};
ghost use Rattle.std_io.specs.IoError.{error_kind};
ghost use Rattle.db_arguments.specs.Arguments.{AsksFor, AskForNoStore, AskForNothing};
ghost use Rattle.db_console.specs.Stores.{GeneratesBy, OfStore, RefusesBy, RunsBy, SiteFaultsBy, TellsUnless};
ghost use Rattle.ctxsql.specs.Program.{status_without};

use ct_site::Site;
use db_arguments::file_of;
use db_console::run;
use std::alloc::Global;
use std::fs::OpenOptions;
use std::io::ErrorKind;
use std::process::{ExitCode, Termination};
use std::rt::{Env, Files};
use std::thread::Threads;
use std::{env, io};

/// How the program ended. Only `work` makes one, so `main` can end with nothing else.
#[derive(Debug, Drop)]
pub struct Ended {
    status: u8,
}

impl Termination for Ended {
    /// The status of the process.
    fn report<R: Eprint>(self, _rt: &R) -> ExitCode
        ensures { exit_status result ≡ self.status }
    {
        ExitCode::from(self.status)
    }
}

/// Opens the root folder three times. Where a standard stream is closed, the first file that is opened takes its number. So it is one of
/// these, of which every read and write fails, and not the store, which would be read as the script, or be written over by the replies.
pub fn stand_ins<R: Files>(rt: &R) -> [Option<R::File>; 3] {
    let open = || OpenOptions::new().read(true).open(rt, "/").ok();
    [open(), open(), open()]
}

/// The arguments of the command.
pub fn arguments(rt: &(impl Env + AllocGlobal)) -> io::Result<Vec<String>> {
    let mut arguments = Vec::new(rt.alloc());
    for argument in env::args(rt)?.skip(1) {
        arguments.push(argument)?;
    }
    Ok(arguments)
}

/// What the program works by: the arguments of the command, and the FILE that they name, where they ask for a store.
#[derive(Clone, Copy)]
pub struct Prepared<'a> {
    arguments: &'a [String],
    file: Option<&'a str>,
}

/// The status where the arguments can't be had: 5 for want of memory, else 2.
fn status_without_arguments(error: &io::Error) -> u8
    ensures { result ≡ status_without (error_kind error.now) }
{
    if error.kind() == ErrorKind::OutOfMemory {
        5
    } else {
        2
    }
}

/// What the program works by, or the status where the arguments couldn't be had, or there was no memory to read them.
pub fn prepare<'a>(
    alloc: Global,
    arguments: &'a io::Result<Vec<String>>,
) -> Result<Prepared<'a>, u8>
    ensures had { IfOk result (λ prepared. IsOkAnd arguments.now (λ arguments. prepared.arguments.now ≡ arguments.items)) }
    ensures some { IfOk result (λ prepared. IfSome prepared.file (λ file. (limit : ℕ) × AsksFor (map string_bytes prepared.arguments.now) file.now limit)) }
    ensures none { IfOk result (λ prepared. IfNone prepared.file (AskForNoStore (map string_bytes prepared.arguments.now))) }
    ensures status { IfErr result (λ status. IfErr arguments.now (λ error. status ≡ status_without (error_kind error)) × IfOk arguments.now (λ _. status ≡ 5)) }
{
    match arguments {
        Ok(arguments) => match file_of(alloc, arguments) {
            Ok(file) => Ok(Prepared { arguments, file }),
            Err(_) => Err(5),
        },
        Err(error) => Err(status_without_arguments(error)),
    }
}

/// The FILE that the arguments name.
pub fn file<'a>(prepared: &Result<Prepared<'a>, u8>) -> Option<&'a str>
    ensures { IfOk prepared.now (λ p. result ≡ p.file) }
{
    match prepared {
        Ok(prepared) => prepared.file,
        Err(_) => None,
    }
}

/// Does the work of the program over a site, by the arguments of the command, and gives its status.
fn run_with<R: Threads + Sync, S: Site>(
    rt: &R,
    alloc: Global,
    prepared: &Result<Prepared<'_>, u8>,
    site: &mut S,
) -> u8
    // no arguments, or no memory to read them
    ensures without { IfErr prepared.now (λ status. (result ≡ status) × (site.new ≡ site.old)) }
    // the arguments
    ensures form { IfOk prepared.now (λ p. result ≡ 2 → AskForNothing (map string_bytes p.arguments.now)) }
    ensures refused { IfOk prepared.now (λ p. AskForNothing (map string_bytes p.arguments.now) → (result ≡ 2) ⊎ (result ≡ 5)) }
    ensures no_call { result ≡ 2 → IfOk prepared.now (λ _. site.new ≡ site.old) }

    // the table of statuses, from the state that the store stands for; and a file that is no store is refused
    ensures table { IfOk prepared.now (λ p. RunsBy (map string_bytes p.arguments.now) (S.disk site.old) (S.disk site.new) result) }
    ensures foreign { IfOk prepared.now (λ p. RefusesBy (map string_bytes p.arguments.now) (S.disk site.old) (S.disk site.new) result) }
    ensures stores { IfOk prepared.now (λ p. OfStore (map string_bytes p.arguments.now) (TellsUnless (site.new ≡ site.old) (S.disk site.old) result)) }

    // a script that is generated
    ensures script { IfOk prepared.now (λ p. GeneratesBy (map string_bytes p.arguments.now) (S.disk site.old) (S.disk site.new) result) }

    // causes
    ensures faults { IfOk prepared.now (λ _. SiteFaultsBy result (S.disk site.old) (S.disk site.new)) }
    ensures unheard { IfOk prepared.now (λ _. (result ≡ 5) ⊎ (result ≡ 7) → (S.disk site.new).beside ≡ (S.disk site.old).beside) }
{
    match prepared {
        Ok(prepared) => run(rt, alloc, prepared.arguments, site),
        Err(status) => *status,
    }
}

/// Does the work of the program over a site, by the arguments of the command.
pub fn work<R: Threads + Sync + AllocGlobal, S: Site>(
    rt: &R,
    prepared: &Result<Prepared<'_>, u8>,
    site: &mut S,
) -> Ended
    // no arguments, or no memory to read them
    ensures without { IfErr prepared.now (λ status. (result.status ≡ status) × (site.new ≡ site.old)) }
    // the arguments
    ensures form { IfOk prepared.now (λ p. result.status ≡ 2 → AskForNothing (map string_bytes p.arguments.now)) }
    ensures refused { IfOk prepared.now (λ p. AskForNothing (map string_bytes p.arguments.now) → (result.status ≡ 2) ⊎ (result.status ≡ 5)) }
    ensures no_call { result.status ≡ 2 → IfOk prepared.now (λ _. site.new ≡ site.old) }

    // the table of statuses, from the state that the store stands for; and a file that is no store is refused
    ensures table { IfOk prepared.now (λ p. RunsBy (map string_bytes p.arguments.now) (S.disk site.old) (S.disk site.new) result.status) }
    ensures foreign { IfOk prepared.now (λ p. RefusesBy (map string_bytes p.arguments.now) (S.disk site.old) (S.disk site.new) result.status) }
    ensures stores { IfOk prepared.now (λ p. OfStore (map string_bytes p.arguments.now) (TellsUnless (site.new ≡ site.old) (S.disk site.old) result.status)) }

    // a script that is generated
    ensures script { IfOk prepared.now (λ p. GeneratesBy (map string_bytes p.arguments.now) (S.disk site.old) (S.disk site.new) result.status) }

    // causes
    ensures faults { IfOk prepared.now (λ _. SiteFaultsBy result.status (S.disk site.old) (S.disk site.new)) }
    ensures unheard { IfOk prepared.now (λ _. (result.status ≡ 5) ⊎ (result.status ≡ 7) → (S.disk site.new).beside ≡ (S.disk site.old).beside) }
{
    let status = run_with(rt, rt.alloc(), prepared, site);
    Ended { status }
}
