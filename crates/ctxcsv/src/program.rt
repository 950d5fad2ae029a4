//! The work of the program, over any reader and writer.

ghost use Rattle.std.specs.Prelude.{◌≡◌, ◌⊎◌, ℕ, List, Err, None, IfErr, IfOk, IfSome, OnOk, map};
ghost use Rattle.std.specs.Io.KnownBytes.{Appends};
ghost use Rattle.std.specs.Option.{option_map};
ghost use Rattle.std.specs.Process.{exit_status};
ghost use Rattle.std.specs.String.{string_bytes};
ghost use Rattle.ctxcsv.specs.Arguments.{asks};
ghost use Rattle.csv_table.specs.declared.refusals.Refusal.TheVariants.{Memory as NoMemory};
ghost use Rattle.ctxcsv.specs.Program.{IsCauseOf, IsScriptFor, LeavesOutput, command, refusal_status, status, status_after};
ghost use Rattle.ctxcsv.specs.declared.program.Failure.TheVariants.{Arguments, Output, Refused, Input as InputFailed};

use crate::arguments::{Asked, parse};
use csv_table::{Refusal, script_of};
use std::alloc::Global;
use std::io::{ErrorKind, Read, Write};
use std::process::{ExitCode, Termination};
use std::rt::Env;
use std::{env, io};
use thiserror::Error;

/// Why there is no script, or not a whole one.
#[derive(Clone, Copy, Debug, Error)]
pub enum Failure {
    #[error("usage: ctxcsv TABLE [--key NAME] < CSV > SCRIPT")]
    Arguments,
    #[error("standard input failed")]
    Input,
    #[error("standard output failed, and the script isn't whole")]
    Output,
    #[error("{0}")]
    Refused(Refusal),
}

impl From<Refusal> for Failure {
    ghost from_gives = { λ refusal failure. failure ≡ Refused refusal };

    fn from(refusal: Refusal) -> Failure {
        Failure::Refused(refusal)
    }
}

fn refusal_status(refusal: Refusal) -> u8
    ensures { result ≡ refusal_status refusal }
{
    match refusal {
        Refusal::Memory => 5,
        Refusal::TableName => 10,
        Refusal::NoColumn => 11,
        Refusal::TooManyColumns { .. } => 12,
        Refusal::ColumnName { .. } => 13,
        Refusal::TwoColumns { .. } => 14,
        Refusal::UnknownKey => 15,
        Refusal::TooManyRows { .. } => 16,
        Refusal::FieldCount { .. } => 17,
        Refusal::NotUtf8 { .. } => 18,
        Refusal::TooLong { .. } => 19,
        Refusal::CutText { .. } => 20,
        Refusal::NoKey { .. } => 21,
        Refusal::KeyTwice { .. } => 22,
        Refusal::StatementTooLong { .. } => 23,
    }
}

/// The status of the program after a failure.
fn status(failure: Failure) -> u8
    ensures { result ≡ status failure }
{
    match failure {
        Failure::Arguments => 2,
        Failure::Input => 3,
        Failure::Output => 4,
        Failure::Refused(refusal) => refusal_status(refusal),
    }
}

/// All that the reader has left.
fn text_of<I: Read>(alloc: Global, input: &mut I) -> Result<Vec<u8>, Failure>
    ensures text { IfOk result (λ text. IfSome (I.remaining input.old) (λ bytes. text.items ≡ bytes)) }
    ensures cause { IfErr result (λ failure. (failure ≡ InputFailed) ⊎ (failure ≡ Refused NoMemory)) }
{
    let mut text = Vec::new(alloc);
    match input.read_to_end(&mut text) {
        Ok(_) => Ok(text),
        Err(error) if error.kind() == ErrorKind::OutOfMemory => {
            Err(Failure::Refused(Refusal::Memory))
        }
        Err(_) => Err(Failure::Input),
    }
}

/// The status of the program after this.
fn status_after(done: Result<(), Failure>) -> u8
    ensures { result ≡ status_after done }
{
    match done {
        Ok(()) => 0,
        Err(failure) => status(failure),
    }
}

/// How the program ended.
#[derive(Debug, Drop)]
pub struct Ended {
    done: Result<(), Failure>,
}

impl Termination for Ended {
    /// Tells on standard error why the program failed, and gives the status of the process.
    fn report<R: Eprint>(self, rt: &R) -> ExitCode
        ensures { exit_status result ≡ status_after self.done }
    {
        if let Err(failure) = &self.done {
            let _ = eprintln!(rt; "ctxcsv: {failure}");
        }
        ExitCode::from(status_after(self.done))
    }
}

fn write_all<O: Write>(script: &[u8], output: &mut O) -> Result<(), Failure>
    ensures appends { OnOk result (Appends (O.contents output.old) (O.contents output.new) script.now) }
    ensures cause { IfErr result (λ failure. failure ≡ Output) }
{
    match output.write_all(script) {
        Ok(()) => Ok(()),
        Err(_) => Err(Failure::Output),
    }
}

/// Writes the script that makes the table which is asked for of the CSV text that the reader has. The script is written in one
/// piece once it is whole: after a refusal nothing is written.
#[tactic(auto, using(crate::proofs::Converting::converted, crate::proofs::Converting::nothing_written, crate::proofs::Converting::output_failed, crate::proofs::Converting::not_read, crate::proofs::Converting::refused, crate::proofs::Converting::not_written))]
pub fn convert<I: Read, O: Write>(
    alloc: Global,
    asked: Asked<'_>,
    input: &mut I,
    output: &mut O,
) -> Result<(), Failure>
    ensures script { OnOk result (IfSome (I.remaining input.old) (λ text. (script : List ℕ) × IsScriptFor text (asks asked.entry) script
        × Appends (O.contents output.old) (O.contents output.new) script)) }
    ensures nothing { IfErr result (λ failure. LeavesOutput failure output.old output.new) }
    ensures cause { IfErr result (λ failure. IsCauseOf (I.remaining input.old) (asks asked.entry) failure) }
{
    let text = text_of(alloc, input)?;
    let script = script_of(alloc, text.as_slice(), asked.table, asked.key)?;
    write_all(script.as_slice(), output)?;
    Ok(())
}

/// Does what the words of the command ask for; `words` is None where they can't be had. Where they ask for nothing, input and output
/// are left as they are.
#[tactic(auto, using(crate::proofs::Converting::of_command, crate::proofs::Converting::none_asked))]
fn run_with<I: Read, O: Write>(
    alloc: Global,
    words: Option<&[String]>,
    input: &mut I,
    output: &mut O,
) -> Ended
    ensures refused { command (option_map (λ ws. map string_bytes ws.now) words.entry) ≡ None
        → (result.done ≡ Err Arguments) × (input.new ≡ input.old) × (output.new ≡ output.old) }
    ensures script { OnOk result.done (IfSome (command (option_map (λ ws. map string_bytes ws.now) words.entry)) (λ asks.
        IfSome (I.remaining input.old) (λ text. (script : List ℕ) × IsScriptFor text asks script
        × Appends (O.contents output.old) (O.contents output.new) script))) }
    ensures nothing { IfErr result.done (λ failure. LeavesOutput failure output.old output.new) }
    ensures cause { IfErr result.done (λ failure. IfSome (command (option_map (λ ws. map string_bytes ws.now) words.entry)) (λ asks.
        IsCauseOf (I.remaining input.old) asks failure)) }
{
    let Some(words) = words else {
        return Ended {
            done: Err(Failure::Arguments),
        };
    };
    let Some(asked) = parse(words) else {
        return Ended {
            done: Err(Failure::Arguments),
        };
    };
    Ended {
        done: convert(alloc, asked, input, output),
    }
}

fn arguments(rt: &(impl Env + AllocGlobal)) -> io::Result<Vec<String>> {
    let mut words = Vec::new(rt.alloc());
    let found = env::args(rt)?;
    for word in found.skip(1) {
        words.push(word)?;
    }
    Ok(words)
}

/// Reads standard input and writes standard output, by the arguments of the command.
pub fn work<R: Env + Input + Print + AllocGlobal>(rt: &R) -> Ended {
    let words = arguments(rt);
    let words = match &words {
        Ok(words) => Some(words.as_slice()),
        Err(_) => None,
    };
    run_with(rt.alloc(), words, &mut rt.reader(), &mut io::writer(rt))
}
