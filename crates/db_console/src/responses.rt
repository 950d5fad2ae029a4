//! What is said to a piece of a script.

ghost use Rattle.std.specs.Prelude.{◌≡◌, IfOk, OnErr};
ghost use Rattle.std.specs.Str.{chars};
ghost use Rattle.ct_keep.specs.KeeperViews.{AtMostOneCommit, SameButContent};
ghost use Rattle.st_parse.specs.Grammar.{Found, read};
ghost use Rattle.db_state.specs.Shapes.{AcceptsStatements};
ghost use Rattle.db_state.specs.States.{StoreState};
ghost use Rattle.db_state.specs.Effects.{reply_by};
ghost use Rattle.db_engine.specs.Steps.{rest_step};
ghost use Rattle.db_engine.specs.Executing.{fault_of_stop};
ghost use Rattle.db_console.specs.Looking.{ReadLooks};
ghost use Rattle.db_console.specs.Views.{HaltsInText, LooksForText, OverTexts, RepliesToText};
ghost use Rattle.db_console.specs.Responses.{response_bytes, response_to, response_to_unread, IsTextOf, RespondsToRead};

use ct_base::Bytes;
use ct_keep::Keeper;
use db_cond::{not_understood, out_of_memory, statement_too_long, store_full};
use db_engine::{Reply, Stop, execute};
use st_parse::{Statement, StatementFault, is_blank, parse};
use std::alloc::Global;
use std::str::from_utf8;
use std::thread::Threads;

/// What is said to a piece of a script.
#[derive(Drop)]
pub enum Response {
    /// Nothing, as to a blank rest.
    Nothing,
    /// The lines of a reply.
    Lines(Bytes),
    /// E10.
    NotUnderstood,
    /// E19.
    TooLong,
    /// E80.
    Full,
    /// E90.
    NoMemory,
}

impl Response {
    /// The bytes that are said.
    pub fn bytes(&self) -> &[u8]
        ensures { result.now ≡ response_bytes self.now }
    {
        match self {
            Response::Nothing => b"",
            Response::Lines(lines) => lines.as_slice(),
            Response::NotUnderstood => not_understood(),
            Response::TooLong => statement_too_long(),
            Response::Full => store_full(),
            Response::NoMemory => out_of_memory(),
        }
    }
}

/// The bytes as a text, where they are one.
fn text_of(bytes: &[u8]) -> Option<&str>
    ensures { IsTextOf result bytes.now }
{
    from_utf8(bytes).ok()
}

/// The response to what executing a statement answered.
fn response_to(reply: Reply) -> Response
    ensures { result ≡ response_to reply }
{
    match reply {
        Reply::Text(lines) => Response::Lines(lines),
        Reply::Full => Response::Full,
        Reply::NoMemory => Response::NoMemory,
    }
}

/// The response to a text that isn't read as a statement.
fn response_to_unread(fault: StatementFault) -> Response
    ensures { result ≡ response_to_unread fault }
{
    match fault {
        StatementFault::Syntax => Response::NotUnderstood,
        StatementFault::Memory => Response::NoMemory,
    }
}

/// The response to a statement, which is executed first.
fn respond_to_statement<R: Threads + Sync, K: Keeper>(
    rt: &R,
    alloc: Global,
    degree: u32,
    keeper: &mut K,
    statement: &Statement,
) -> Result<Response, Stop>
    requires { AcceptsStatements (K.view keeper.old) }
    ensures kept { SameButContent (K.view keeper.old) (K.view keeper.new) (fault_of_stop result) }
    ensures once { AtMostOneCommit (K.view keeper.old) (K.view keeper.new) }
    ensures responds { RespondsToRead (Found statement.now) (K.view keeper.old) (K.view keeper.new) result }
    ensures looks { ReadLooks (Found statement.now) (K.view keeper.old) (K.view keeper.new) (fault_of_stop result) }
{
    match execute(rt, alloc, degree, keeper, statement) {
        Ok(reply) => Ok(response_to(reply)),
        Err(stop) => Err(stop),
    }
}

/// The response to a text that isn't too long: where it is a statement, that is executed first.
fn respond_to_text<R: Threads + Sync, K: Keeper>(
    rt: &R,
    alloc: Global,
    degree: u32,
    keeper: &mut K,
    text: &str,
) -> Result<Response, Stop>
    requires { AcceptsStatements (K.view keeper.old) }
    ensures kept { SameButContent (K.view keeper.old) (K.view keeper.new) (fault_of_stop result) }
    ensures once { AtMostOneCommit (K.view keeper.old) (K.view keeper.new) }
    ensures responds { RespondsToRead (read (chars text.now)) (K.view keeper.old) (K.view keeper.new) result }
    ensures looks { ReadLooks (read (chars text.now)) (K.view keeper.old) (K.view keeper.new) (fault_of_stop result) }
{
    match parse(alloc, text) {
        Ok(Some(statement)) => respond_to_statement(rt, alloc, degree, keeper, &statement),
        Ok(None) => Ok(Response::Nothing),
        Err(fault) => Ok(response_to_unread(fault)),
    }
}

/// The response to a statement, which is given where it isn't too long, and then executed.
pub fn respond<R: Threads + Sync, K: Keeper>(
    rt: &R,
    alloc: Global,
    degree: u32,
    keeper: &mut K,
    text: Option<&[u8]>,
) -> Result<Response, Stop>
    requires { AcceptsStatements (K.view keeper.old) }
    ensures kept { SameButContent (K.view keeper.old) (K.view keeper.new) (fault_of_stop result) }
    ensures once { AtMostOneCommit (K.view keeper.old) (K.view keeper.new) }
    ensures replied { IfOk result (λ response. RepliesToText text.entry (response_bytes response) (K.view keeper.old) (K.view keeper.new)) }
    ensures halted { OnErr result (HaltsInText text.entry (K.view keeper.old) (K.view keeper.new)) }
    ensures looks { LooksForText text.entry (K.view keeper.old) (K.view keeper.new) (fault_of_stop result) }
{
    let Some(bytes) = text else {
        return Ok(Response::TooLong);
    };
    let Some(text) = text_of(bytes) else {
        return Ok(Response::NotUnderstood);
    };
    respond_to_text(rt, alloc, degree, keeper, text)
}

/// The response to the rest of a script, which is given where it isn't too long. It takes no memory, and executes nothing.
pub fn respond_to_rest(text: Option<&[u8]>) -> Response
    ensures { OverTexts text.entry (λ limit rest. (m : StoreState) → response_bytes result ≡ reply_by (rest_step limit m rest)) }
{
    let Some(bytes) = text else {
        return Response::TooLong;
    };
    let Some(text) = text_of(bytes) else {
        return Response::NotUnderstood;
    };
    if is_blank(text) {
        Response::Nothing
    } else {
        Response::NotUnderstood
    }
}
