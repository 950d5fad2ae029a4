//! Executes statements, each by at most one commit.
#![tactic(auto, using(ct_keep::specs::laws::Composing::reads_on, ct_keep::specs::laws::Composing::reads_short))]

ghost use Rattle.std.specs.Prelude.{◌≡◌, Some, None, Err, true};
ghost use Rattle.ct_keep.specs.KeeperViews.{AtMostOneCommit, SameButContent, ReadsKeeper, Told, fault_of};
ghost use Rattle.db_state.specs.Shapes.{AcceptsStatements};
ghost use Rattle.db_state.specs.Effects.{reply_by};
ghost use Rattle.db_state.specs.States.{StoreState};
ghost use Rattle.db_engine.specs.Steps.{call as call_effect, effect, may_fill, may_fill_by};
ghost use Rattle.db_engine.specs.Looking.{CallLooksAsAllowed, LooksAsAllowed};
ghost use Rattle.db_engine.specs.Executing.{ExecutesStatement, FullByCount, IfText, NoTextIsFull, Tells, call_line, done_line, fault_of_stop, is_fixed, is_fixed_call};
ghost use Rattle.db_state.specs.Plans.{DoneLines, GivesReply, Replies};

use crate::replies::{Reply, Stop};
use ct_base::{Bytes, Listed};
use ct_keep::{KeepFault, Keeper};
use db_change::{create_table, delete_from, drop_table, insert_into, update};
use db_hits::result_set;
use db_index::{built_kind, create_index, drop_index, optimize_index, policy_tokens, sync_index};
use db_prefs::define;
use db_select::{looking_law, select};
use db_state::fixed_reply;
use db_thes::call_thesaurus;
use st_parse::{Arg, Procedure, Statement};
use std::alloc::Global;
use std::thread::Threads;

/// The call of a procedure.
fn call<R: Threads + Sync, K: Keeper>(
    rt: &R,
    alloc: Global,
    degree: u32,
    keeper: &mut K,
    procedure: Procedure,
    args: &Listed<Arg>,
) -> Result<Vec<u8>, KeepFault>
    requires { AcceptsStatements (K.view keeper.old) }
    ensures serves { Replies K.view keeper.old keeper.new result (λ m. call_effect m procedure args.now) (call_line procedure) }
    ensures fixed { (m : StoreState) → is_fixed_call procedure args.now ≡ true → GivesReply result (call_effect m procedure args.now) }
    ensures may { result ≡ Err KeepFault.Full → may_fill_by procedure ≡ true }
    ensures looks { CallLooksAsAllowed procedure args.now (K.view keeper.old) (K.view keeper.new) (fault_of result) }
{
    db_hits::looking_law();
    match procedure {
        Procedure::PolicyTokens => policy_tokens(alloc, keeper, args.as_slice()),
        Procedure::SyncIndex => sync_index(rt, alloc, degree, keeper, args.as_slice()),
        Procedure::OptimizeIndex => optimize_index(alloc, keeper, args.as_slice()),
        Procedure::ResultSet => result_set(alloc, keeper, args.as_slice()),
        Procedure::Define(definition) => define(alloc, keeper, definition, args.as_slice()),
        Procedure::Thesaurus(procedure) => {
            call_thesaurus(alloc, keeper, procedure, args.as_slice())
        }
    }
}

/// The reply to a statement: its lines, with their newlines.
fn reply_to<R: Threads + Sync, K: Keeper>(
    rt: &R,
    alloc: Global,
    degree: u32,
    keeper: &mut K,
    statement: &Statement,
) -> Result<Vec<u8>, KeepFault>
    requires { AcceptsStatements (K.view keeper.old) }
    ensures serves { Replies K.view keeper.old keeper.new result (λ m. effect m statement.now) (done_line statement.now) }
    ensures fixed { (m : StoreState) → is_fixed statement.now ≡ true → GivesReply result (effect m statement.now) }
    ensures may { Told K.view keeper.old (λ m. result ≡ Err KeepFault.Full → may_fill statement.now ≡ true) }
    ensures looks { LooksAsAllowed statement.now (K.view keeper.old) (K.view keeper.new) (fault_of result) }
{
    looking_law();
    match statement {
        Statement::CreateTable { name, columns } => {
            create_table(alloc, keeper, name, columns.as_slice())
        }
        Statement::CreateIndex {
            name,
            table,
            column,
            kind,
            parameters,
            parallel,
        } => {
            let built = built_kind(*kind);
            create_index(
                rt, alloc, degree, keeper, name, table, column, built, parameters, parallel,
            )
        }
        Statement::Insert {
            table,
            columns,
            values,
        } => insert_into(alloc, keeper, table, columns, values.as_slice()),
        Statement::Select {
            list,
            table,
            preds,
            orders,
        } => {
            select(
                alloc,
                keeper,
                list,
                table,
                preds.as_slice(),
                orders.as_slice(),
            )
        }
        Statement::Exec { procedure, args } => call(rt, alloc, degree, keeper, *procedure, args),
        Statement::DropTable { name } => drop_table(alloc, keeper, name),
        Statement::DropIndex { name } => drop_index(alloc, keeper, name),
        Statement::Update {
            table,
            assigns,
            conds,
        } => update(alloc, keeper, table, assigns.as_slice(), conds.as_slice()),
        Statement::Delete { table, conds } => delete_from(alloc, keeper, table, conds.as_slice()),
        Statement::Commit => Ok(fixed_reply(alloc, b"Commit complete.\n")?),
    }
}

/// Executes a statement, by at most one commit. The reply is the whole text, with its newlines. At most `degree` threads may
/// work on it, of a CREATE INDEX with PARALLEL as many as that says. Its cost is that of the statement's own function.
///
/// # Errors
///
/// Disk, only where the count of faults of the keeper's disk rose. From then on the keeper may only hear and say.
pub fn execute<R: Threads + Sync, K: Keeper>(
    rt: &R,
    alloc: Global,
    degree: u32,
    keeper: &mut K,
    statement: &Statement,
) -> Result<Reply, Stop>
    requires { AcceptsStatements (K.view keeper.old) }
    ensures kept { SameButContent (K.view keeper.old) (K.view keeper.new) (fault_of_stop result) }
    ensures once { AtMostOneCommit (K.view keeper.old) (K.view keeper.new) }
    ensures executes { ExecutesStatement statement.now (K.view keeper.old) (K.view keeper.new) result }
    ensures reads { done_line statement.now ≡ None → ReadsKeeper (K.view keeper.old) (K.view keeper.new) (fault_of_stop result) }
    ensures tells { (done : DoneLines) → done_line statement.now ≡ Some done → Tells done (K.view keeper.old) (K.view keeper.new) result }
    ensures full { FullByCount (K.view keeper.old) (K.view keeper.new) result }
    ensures no_text { (done : DoneLines) → done_line statement.now ≡ Some done → NoTextIsFull result }
    ensures fixed { (m : StoreState) → is_fixed statement.now ≡ true → IfText (λ reply. reply ≡ reply_by (effect m statement.now)) result }
    ensures looks { LooksAsAllowed statement.now (K.view keeper.old) (K.view keeper.new) (fault_of_stop result) }
{
    match reply_to(rt, alloc, degree, keeper, statement) {
        Ok(lines) => Ok(Reply::Text(Bytes::of(lines))),
        Err(KeepFault::Memory) => Ok(Reply::NoMemory),
        Err(KeepFault::Full) => Ok(Reply::Full),
        Err(KeepFault::Disk) => Err(Stop::Disk),
    }
}
