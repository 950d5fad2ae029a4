//! The serving loop.

ghost use Rattle.std.specs.Prelude.{◌≡◌, ◌≤◌, ◌<◌, ◌∷◌, [], ℕ, true, false, Ok, IfOk, OnOk, OnErr, IfErr, is_err, length, take};
ghost use Rattle.ct_base.specs.Told.{took};
ghost use Rattle.db_state.specs.Shapes.{AcceptsStatements};
ghost use Rattle.db_engine.specs.Runs.{statement, rest_piece};
ghost use Rattle.db_console.specs.Views.{AnswersText, Breaks, BreaksOffText, EndsHere, ServesEnd, Heard, Serves, tells_end};
ghost use Rattle.db_console.specs.Table.{EndsRun, Outcome};

use crate::endings::Ending;
use crate::responses::{respond, respond_to_rest};
use crate::saying::{AnswerFault, say_reply};
use ct_keep::Keeper;
use ct_site::Failed;
use st_cut::Cutter;
use std::alloc::Global;
use std::thread::Threads;

/// How many bytes of a script are heard at once at most.
const CHUNK: usize = 4096;

/// Answers a statement, which is given where it isn't too long: executes it, and then says the reply.
fn answer<R: Threads + Sync, K: Keeper>(
    rt: &R,
    alloc: Global,
    degree: u32,
    keeper: &mut K,
    text: Option<&[u8]>,
) -> Result<(), AnswerFault>
    requires { AcceptsStatements (K.view keeper.old) }
    ensures all { OnOk result (AnswersText statement text.entry (K.view keeper.old) (K.view keeper.new)) }
    ensures part { IfErr result (λ fault. BreaksOffText statement fault text.entry (K.view keeper.old) (K.view keeper.new)) }
{
    match respond(rt, alloc, degree, keeper, text) {
        Ok(response) => say_reply(keeper, response.bytes()),
        Err(_) => Err(AnswerFault::Disk),
    }
}

/// Answers the rest of a script, which is given where it isn't too long.
fn answer_rest<K: Keeper>(keeper: &mut K, text: Option<&[u8]>) -> Result<(), AnswerFault>
    requires { (K.view keeper.old).ready }
    ensures all { OnOk result (AnswersText rest_piece text.entry (K.view keeper.old) (K.view keeper.new)) }
    ensures part { IfErr result (λ fault. BreaksOffText rest_piece fault text.entry (K.view keeper.old) (K.view keeper.new)) }
{
    let response = respond_to_rest(text);
    say_reply(keeper, response.bytes())
}

/// Serves one byte of the script.
fn serve_byte<R: Threads + Sync, K: Keeper>(
    rt: &R,
    alloc: Global,
    degree: u32,
    keeper: &mut K,
    cutter: &mut Cutter,
    byte: u8,
) -> Result<(), AnswerFault>
    requires { AcceptsStatements (K.view keeper.old) }
    ensures served { OnOk result (Serves (byte ∷ []) (K.view keeper.old) (K.view keeper.new) cutter.old cutter.new) }
    ensures broke { IfErr result (λ fault. Breaks false fault (byte ∷ []) (K.view keeper.old) (K.view keeper.new) cutter.old) }
{
    if byte == b'\n' && cutter.is_ending() {
        answer(rt, alloc, degree, keeper, cutter.statement())?;
        cutter.clear();
    } else {
        cutter.push(byte);
    }
    Ok(())
}

/// Serves some bytes of the script.
fn serve_bytes<R: Threads + Sync, K: Keeper>(
    rt: &R,
    alloc: Global,
    degree: u32,
    keeper: &mut K,
    cutter: &mut Cutter,
    bytes: &[u8],
) -> Result<(), AnswerFault>
    requires { AcceptsStatements (K.view keeper.old) }
    ensures served { OnOk result (Serves bytes.now (K.view keeper.old) (K.view keeper.new) cutter.old cutter.new) }
    ensures broke { IfErr result (λ fault. Breaks false fault bytes.now (K.view keeper.old) (K.view keeper.new) cutter.old) }
{
    for byte in bytes {
        serve_byte(rt, alloc, degree, keeper, cutter, *byte)?;
    }
    Ok(())
}

/// Serves the end of the script: a last statement, or else the rest.
fn finish<R: Threads + Sync, K: Keeper>(
    rt: &R,
    alloc: Global,
    degree: u32,
    keeper: &mut K,
    cutter: &Cutter,
) -> Result<(), AnswerFault>
    requires { AcceptsStatements (K.view keeper.old) }
    ensures served { OnOk result (ServesEnd (K.view keeper.old) (K.view keeper.new) cutter.now) }
    ensures broke { IfErr result (λ fault. Breaks true fault [] (K.view keeper.old) (K.view keeper.new) cutter.now) }
{
    if cutter.is_ending() {
        return answer(rt, alloc, degree, keeper, cutter.statement());
    }
    answer_rest(keeper, cutter.rest())
}

/// Serves the end of the script, with which the run ends.
fn close<R: Threads + Sync, K: Keeper>(
    rt: &R,
    alloc: Global,
    degree: u32,
    keeper: &mut K,
    cutter: &Cutter,
) -> Ending
    requires { AcceptsStatements (K.view keeper.old) }
    ensures { EndsRun result (K.view keeper.old) (K.view keeper.new) cutter.now }
{
    match finish(rt, alloc, degree, keeper, cutter) {
        Ok(()) => Ending::Done,
        Err(fault) => fault.ending(),
    }
}

/// Hears at most `room` bytes.
#[tactic(auto, using(crate::proofs::Lasting::heard_by))]
fn hear_some<K: Keeper>(keeper: &mut K, chunk: &mut [u8], room: usize) -> Result<usize, Failed>
    requires some { 0 < room }
    requires within { room ≤ length chunk.old }
    ensures bound { IfOk result (λ count. count ≤ room) }
    ensures sized { IfOk result (λ count. length (take count chunk.new) ≡ count) }
    ensures heard { Heard (is_err result) (tells_end result) (took result chunk.new) (K.view keeper.old) (K.view keeper.new) }
    ensures end { result ≡ Ok 0 → EndsHere (K.view keeper.new).beside }
{
    keeper.hear(&mut chunk[..room])
}

/// Hears one byte past those that a script may have, and answers whether there is one.
fn hear_past<K: Keeper>(keeper: &mut K) -> Result<bool, Failed>
    ensures end { result ≡ Ok false → Heard false true [] (K.view keeper.old) (K.view keeper.new) × EndsHere (K.view keeper.new).beside }
    ensures more { result ≡ Ok true → (byte : ℕ) × Heard false false (byte ∷ []) (K.view keeper.old) (K.view keeper.new) }
    ensures failed { OnErr result (Heard true false [] (K.view keeper.old) (K.view keeper.new)) }
{
    let mut byte = [0u8; 1];
    let count = keeper.hear(&mut byte)?;
    Ok(count > 0)
}

/// Hears a script of at most `most` bytes, answers each statement of it, and says the replies. A statement of over
/// `limit` bytes is answered unread. It takes the memory for the longest statement first.
pub fn serve_script<R: Threads + Sync, K: Keeper>(
    rt: &R,
    alloc: Global,
    degree: u32,
    limit: usize,
    most: u64,
    keeper: &mut K,
) -> Ending
    requires { AcceptsStatements (K.view keeper.old) }
    ensures outcome { Outcome limit most (K.view keeper.old) (K.view keeper.new) result }
    ensures memory { result ≡ Ending.NoMemory → keeper.new ≡ keeper.old }
{
    let Ok(mut cutter) = Cutter::new(alloc, limit) else {
        return Ending::NoMemory;
    };
    let mut chunk = [0u8; CHUNK];
    let mut taken = 0u64;
    while taken < most {
        let room = (most - taken).min(CHUNK as u64) as usize;
        let Ok(count) = hear_some(keeper, &mut chunk, room) else {
            return Ending::HearFault;
        };
        if count == 0 {
            return close(rt, alloc, degree, keeper, &cutter);
        }
        if let Err(fault) = serve_bytes(rt, alloc, degree, keeper, &mut cutter, &chunk[..count]) {
            return fault.ending();
        }
        taken += count as u64;
    }
    let Ok(is_more) = hear_past(keeper) else {
        return Ending::HearFault;
    };
    if is_more {
        return Ending::PastLimit;
    }
    close(rt, alloc, degree, keeper, &cutter)
}
