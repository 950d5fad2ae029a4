//! Saying replies.

ghost use Rattle.std.specs.Prelude.{false, ◌≡◌, OnOk, OnErr, IfErr};
ghost use Rattle.db_console.specs.Generating.{SaysTo, SaysToInPart};
ghost use Rattle.db_console.specs.Views.{Spoke, SpokeInPart};

use ct_keep::Keeper;
use ct_site::{Failed, Site};

/// Why the answer to a piece of a script broke off.
#[derive(Debug, Drop)]
pub enum AnswerFault {
    /// Saying failed.
    Say,
    /// The disk failed. From then on the keeper may be asked to hear and to say alone.
    Disk,
}

/// Says all the bytes, by as many calls as it takes.
fn say_all<K: Keeper>(keeper: &mut K, bytes: &[u8]) -> Result<(), Failed>
    ensures all { OnOk result (Spoke false bytes.now (K.view keeper.old) (K.view keeper.new)) }
    ensures part { OnErr result (SpokeInPart bytes.now (K.view keeper.old) (K.view keeper.new)) }
{
    let mut at = 0;
    while at < bytes.len() {
        at += keeper.say(&bytes[at..])?;
    }
    Ok(())
}

/// Says a reply.
pub fn say_reply<K: Keeper>(keeper: &mut K, reply: &[u8]) -> Result<(), AnswerFault>
    ensures all { OnOk result (Spoke false reply.now (K.view keeper.old) (K.view keeper.new)) }
    ensures part { IfErr result (λ fault. (fault ≡ AnswerFault.Say) × SpokeInPart reply.now (K.view keeper.old) (K.view keeper.new)) }
{
    match say_all(keeper, reply) {
        Ok(()) => Ok(()),
        Err(_) => Err(AnswerFault::Say),
    }
}

/// Says all the bytes to a site, by as many calls as it takes.
pub(crate) fn say_to<S: Site>(site: &mut S, bytes: &[u8]) -> Result<(), Failed>
    ensures all { OnOk result (SaysTo false bytes.now (S.disk site.old) (S.disk site.new)) }
    ensures part { OnErr result (SaysToInPart bytes.now (S.disk site.old) (S.disk site.new)) }
{
    let mut at = 0;
    while at < bytes.len() {
        at += site.say(&bytes[at..])?;
    }
    Ok(())
}
