//! What executing a statement answers.

use ct_base::Bytes;

/// The reply to a statement.
#[derive(Debug, Drop)]
pub enum Reply {
    /// All its lines, with their newlines.
    Text(Bytes),
    /// The store is full; the state is as before. Saying so takes no memory.
    Full,
    /// There was no memory for it; the state is as before.
    NoMemory,
}

/// What ends the run in place of a reply.
#[derive(Clone, Copy, Debug, PartialEq, Eq)]
pub enum Stop {
    /// The disk failed. From then on the keeper may only hear and say.
    Disk,
}
