//! How a run of the console ends.

ghost use Rattle.std.specs.Prelude.{◌≡◌};
ghost use Rattle.db_console.specs.Table.{ending_of, status_of};

use crate::saying::AnswerFault;

/// How a run of the console ends.
#[derive(Debug, Drop)]
pub enum Ending {
    /// All of the script was answered.
    Done,
    /// Standard input failed.
    HearFault,
    /// Standard output failed.
    SayFault,
    /// There was no memory for a statement's buffer.
    NoMemory,
    /// The disk failed. From then on the keeper may only hear and say.
    DiskFault,
    /// The script is too long.
    PastLimit,
}

impl AnswerFault {
    /// How the run ends by it.
    pub fn ending(self) -> Ending
        ensures { result ≡ ending_of self }
    {
        match self {
            AnswerFault::Say => Ending::SayFault,
            AnswerFault::Disk => Ending::DiskFault,
        }
    }
}

impl Ending {
    /// The status of the program (docs/ERRORS.md).
    pub fn status(self) -> u8
        ensures { result ≡ status_of self }
    {
        match self {
            Ending::Done => 0,
            Ending::HearFault => 3,
            Ending::SayFault => 4,
            Ending::NoMemory => 5,
            Ending::DiskFault => 6,
            Ending::PastLimit => 8,
        }
    }
}
