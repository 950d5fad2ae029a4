//! Why a text is no query.

ghost use Rattle.std.specs.Prelude.{◌≡◌};
ghost use Rattle.q_parse.specs.declared.faults.QueryFault.TheVariants.{Memory as OutOfMemory};

use ct_base::Memory;

/// Why a lexeme is bad.
#[derive(Clone, Copy, Debug, PartialEq, Eq)]
pub enum Cause {
    OutOfRange,
    NotInProfile,
    Syntax,
}

/// Why a text is no query. A place is the number of a byte in the text, from 1 on; the end of the text has the place behind its last byte.
#[derive(Clone, Copy, Debug, PartialEq, Eq)]
pub enum QueryFault {
    /// The text breaks the grammar at this place.
    Syntax(u32),
    /// At this place stands an operator, a function or a sign that this profile doesn't have.
    NotInProfile(u32),
    /// At this place stands a word in the place of a number, in no form of one or out of its range; or the comma or NEAR behind the
    /// sixteenth operand of a nearness, or the ninth operator of a sum.
    BadNumber(u32),
    /// The text has over 4000 bytes, over 1024 lexemes, or over 32 open parentheses at some place.
    TooLarge,
    Memory,
}

impl From<Memory> for QueryFault {
    ghost from_gives = { λ _ e. e ≡ OutOfMemory };

    fn from(_: Memory) -> QueryFault {
        QueryFault::Memory
    }
}
