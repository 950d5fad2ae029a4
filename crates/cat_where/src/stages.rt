//! What was read of a structured query.

ghost use Rattle.std.specs.Prelude.{◌≡◌};
ghost use Rattle.cat_where.specs.declared.stages.StepError.TheVariants.{Memory as NoMemory};

use ct_base::{Memory, Name};
use st_parse::{Compare, Conds, Operand, Operands, Orders};

/// What a structured query asks for.
#[derive(Debug, Drop)]
pub struct Where {
    /// All of these hold.
    pub conds: Conds,
    /// What rows are ordered by, which are columns alone.
    pub orders: Orders,
}

/// What a value is wanted for.
#[derive(Drop)]
pub(crate) enum Role {
    /// To be compared with the column.
    Compared(Name, Compare),
    /// As the low value of BETWEEN.
    Low(Name),
    /// As the high value of BETWEEN.
    High(Name, Operand),
    /// As one value more of IN.
    Member(Name, Operands),
}

/// What was read since the last condition, or since the last item of the order.
#[derive(Drop)]
pub(crate) enum Stage {
    /// Nothing was read at all.
    Start,
    /// An AND after a condition.
    WantsCond,
    AfterColumn(Name),
    /// A column and IN.
    WantsOpen(Name),
    WantsValue(Role),
    /// The minus of a value.
    WantsDigits(Role),
    /// The low value of BETWEEN.
    WantsAnd(Name, Operand),
    /// The values of IN so far, without the comma after them.
    AfterMember(Name, Operands),
    AfterCond,
    /// ORDER.
    WantsBy,
    /// BY, or a comma after an item of the order.
    WantsOrder,
    /// A column of the order, without the word for its direction.
    AfterName(Name),
    AfterOrder,
}

/// What was read of a structured query.
#[derive(Drop)]
pub(crate) struct State {
    pub stage: Stage,
    /// The conditions and the items of the order that were read to their ends.
    pub done: Where,
}

/// Why a step isn't made.
#[derive(Clone, Copy, Debug, PartialEq, Eq)]
pub(crate) enum StepError {
    /// No structured query has the lexeme there.
    Refused,
    /// The lexeme is a number outside `i64` where a value may stand.
    OutOfRange,
    Memory,
}

impl From<Memory> for StepError {
    ghost from_gives = { λ _ fault. fault ≡ NoMemory };

    fn from(_: Memory) -> StepError {
        StepError::Memory
    }
}
