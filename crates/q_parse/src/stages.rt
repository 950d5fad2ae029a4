//! Where the reader of a query is, and what stands open around it.

ghost use Rattle.std.specs.Prelude.{◌≡◌};
ghost use Rattle.q_parse.specs.declared.stages.StepError.TheVariants.{Memory as OutOfMemory};

use ct_base::{Listed, Memory, Name};
use q_lex::Infix;
use q_tree::{Leaf, Query, Relation, SumStep, Word};
use std::alloc::{AllocError, AllocFailed};

/// What a group of terms is: a parenthesis, an operand of NEAR behind other ones, or what DEFINESCORE scores.
#[derive(Drop)]
pub(crate) enum Kind {
    InGroup,
    InNear(Listed<Listed<Leaf>>),
    InDefine,
}

/// What stands open around the stage.
#[derive(Drop)]
pub(crate) enum Frame {
    Left(Infix, Query),
    Group,
    Chain(Listed<Listed<Leaf>>),
    TermsOf(Kind, Listed<Leaf>),
}

/// What stands open in a sum.
#[derive(Drop)]
pub(crate) enum SumFrame {
    SumLeft(SumStep),
    SumOpen,
}

/// Where in the grammar the reader is, within the frames.
#[derive(Drop)]
pub(crate) enum Stage {
    Operand,
    InPhrase(Listed<Listed<Word>>),
    AfterEquiv(Listed<Listed<Word>>),
    ThesOpen(Relation),
    ThesFirst(Relation),
    ThesWords(Relation, Listed<Word>),
    ThesArgument(Relation, Listed<Word>),
    ThesLevel(Relation, Listed<Word>, u8),
    ThesName(Relation, Listed<Word>, u8),
    ThesClose(Relation, Listed<Word>, u8, Name),
    After(u8, Query),
    AfterChain(Listed<Listed<Leaf>>),
    AfterTerms,
    Factor(Query),
    Threshold(Query),
    SectionName(Query),
    NearWord,
    NearOpen,
    NearEnd(Listed<Listed<Leaf>>),
    NearSpan(Listed<Listed<Leaf>>),
    NearOrder(Listed<Listed<Leaf>>, u8),
    NearFlag(Listed<Listed<Leaf>>, u8),
    NearClose(Listed<Listed<Leaf>>, u8, bool),
    DefineWord,
    SumOperand(Listed<Leaf>, Listed<SumStep>, Vec<SumFrame>, u32),
    SumAfter(Listed<Leaf>, Listed<SumStep>, Vec<SumFrame>, u32),
}

/// Why a step gave no stage.
#[derive(Debug, Drop)]
pub(crate) enum StepError {
    Refused,
    Memory,
}

impl From<Memory> for StepError {
    ghost from_gives = { λ _ e. e ≡ OutOfMemory };

    fn from(_: Memory) -> StepError {
        StepError::Memory
    }
}

impl From<AllocError> for StepError {
    ghost from_gives = { λ _ e. e ≡ OutOfMemory };

    fn from(_: AllocError) -> StepError {
        StepError::Memory
    }
}

impl<T: Drop> From<AllocFailed<T>> for StepError {
    ghost from_gives = { λ _ e. e ≡ OutOfMemory };

    fn from(_: AllocFailed<T>) -> StepError {
        StepError::Memory
    }
}
