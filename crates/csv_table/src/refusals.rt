//! Why a CSV text isn't made into a script.

ghost use Rattle.std.specs.Prelude.{◌≡◌};
ghost use Rattle.csv_table.specs.declared.refusals.Refusal.TheVariants.{Memory as OutOfMemory};

use ct_base::Memory;
use std::alloc::{AllocError, AllocFailed};
use thiserror::Error;

/// Why a CSV text isn't made into a script. A line is that on which the record begins, and a field stands at that place of its
/// record; both are counted from 1.
#[derive(Clone, Copy, Debug, PartialEq, Eq, Error)]
pub enum Refusal {
    #[error("the name of the table is no name, or is a keyword or a view's")]
    TableName,
    #[error("there is no header, so the table would have no column")]
    NoColumn,
    #[error("line {line}: there are over 16 columns")]
    TooManyColumns {
        line: u64,
    },
    #[error("line {line}, field {field}: the header is no name, or is a keyword")]
    ColumnName {
        line: u64,
        field: usize,
    },
    #[error("line {line}: two columns have one name")]
    TwoColumns {
        line: u64,
    },
    #[error("no column has the name of the key")]
    UnknownKey,
    #[error("line {line}: there are over 100000 rows")]
    TooManyRows {
        line: u64,
    },
    #[error("line {line}: the record has {count} fields, and the header {wanted}")]
    FieldCount {
        line: u64,
        count: usize,
        wanted: usize,
    },
    #[error("line {line}, field {field}: the text isn't UTF-8")]
    NotUtf8 {
        line: u64,
        field: usize,
    },
    #[error("line {line}, field {field}: the text has over 4000 bytes")]
    TooLong {
        line: u64,
        field: usize,
    },
    #[error("line {line}, field {field}: a line of the text ends in a semicolon, where a script would be cut")]
    CutText {
        line: u64,
        field: usize,
    },
    #[error("line {line}, field {field}: the key is no whole number of 64 bits")]
    NoKey {
        line: u64,
        field: usize,
    },
    #[error("line {line}: the row that begins on line {first} has this key too")]
    KeyTwice {
        line: u64,
        first: u64,
    },
    #[error("line {line}: the statement of this row would have over 65536 bytes")]
    StatementTooLong {
        line: u64,
    },
    #[error("out of memory")]
    Memory,
}

impl From<Memory> for Refusal {
    ghost from_gives = { λ _ refusal. refusal ≡ OutOfMemory };

    fn from(_: Memory) -> Refusal {
        Refusal::Memory
    }
}

impl From<AllocError> for Refusal {
    ghost from_gives = { λ _ refusal. refusal ≡ OutOfMemory };

    fn from(_: AllocError) -> Refusal {
        Refusal::Memory
    }
}

impl<T: Drop> From<AllocFailed<T>> for Refusal {
    ghost from_gives = { λ _ refusal. refusal ≡ OutOfMemory };

    fn from(_: AllocFailed<T>) -> Refusal {
        Refusal::Memory
    }
}
