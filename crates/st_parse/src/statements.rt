//! Statements.

use crate::procedures::Procedure;
use ct_base::{Listed, Name, Text};

/// A number with its sign, where it has one.
#[derive(Clone, Copy, Debug, PartialEq, Eq)]
pub enum Whole {
    Fits(i64),
    /// A number outside `i64`.
    Beyond,
}

/// A value in a statement.
#[derive(Debug, Drop)]
pub enum Operand {
    Text(Text),
    Number(Whole),
}

/// Values, in their order.
pub type Operands = Listed<Operand>;

/// The type of a column.
#[derive(Clone, Copy, Debug, PartialEq, Eq)]
pub enum SortText {
    Number,
    /// A text of at most so many bytes.
    Varchar2(Whole),
    Clob,
}

/// A column of a table that is created.
#[derive(Debug, Drop)]
pub struct ColumnText {
    pub name: Name,
    pub sort: SortText,
    /// Whether it is called the primary key.
    pub primary: bool,
}

/// The columns of a table, in their order.
pub type ColumnTexts = Listed<ColumnText>;

/// The names of columns, in their order.
pub type ColumnNames = Listed<Name>;

/// The type of an index.
#[derive(Clone, Copy, Debug, PartialEq, Eq)]
pub enum IndexKind {
    Context,
    Ctxcat,
    Ctxrule,
}

/// How a column's value and another are compared.
#[derive(Clone, Copy, Debug, PartialEq, Eq)]
pub enum Compare {
    Equal,
    Less,
    AtMost,
    Greater,
    AtLeast,
}

/// A condition on the value of a column.
#[derive(Debug, Drop)]
pub enum Cond {
    Compare {
        column: Name,
        op: Compare,
        value: Operand,
    },
    /// The value is from `low` to `high`, both included.
    Between {
        column: Name,
        low: Operand,
        high: Operand,
    },
    /// The value is one of these.
    OneOf {
        column: Name,
        values: Operands,
    },
}

/// Conditions, all of which hold, in their order.
pub type Conds = Listed<Cond>;

/// A predicate of a SELECT.
#[derive(Debug, Drop)]
pub enum Pred {
    Cond(Cond),
    /// The score of the query text is above `above`; SCORE of the label is that score.
    Contains {
        column: Name,
        query: Text,
        label: Option<Whole>,
        above: Whole,
    },
    /// The text meets the query; `structured` are conditions and an order, None where NULL stands there.
    Catsearch {
        column: Name,
        query: Text,
        structured: Option<Text>,
    },
    /// The query of the row is met by the document.
    Matches {
        column: Name,
        document: Text,
    },
}

/// Predicates, all of which hold, in their order.
pub type Preds = Listed<Pred>;

/// An item of a SELECT's list, and of its order.
#[derive(Debug, Drop)]
pub enum Item {
    Column(Name),
    /// The score of the CONTAINS with this label.
    Score(Whole),
}

/// The items of a SELECT, in their order.
pub type Items = Listed<Item>;

/// What a SELECT gives of each row.
#[derive(Debug, Drop)]
pub enum SelectList {
    /// All columns.
    Star,
    /// The number of the rows, and nothing of each.
    CountAll,
    Items(Items),
}

/// What rows are ordered by.
#[derive(Debug, Drop)]
pub struct OrderItem {
    pub item: Item,
    /// Whether the greatest comes first.
    pub down: bool,
}

/// What rows are ordered by, the first first.
pub type Orders = Listed<OrderItem>;

/// A value that an UPDATE sets.
#[derive(Debug, Drop)]
pub struct Assign {
    pub column: Name,
    pub value: Operand,
}

/// The values that an UPDATE sets, in their order.
pub type Assigns = Listed<Assign>;

/// An argument of a procedure.
#[derive(Debug, Drop)]
pub enum Arg {
    Text(Text),
    Number(Whole),
    Flag(bool),
}

/// The arguments of a call, in their order.
pub type Args = Listed<Arg>;

/// A statement of a script.
#[derive(Debug, Drop)]
pub enum Statement {
    CreateTable {
        name: Name,
        columns: ColumnTexts,
    },
    DropTable {
        name: Name,
    },
    DropIndex {
        name: Name,
    },
    CreateIndex {
        name: Name,
        table: Name,
        column: Name,
        kind: IndexKind,
        parameters: Option<Text>,
        /// The degree of the work, where the statement gives one.
        parallel: Option<Whole>,
    },
    Insert {
        table: Name,
        /// The columns that the values are for; None where they aren't named.
        columns: Option<ColumnNames>,
        values: Operands,
    },
    Update {
        table: Name,
        assigns: Assigns,
        conds: Conds,
    },
    Delete {
        table: Name,
        conds: Conds,
    },
    Select {
        list: SelectList,
        table: Name,
        preds: Preds,
        orders: Orders,
    },
    /// A call of a procedure.
    Exec {
        procedure: Procedure,
        args: Args,
    },
    Commit,
}
