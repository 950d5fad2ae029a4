//! The grammar of statements: from a text to its lexemes, and from these to the statement that they are.
#![tactic(auto)]

mod calling;
mod conditions;
mod creating;
mod deleting;
mod dropping;
mod inserting;
mod laws;
mod lexemes;
mod lexing;
mod listing;
mod numbers;
mod ordering;
mod parsing;
mod procedures;
mod selecting;
mod statements;
mod updating;
mod values;

pub use conditions::comparison_of;
pub use laws::{one_statement, statement_is_read, written_is_read};
pub use lexemes::{Keyword, Lexeme, Symbol};
pub use lexing::{LexFault, after_line, begins_comment, is_blank, lexeme_at};
pub use numbers::{negated, number};
pub use parsing::{StatementFault, parse};
pub use procedures::{Definition, Procedure, ThesaurusCall};
pub use statements::{
    Arg, Args, Assign, Assigns, ColumnNames, ColumnText, ColumnTexts, Compare, Cond, Conds,
    IndexKind, Item, Items, Operand, Operands, OrderItem, Orders, Pred, Preds, SelectList,
    SortText, Statement, Whole,
};
