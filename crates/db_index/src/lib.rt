//! Indexes and procedures: CREATE INDEX, DROP INDEX, CTX_DDL.SYNC_INDEX, CTX_DDL.OPTIMIZE_INDEX and CTX_DOC.POLICY_TOKENS.
#![tactic(auto)]

mod asking;
mod dropping;
mod index_calls;
mod index_checks;
mod indexing;
mod kinds;
mod optimizing;
mod sub_columns;
mod syncing;
mod thesauri;
mod tokenizing;

pub use dropping::drop_index;
pub use indexing::create_index;
pub use kinds::{BuiltKind, built_kind};
pub use optimizing::optimize_index;
pub use syncing::sync_index;
pub use tokenizing::policy_tokens;
