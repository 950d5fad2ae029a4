//! The state, what it means that a store stands for it, and how a statement's plan is carried out.
#![tactic(auto)]

mod columns;
mod committing;
mod laws;
mod lookups;
mod plans;
mod shapes;

pub use columns::{column_place, has_column};
pub use committing::fixed_reply;
pub use laws::{one_state, stores_are_well, stores_are_within_room};
pub use lookups::{
    has_index, has_most_tables, has_table, index_of_column, is_view, table_columns, target_of,
};
pub use plans::{Plan, carry_out};
pub use shapes::StoreShape;
