//! Changes of tables and rows: CREATE TABLE, DROP TABLE, INSERT, UPDATE and DELETE.
#![tactic(auto)]

mod assigning;
mod creating;
mod deleting;
mod dropping;
mod inserting;
mod keeping;
mod noting;
mod updating;

pub use creating::create_table;
pub use deleting::delete_from;
pub use dropping::drop_table;
pub use inserting::insert_into;
pub use updating::update;
