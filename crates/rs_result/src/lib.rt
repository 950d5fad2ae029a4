//! Result sets: what a descriptor asks for, and rows that were found, in the order of values of theirs, cut, and counted by value.
#![tactic(auto)]

mod counting;
mod descriptors;
mod laws;
mod lexemes;
mod lexing;
mod ordering;
mod pieces;
mod reading;
mod rows;

pub use counting::groups;
pub use descriptors::{Descriptor, HitKey, HitKeys, ResultPart};
pub use laws::{count_laws, descriptor_laws, rank_laws, row_laws, sorting_laws, sorting_through};
pub use ordering::{between, order};
pub use reading::read;
pub use rows::{By, Count, OrderBy, ResultRow};
