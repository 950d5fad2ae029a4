//! How much a statement may look up of a store, and how much several may, one after the other.
#![tactic(auto)]

mod laws;

pub use laws::allowance_laws;
