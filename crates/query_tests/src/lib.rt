//! Tests of query texts and their reduction, apart from the crates that they test: docs/ARCHITECTURE.md says why.
#![tactic(auto)]

#[cfg(test)]
mod query_texts;
#[cfg(test)]
mod reductions;
#[cfg(test)]
mod stored;
