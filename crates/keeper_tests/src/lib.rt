//! Tests of keepers and entries, apart from the crates that they test: docs/ARCHITECTURE.md says why.
#![tactic(auto)]

#[cfg(test)]
mod entries;
#[cfg(test)]
mod keepers;
#[cfg(test)]
mod scans;
