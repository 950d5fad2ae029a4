//! Tests of scripts that are served and of whole runs, apart from the crates that they test: docs/ARCHITECTURE.md says why.
#![tactic(auto)]

#[cfg(test)]
mod histories;
#[cfg(test)]
mod runs;
#[cfg(test)]
mod stores;
