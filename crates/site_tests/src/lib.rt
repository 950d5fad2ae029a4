//! Tests of numbers as bytes, and of sites, apart from the crates that they test: docs/ARCHITECTURE.md says why.
#![tactic(auto)]

#[cfg(test)]
mod numbers;
#[cfg(test)]
mod real_sites;
#[cfg(test)]
mod sites;
