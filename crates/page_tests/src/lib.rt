//! Tests of pages, the journal and the heap, apart from the crates that they test: docs/ARCHITECTURE.md says why.
#![tactic(auto)]

#[cfg(test)]
mod heaps;
#[cfg(test)]
mod journals;
#[cfg(test)]
mod loading;
#[cfg(test)]
mod many;
#[cfg(test)]
mod pages;
#[cfg(test)]
mod stores;
