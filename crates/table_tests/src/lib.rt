//! Tests of tables, stored preferences and thesauri, and the names of indexes, apart from the crates that they test: docs/ARCHITECTURE.md says why.
#![tactic(auto)]

#[cfg(test)]
mod index_names;
#[cfg(test)]
mod index_sets;
#[cfg(test)]
mod stored_preferences;
#[cfg(test)]
mod stored_thesauri;
#[cfg(test)]
mod tables;
