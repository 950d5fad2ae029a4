//! Tests of posting rows and lists, slots, document maps, occurrences, cursors and indexes, apart from the crates that they test: docs/ARCHITECTURE.md says why.
#![tactic(auto)]

#[cfg(test)]
mod alone;
#[cfg(test)]
mod cursors;
#[cfg(test)]
mod document_maps;
#[cfg(test)]
mod indexes;
#[cfg(test)]
mod matching;
#[cfg(test)]
mod occurrences;
#[cfg(test)]
mod posting_lists;
#[cfg(test)]
mod posting_rows;
