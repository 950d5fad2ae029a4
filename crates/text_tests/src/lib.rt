//! Tests of keys, lexers, tags, stopwords, preferences and documents, apart from the crates that they test: docs/ARCHITECTURE.md says why.
#![tactic(auto)]

#[cfg(test)]
mod documents;
#[cfg(test)]
mod keys;
#[cfg(test)]
mod lexers;
#[cfg(test)]
mod preferences;
#[cfg(test)]
mod rows;
#[cfg(test)]
mod stopwords;
#[cfg(test)]
mod tags;
