//! Tests of the arguments of the command, statements, conditions and lines, apart from the crates that they test: docs/ARCHITECTURE.md says why.
#![tactic(auto)]

#[cfg(test)]
mod arguments;
#[cfg(test)]
mod conditions;
#[cfg(test)]
mod lines;
#[cfg(test)]
mod scripts;
#[cfg(test)]
mod statements;
