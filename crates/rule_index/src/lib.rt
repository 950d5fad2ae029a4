//! Rule indexes: which rules hold of a document.
#![tactic(auto)]

mod creating;
mod entries;
mod filing;
mod found_rows;
mod laws;
mod listing;
mod matching;
mod noting;
mod outcomes;
mod rules;
mod scoring;
mod shapes;
mod syncing;

pub use laws::rule_indexes_keep_the_laws;
pub use listing::RuleError;
pub use rules::Rules;
pub use shapes::is_rule_shape;
