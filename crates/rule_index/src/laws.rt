//! What holds of all rule indexes. Each function here only states laws, which its contract proves.

ghost use Rattle.rule_index.specs.KindPromises.{RuleIndexesKeepTheLaws};

/// Rule indexes give what a kind of indexes has to give: so all that holds of the indexes on a table holds of them.
pub fn rule_indexes_keep_the_laws()
    ensures { RuleIndexesKeepTheLaws }
{}
