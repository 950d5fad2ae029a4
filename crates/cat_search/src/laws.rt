//! What holds of every query, and of what it finds.

ghost use Rattle.cat_search.specs.Queries.{HoldsByScore};
ghost use Rattle.cat_search.specs.Promises.{WordsRuleOut, WordsTell, MetRowsAreExact, MetRowsRise, MetRowsHaveWords};

/// A query holds of a document exactly where its score there is above 0. A text whose words rule it out doesn't meet a query, and where each phrase of
/// the query has one slot, its words tell whether it does.
#[tactic(auto, using(crate::specs::laws::Truth::holds_by_score, crate::specs::laws::Slots::words_rule_out, crate::specs::laws::Slots::words_tell))]
pub fn searching_laws()
    ensures score { HoldsByScore }
    ensures out { WordsRuleOut }
    ensures told { WordsTell }
{}

/// What a query finds: exactly the rows of which the index sees a text that meets it, in the order of their keys and none twice.
#[tactic(auto, using(crate::specs::laws::Met::met_rows_are_exact, crate::specs::laws::Met::met_rows_rise))]
pub fn met_rows_are_exact()
    ensures exact { MetRowsAreExact }
    ensures rising { MetRowsRise }
{}

/// What a query finds are rows with a word that one of its slots takes, so they are no more than these.
#[tactic(auto, using(crate::specs::laws::Few::met_rows_have_words))]
pub fn met_rows_are_few()
    ensures { MetRowsHaveWords }
{}
