//! What holds of all queries.

ghost use Rattle.q_tree.specs.Promises.{SlotsAreCompared, SumsLeaveOne, SumsHaveTheirValue, StepsAreSums, PhrasesOccur, OccurrencesRise, EntriesScoreAsWords};

/// Slots are called the same exactly where they are equal.
pub fn same_slot_laws()
    ensures { SlotsAreCompared }
{}

/// The steps of a sound sum are the postfix form of a sum, and what they compute is its value.
pub fn sum_laws()
    ensures one { SumsLeaveOne }
    ensures value { SumsHaveTheirValue }
    ensures sums { StepsAreSums }
{}

/// The occurrences of a phrase are the positions at which each of its slots takes the word in its place, in rising order.
pub fn occurrence_laws()
    ensures occur { PhrasesOccur }
    ensures rise { OccurrencesRise }
{}

/// Where a document's entries are the postings of its words and sections, it has the same scores by both.
pub fn posting_laws()
    ensures { EntriesScoreAsWords }
{}
