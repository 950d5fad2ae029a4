//! What holds of all inversions. Each function here only states a law, which its contract proves.

ghost use Rattle.ix_invert.specs.Promises.{EachHasOneInversion, TermsStandInTurn};

/// Postings have one inversion, so it is the same however many threads read the texts.
pub fn each_has_one_inversion()
    ensures { EachHasOneInversion }
{}

/// Under one term an inversion has what the texts have, in their order.
pub fn terms_stand_in_turn()
    ensures { TermsStandInTurn }
{}
