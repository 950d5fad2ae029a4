//! What holds of allowances.

ghost use Rattle.db_looks.specs.Promises.{AllowancesAdd};

/// Two statements, one after the other, each within its allowance, are within both together. The function only states this law, and
/// that allowances add up as numbers do.
#[tactic(auto, using(crate::specs::laws::Composing::allowances_add))]
pub fn allowance_laws()
    ensures { AllowancesAdd }
{}
