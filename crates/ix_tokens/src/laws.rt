//! What holds of the look-ups for keys and patterns.

ghost use Rattle.ix_tokens.specs.Promises.{LooksAreBounded};

/// The rows of a key are read by one look-up of rows more than there are, and those of a pattern by at most 256 more than there are rows whose
/// token begins with its leading literal; and neither looks up a text. The function only states this law.
#[tactic(auto, using(crate::proofs::Looks::looks_are_bounded))]
pub fn looking_law()
    ensures { LooksAreBounded }
{}
