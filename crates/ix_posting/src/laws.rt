//! What holds of the bytes of all rows. Each function here only states laws, which its contract proves.

ghost use Rattle.ix_posting.specs.Forms.{number_form, pair_form};
ghost use Rattle.ix_posting.specs.Promises.{RowsHaveOneSpelling, RowsAreReadBack};

/// A row of words has one spelling, and from its bytes it is read back.
pub fn rows_are_exact()
    ensures one { RowsHaveOneSpelling number_form }
    ensures read_back { RowsAreReadBack number_form }
{}

/// A row of sections has one spelling, and from its bytes it is read back.
pub fn span_rows_are_exact()
    ensures one { RowsHaveOneSpelling pair_form }
    ensures read_back { RowsAreReadBack pair_form }
{}
