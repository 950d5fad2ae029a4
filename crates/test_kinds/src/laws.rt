//! That a further kind is a record with its laws. Each function here only states laws, which its contract proves.

ghost use Rattle.test_kinds.specs.RowLists.{RowListsKeepTheLaws, KindsWithRowListsKeepTheLaws};

/// Lists of rows give what a kind of indexes has to give: so all that holds of the indexes on a table holds of them.
pub fn row_lists_keep_the_laws()
    ensures { RowListsKeepTheLaws }
{}

/// So does the sum of lists of rows and of the kinds CONTEXT and CTXCAT, of which a store could have all three.
pub fn kinds_with_row_lists_keep_the_laws()
    ensures { KindsWithRowListsKeepTheLaws }
{}
