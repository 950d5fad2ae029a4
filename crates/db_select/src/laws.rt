//! What holds of what a SELECT looks up.

ghost use Rattle.db_select.specs.Few.{CatsearchMayReadFew, CatsearchReadsFew};
ghost use Rattle.db_select.specs.Looking.{SelectsLookFew};

use db_find::catalogues_find_word_rows;

/// What a SELECT with a text predicate looks up at most is within what it may: the texts that are read to find rows, and of each row that is
/// found the text of each column of texts that list, conditions and order name; and of rows of postings and sections one more than its query
/// may look up.
pub fn looking_law()
    ensures { SelectsLookFew }
{
    ix_search::looking_law();
}

/// A CATSEARCH reads no more texts than there are rows with a word that its query takes, times one more than the columns of texts that the
/// statement names; and `select_allowance` allows it no more.
pub fn catsearch_reads_few()
    ensures reads { CatsearchReadsFew }
    ensures allowed { CatsearchMayReadFew }
{
    catalogues_find_word_rows();
}
