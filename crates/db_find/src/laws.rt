//! What holds of every CATSEARCH.

ghost use Rattle.db_find.specs.WordRows.{CataloguesFindWordRows};

use cat_query::queries_are_plain;
use cat_search::met_rows_are_few;
use q_reduce::reduced_is_sound;

/// What a catalogue finds by a query text, and the texts that it reads to find it, are no more than the rows with a word that the query takes.
pub fn catalogues_find_word_rows()
    ensures { CataloguesFindWordRows }
{
    queries_are_plain();
    reduced_is_sound();
    met_rows_are_few();
}
