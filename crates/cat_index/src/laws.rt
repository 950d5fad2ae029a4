//! What holds of catalogues as a kind of indexes. The function here only states laws, which its contract proves.

ghost use Rattle.cat_index.specs.KindPromises.{CataloguesKeepTheLaws};

/// Catalogues give what a kind of indexes has to give: so all that holds of the indexes on a table holds of them.
pub fn catalogues_keep_the_laws()
    ensures { CataloguesKeepTheLaws }
{}
