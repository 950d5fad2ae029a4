//! Catalogue indexes: the entries that the rows of a table have under their words, in each sub-index, from the statement on that
//! brings them.
#![tactic(auto)]

mod catalogues;
mod creating;
mod entries;
mod filings;
mod laws;
mod reading;
mod rows;
mod shapes;

pub use catalogues::Catalogue;
pub use creating::{create, places_in};
pub use entries::catalogue_of;
pub use filings::{Filing, row_filing};
pub use laws::catalogues_keep_the_laws;
pub use reading::row_values;
pub use rows::{row_comes, row_goes, row_is_set};
pub use shapes::is_catalogue_shape;
