//! The columns of a table by their names.
#![tactic(auto)]

ghost use Rattle.std.specs.Prelude.{◌≡◌};
ghost use Rattle.tb_table.specs.Rules.{has_column as is_column};
ghost use Rattle.db_state.specs.Columns.{column_place as place_named};

use ct_base::Name;
use tb_table::Column;

/// The place of a column by its name, that of the key being 0. Its cost is the number of columns.
pub fn column_place(name: &Name, columns: &[Column]) -> Option<usize>
    ensures { result ≡ place_named name.now columns.now }
{
    let name = name.as_str();
    for (place, column) in columns.iter().enumerate() {
        if name == column.name.as_str() {
            return Some(place);
        }
    }
    None
}

/// Whether one of the columns has the name. Its cost is the number of columns.
#[tactic(auto, using(crate::proofs::Listed::some_place))]
pub fn has_column(name: &Name, columns: &[Column]) -> bool
    ensures { result ≡ is_column name.now columns.now }
{
    column_place(name, columns).is_some()
}
