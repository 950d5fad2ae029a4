//! What holds of all tables. The function here only states it, which its contract proves.

ghost use Rattle.csv_table.specs.Promises.{ScriptsAreRead};

use st_parse::{statement_is_read, written_is_read};

/// The script of a table is read as its statements.
pub fn script_is_read()
    ensures { ScriptsAreRead }
{
    written_is_read();
    statement_is_read();
}
