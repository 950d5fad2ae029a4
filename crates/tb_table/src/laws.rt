//! What holds of all tables. Each function here only states laws, which its contract proves.

ghost use Rattle.tb_table.specs.Promises.{ColumnsHaveTheirOwnBytes, NumbersHaveTheirOwnBytes, NewTablesStand, NewRowsStand, UpdatedRowsStand, DeletedRowsStand, RemovedTablesStand, NewTablesKeepTheRules, NewRowsKeepTheRules, UpdatedRowsKeepTheRules, DeletedRowsKeepTheRules, RemovedTablesKeepTheRules, UpdatedRowsAreThere, DeletedRowsAreGone, DeletedKeysAreGone, RemovedTablesAreGone};

/// No columns have the bytes of others, nor have the numbers of a row.
pub fn entries_are_exact()
    ensures columns { ColumnsHaveTheirOwnBytes }
    ensures numbers { NumbersHaveTheirOwnBytes }
{}

/// Where entries spell tables, the changes of a new table or row make them spell the tables with it, those of new values of a
/// row the tables with these, and those of a removal the tables without what was removed.
pub fn changes_stand()
    ensures create { NewTablesStand }
    ensures insert { NewRowsStand }
    ensures update { UpdatedRowsStand }
    ensures delete { DeletedRowsStand }
    ensures remove { RemovedTablesStand }
{}

/// A new table, and a new row whose values fit, keep the rules of tables, where there is room for one; so do new values of a
/// row that fit, and each removal.
pub fn rules_stay()
    ensures create { NewTablesKeepTheRules }
    ensures insert { NewRowsKeepTheRules }
    ensures update { UpdatedRowsKeepTheRules }
    ensures delete { DeletedRowsKeepTheRules }
    ensures remove { RemovedTablesKeepTheRules }
{}

/// What was changed or removed, and only that, is changed or gone.
pub fn rows_go()
    ensures update { UpdatedRowsAreThere }
    ensures delete { DeletedRowsAreGone }
    ensures keys { DeletedKeysAreGone }
    ensures remove { RemovedTablesAreGone }
{}
