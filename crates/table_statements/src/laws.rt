ghost use Rattle.table_statements.specs.Laws.{LockedTablesMayGo};

/// Where the session's transaction has locked a table, those below it and the one above it, as DROP TABLE
/// does, `drop_table` may be called, whatever happened before in a sound history.
pub fn locked_tables_may_go()
    ensures { LockedTablesMayGo }
{}
