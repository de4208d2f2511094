ghost use Rattle.part_ddl.specs.Laws.{PassedHavePlaces, TablesStandOnce};

/// An entry against which `check_place` finds nothing can stand together with all that are present for
/// the session, is no default beside a pending partition, and keeps the limits.
pub fn passed_have_places()
    ensures { PassedHavePlaces }
{}

/// Where the entries that are present for the session form a forest, each table stands once in a tree, as
/// `drop_table` asks.
pub fn tables_stand_once()
    ensures { TablesStandOnce }
{}
