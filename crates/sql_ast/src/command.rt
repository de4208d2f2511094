use crate::{
    BoundText, ColumnList, Detachment, LockedTableList, NameList, Partitioning, SettingValue,
};
use pg_values::{Isolation, LockMode, PgText};

/// A statement that reads and changes no rows, as its text says it.
#[derive(Debug, Drop)]
pub enum Command {
    /// BEGIN or START TRANSACTION, with its isolation level where one is written.
    Begin(Option<Isolation>),
    /// COMMIT or END.
    Commit,
    /// ROLLBACK or ABORT.
    Rollback,
    Set(PgText, SettingValue),
    Reset(PgText),
    /// A table, its columns, and how it is partitioned.
    CreateTable(PgText, ColumnList, Option<Partitioning>),
    /// A partition, its parent, its bound, and how it is itself partitioned.
    CreatePartition(PgText, PgText, BoundText, Option<Partitioning>),
    /// Tables; an absent one is passed over where the first part is true.
    DropTables(bool, NameList),
    /// A parent, the table that becomes its partition, and the bound.
    Attach(PgText, PgText, BoundText),
    /// A parent, its partition, and how it is detached.
    Detach(PgText, PgText, Detachment),
    Lock(LockedTableList, LockMode),
    Deallocate(PgText),
    DeallocateAll,
}
