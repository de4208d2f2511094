use pg_values::{ListOf, PgText};

/// A table that is to be locked, and whether ONLY stands before it.
#[derive(Debug, Drop)]
pub struct LockedTable {
    pub only: bool,
    pub name: PgText,
}

/// Tables to be locked in order.
pub type LockedTableList = ListOf<LockedTable>;
