use pg_values::{ListOf, PgText};

/// Names in order, seen as the list of their bytes.
pub type NameList = ListOf<PgText>;

/// A table, and the name that it goes by in the statement where one is written.
#[derive(Debug, Drop)]
pub struct NamedTable {
    pub name: PgText,
    pub alias: Option<PgText>,
}
