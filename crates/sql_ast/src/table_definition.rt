use crate::NameList;
use pg_values::{ListOf, PgText, Strategy};

/// A column, the name of its type, and whether it may not be null.
#[derive(Debug, Drop)]
pub struct ColumnDefinition {
    pub name: PgText,
    pub kind: PgText,
    pub not_null: bool,
}

/// Columns in order.
pub type ColumnList = ListOf<ColumnDefinition>;

/// How a table is partitioned: PARTITION BY, and the columns of its key.
#[derive(Debug, Drop)]
pub struct Partitioning {
    pub strategy: Strategy,
    pub columns: NameList,
}
