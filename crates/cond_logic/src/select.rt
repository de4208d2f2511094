use crate::{ColumnId, Cond, Scalar};
use pg_values::{Kind, ListOf, PgText};

/// An output column: its name, its kind, and what is computed for it.
#[derive(Debug, Drop)]
pub struct Output {
    pub name: PgText,
    pub kind: Kind,
    pub value: Scalar,
}

/// What rows are sorted by: an output column by its place from 0, a column, or the leaf in which the row
/// of a FROM item lies. Leaves are sorted in the order in which they were made.
#[derive(Clone, Copy, Debug, PartialEq, Eq)]
pub enum SortBy {
    Output(usize),
    Column(ColumnId),
    TableName(u32),
}

#[derive(Clone, Copy, Debug, PartialEq, Eq)]
pub struct SortKey {
    pub by: SortBy,
    pub descending: bool,
    pub nulls_first: bool,
}

/// A SELECT: the output columns, the conditions that all have to hold, those of ON in text order before
/// that of WHERE, the order of the rows, and how many are passed over and given. A limit that is null is
/// none, and so is an offset.
#[derive(Debug, Drop)]
pub struct SelectAsk {
    pub outputs: ListOf<Output>,
    pub conditions: ListOf<Cond>,
    pub order: ListOf<SortKey>,
    pub limit: Option<u64>,
    pub offset: Option<u64>,
}
