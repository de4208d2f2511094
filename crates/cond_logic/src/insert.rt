use pg_values::{ListOf, Row};

/// An INSERT: the places of the columns that get values, and in each row a value for each of them.
#[derive(Debug, Drop)]
pub struct InsertAsk {
    pub columns: ListOf<usize>,
    pub rows: ListOf<Row>,
}
