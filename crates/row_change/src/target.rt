use pg_values::{LeafId, ListOf, TableNo};
use row_router::PathPart;

/// A leaf that takes rows: its table, what of the path from the table upwards is asked of a row, and whether
/// the statement names the table itself, so that the bounds of the path are asked too.
#[derive(Drop)]
pub struct Target {
    pub leaf: LeafId,
    pub table: TableNo,
    pub path: ListOf<PathPart>,
    pub is_named: bool,
}
