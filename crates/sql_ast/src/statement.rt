use crate::{Command, Query};

/// A statement of a block.
#[derive(Debug, Drop)]
pub enum Statement {
    /// It reads and changes no rows.
    Command(Command),
    /// It reads or changes rows, or prepares, executes or explains such a statement.
    Query(Query),
}
