use pg_values::Isolation;

/// What a statement is in the course of a session.
#[derive(Clone, Copy, Debug, PartialEq, Eq)]
pub enum Role {
    /// BEGIN or START TRANSACTION, with the level that it names.
    Begin(Option<Isolation>),
    /// COMMIT or END.
    Commit,
    /// ROLLBACK or ABORT.
    Rollback,
    /// SET or RESET.
    Set,
    /// Any other statement.
    Query,
}
