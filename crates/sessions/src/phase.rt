/// Where a session stands between transactions.
#[derive(Clone, Copy, Debug, PartialEq, Eq)]
pub enum Phase {
    /// It has no transaction.
    Idle,
    /// Its block is one.
    Implicit,
    /// BEGIN came.
    Explicit,
    /// A statement of its explicit transaction failed.
    Failed,
}
