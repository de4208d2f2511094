use pg_values::{LockMode, SessionSet, TableNo};

/// What other sessions have to give up before a session goes on: their transactions, or their open
/// snapshots.
#[derive(Clone, Copy, Debug, PartialEq, Eq)]
pub enum WaitOn {
    Ends(SessionSet),
    Snapshots(SessionSet),
}

/// What a session waits for: a lock, or other sessions.
#[derive(Clone, Copy, Debug, PartialEq, Eq)]
pub enum Wanted {
    Lock { table: TableNo, mode: LockMode },
    Others(WaitOn),
}
