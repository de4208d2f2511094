//! The transactions of a run, and what each snapshot sees.
//!
//! PostgreSQL keeps the fate of each transaction by its number, and a snapshot as the next number
//! and the transactions that ran when it was taken: a transaction counts as committed for a
//! snapshot where it has committed, its number was given out before the snapshot, and it is not
//! among those that ran. `TxTable` does the same. So a snapshot is as small as there are sessions,
//! `sees` takes no longer than that, however long the run is, and no history is kept.
//!
//! A session has at most one open transaction, and holds at most one snapshot: the one that its
//! REPEATABLE READ transaction keeps, or that of a statement that waits. `snapshot` gives the held
//! one again.
#![tactic(auto)]

mod snapshot;
mod table;

pub use snapshot::{Snapshot, number_is_set};
pub use table::TxTable;
