//! Locks on tables: who holds which mode, who waits for whom, and who goes on next.
//!
//! PostgreSQL keeps a lock object for each table, with the modes that are granted and a queue of
//! those who wait. `LockTable` keeps, for each table and mode, the set of sessions that hold it, and
//! one queue of all waits, the oldest first. A request is granted where no other session holds a
//! conflicting mode and nobody who waits before it wants one, unless what that waiter wants conflicts
//! with a mode that the asking session holds already.
//!
//! A session may also wait for the end of other sessions' transactions, or until their snapshots have
//! gone. All three kinds of waits count where a wait would close a cycle: that one is refused, and the
//! shortest cycle is told, which is found from the asking session backwards, level by level.
//!
//! All places are reserved when the table is made, so nothing after that takes memory. The sets reach
//! only as far as a lock was ever held, and past their end nobody holds one. The places at which somebody
//! holds a lock are listed: so the end of a transaction goes over the locks that are held, and not over
//! all tables.
//!
//! The answers of a lock table as functions of what happened.
//!
//! `lock_table` answers a request by a relation: the lock is free, or these are the causes to wait and
//! no cycle is closed, or this is the least cycle. Here the same stands as a function, with the cycle
//! found by going through all of them, the shortest first and of one length the least first. So what a
//! whole run means can be said without the table. The laws stand on definitions alone.
#![tactic(auto)]

mod answer_laws;
mod asked;
mod causes;
mod changes;
mod cycle;
mod laws;
mod table;

pub use answer_laws::{answer_is_told, what_is_asked_may_come};
pub use asked::Asked;
pub use laws::{
    first_come_first_served, one_cycle_is_told, ready_has_no_cause, waiters_keep_their_place,
};
pub use table::LockTable;
