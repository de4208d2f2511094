//! The four stores of a run together: transactions, rows, catalogue and locks, and what sessions do to
//! them all.
//!
//! In PostgreSQL a transaction that ends is marked in the log of transactions, its snapshot is given up,
//! and its locks are released once it counts as ended, so that whoever waited for them sees what it did.
//! `Stores::commit` and `Stores::abort` do this in the same order. Rows and tables need nothing then: what
//! a transaction did counts by its fate alone.
//!
//! Each store's contracts speak of the events of its own kind. Here they are put together: before a call
//! and after it all four stand for one history, whose new events the definitions in `specs/Events.antt`
//! tell, and which stays such a one as the laws of `soundness` speak of. So a tree of tables can be asked
//! for without a word on siblings.
//!
//! What an open transaction has changed its session has locked.
//!
//! The invariant of `soundness` speaks of locks as a history has them. Here it is said of the stores of a run:
//! whatever the open transaction of a session has done to rows and partitions, the lock table has the session's
//! lock for it, unless that transaction made the table.
#![tactic(auto)]

mod laws;
mod lock_laws;
mod locks;
mod snapshots;
mod stores;
mod transactions;
mod trees;

pub use laws::{
    begins_at_zero, commands_are_in_order, goes_on, good_is_legal, held_is_own,
    holding_keeps_looks, leaves_are_housed, locks_keep_numbers, looks_are_open, looks_keep_numbers,
    others_keep_numbers, tables_are_few, trees_are_together,
};
pub use lock_laws::changes_are_locked;
pub use stores::Stores;
