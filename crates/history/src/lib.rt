//! What happened in a run, as plain data for contracts, and the words that code shares with it.
//!
//! A history is the list of all events of a run so far, the newest first. No code keeps one: the
//! transaction table, the row store and the lock table keep what they need, and their contracts say
//! that this stands for a history, before a call and after it. What became of a transaction (`fate`),
//! what a snapshot sees (`sees`), which versions of a leaf it shows (`seen`), which snapshots are open
//! (`held_by`), who holds which locks (`holds`) and who waits for whom (`waits_for`) are definitions
//! over that list, in `specs/`.
//!
//! A snapshot's place is the history before it. Each store has its own kind of events, one
//! constructor of `Event` for each; another kind of event changes no definition of the others.
#![tactic(auto)]

mod catalogue;
mod laws;
mod transaction;
mod version;
mod wait;

pub use catalogue::{Check, Column, Columns, Entry, EntryId, KeptCheck, Stamp, Table, TableShape};
pub use laws::{
    abort_undoes, alike_see_alike, committed_stays_seen, dead_are_unseen, held_was_taken,
    no_two_conflict, others_change_nothing, seen_before_its_end,
};
pub use transaction::{Fate, TxId};
pub use version::{End, Ending, Version};
pub use wait::{WaitOn, Wanted};
