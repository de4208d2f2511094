//! What statements over the stores are made of: what an attempt at one is given, how it ends or stops, where it goes
//! on, and the parts that several of them share.
//!
//! A statement is run from its beginning, or from where it stood, up to its end or to a wait (`Stop`, `Rest`); it
//! may also ask that what it did so far is committed (`Ending`). What it does is put together of parts, one after
//! the other: tables found by their names and locked, waits for other sessions, the snapshot that a statement or
//! a transaction keeps. Each part is said by a function of the history: the events that it adds, and what it
//! gives to the next part, or why the statement stops there (`Made` in `specs/Made.antt`). `IsStep` says that a
//! call is such a part; the lemmas of `proofs/Steps.antt` put parts together. `specs/Attempts.antt` says what a
//! whole statement owes to the executor above.
#![tactic(auto)]

mod attempt;
mod below;
mod caller;
mod ending;
mod faults;
mod gathered;
mod going_on;
mod holding;
mod laws;
mod locking;
mod names;
mod reading;
mod rest;
mod scopes;
mod stop;

pub use attempt::Attempt;
pub use below::tables_below;
pub use caller::Caller;
pub use ending::{Ending, ended};
pub use faults::session_name;
pub use gathered::Gathered;
pub use going_on::stopped_on;
pub use holding::{hold, hold_if_repeatable};
pub use laws::{nothing_is_added_above, waiting_statements_accept};
pub use locking::{lock_table, lock_tables, wait_for, wait_for_row};
pub use names::{SessionNames, find_table, lock_named, lock_named_still};
pub use reading::tree_and_path;
pub use rest::{Rest, RestOfDetach, RestOfRows, TargetRow};
pub use scopes::scope_columns;
pub use stop::Stop;
