//! The course of sessions: blocks of statements and transactions, over any executor of statements.
//!
//! A session runs the statements of a block one after the other. Outside of a transaction a block is
//! one: it begins with the first statement that needs it, is committed at the end of the block, and
//! is aborted where a statement fails. BEGIN makes a transaction explicit, so that it goes on behind
//! the block's end; one that fails then answers nothing but its end. Settings that were made in a
//! transaction go back with it.
//!
//! What statements do is not said here. Who runs them is an `Executor`: it parses a block, begins,
//! commits and aborts transactions, and lets a statement go on by one small event, which may come to
//! a wait, to its end or to a fault. `specs/Sessions.antt` says over any executor what a session
//! makes of that. `Sessions` is a `Database`, so a script can be run over it.
#![tactic(auto)]

mod asker;
mod database;
mod executor;
mod levels;
mod outcome;
mod phase;
mod role;
mod session;
mod sessions;
mod settings;
mod transactions;
mod turns;

pub use asker::{Asker, Place};
pub use executor::Executor;
pub use outcome::Outcome;
pub use phase::Phase;
pub use role::Role;
pub use sessions::Sessions;
pub use settings::{PlanCacheMode, Settings};
