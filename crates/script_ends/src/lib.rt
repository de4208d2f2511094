//! Every run of a script comes to its end.
//!
//! `partscript_run` promises that what it has written is one outcome of its call, or the first bytes of what one has come to
//! write at some point, and `calls_have_one_outcome` that a call has one outcome at most. Here it is said that a call that
//! runs a script has one, so that what was written before a failed write, or before memory ran out, is the beginning of it;
//! and that a call that nothing hinders is done with the whole, or memory ran out.
#![tactic(auto)]

mod laws;

pub use laws::{
    scripts_come_to_an_end, scripts_have_an_outcome, seeds_have_an_outcome,
    unhindered_checks_are_done, unhindered_runs_are_done, what_was_written_begins_it,
};
