//! What holds of whole statements of a run: each one that was completed did what one does that reads everything.
//!
//! A statement reads the leaves that its plan keeps. Of each SELECT that has come to its end, and of each UPDATE and DELETE
//! whichever way it ended, it is said here that it made of what had happened before, and answered, what one does that
//! scans all leaves of the trees of its snapshot.
//!
//! And a plan scans no partition that was detached, or whose mark its snapshot sees, whether a SELECT runs it or an EXPLAIN
//! prints it.
//!
//! A prepared statement that changes rows does, with the arguments of its parameters, what it does with these written out.
#![tactic(auto)]

mod laws;

pub use laws::{custom_changes_are_as_written_out, scans_are_fresh, whole_statements_are_plain};
