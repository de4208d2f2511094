//! The run of scripts over the stores, from bytes to bytes.
//!
//! `partscript_run` is the program of `script_program` over the sessions of `sessions`, whose statements
//! are those of `statement_runs`, run over the stores by `statement_runs`. What a script's database is before
//! anything has happened, and what happens in it, is said in `specs/Run.antt`.
#![tactic(auto)]

mod opening;

pub use opening::partscript_run;

#[cfg(test)]
mod tests;
