//! A SELECT of a session over the stores.
//!
//! Its parts follow one another as in PostgreSQL. A transaction at REPEATABLE READ takes its snapshot before
//! anything waits. The named tables are found and locked in text order. Their trees are read under the
//! snapshot of the command, names and kinds are bound, constants evaluated, and a plan is made. Of the tables
//! under the named ones those that lead to a leaf which the plan keeps are locked, item by item and each
//! before those below it, with those of the kept leaves; none, where an item keeps no leaf. Then the plan is
//! run over the rows that the snapshot shows. A session that prunes nothing keeps all leaves. A part that
//! waits or is refused ends the statement, which keeps the locks that it has got.
//!
//! An EXPLAIN of a SELECT does all of this but for the last part, and prints the plan in its place (`explain`). With ANALYZE
//! it does that too, as its SELECT does it (`analyzes_run_their_select`), and each node of the plan tells what it gave.
//! That a SELECT reads by the plan that its EXPLAIN prints is a law (`selects_run_their_plan`), and so is that a
//! SELECT of one table reads just the leaves that stand there (`one_table_reads_its_scans`).
//!
//! A prepared SELECT is bound with the arguments of its parameters. A custom plan of it is made with their values in
//! place, so it does what it does with these written out (`custom_selects_are_as_written_out`). A generic plan is
//! made without those that are operands by themselves; what it keeps then is locked, and when it starts, their values
//! leave out more. Its answer is the same (`plain_with_values`).
//!
//! What a SELECT of a run answers: what a plain scan of all leaves gives.
//!
//! `select_answer` has that of a plan, which is refused where it makes too many scans. A plan over one table reads
//! each leaf of its tree once at most, and in a run there are fewer tables than scans that a statement may make:
//! so a SELECT of one table makes of the history just what it would make where nothing but its locks went by the
//! plan. Of several tables the same holds, but for the refusal of too many scans.
#![tactic(auto)]

mod analyzing;
mod answered;
mod cancels;
mod explaining;
mod gathered;
mod gathering;
mod items;
mod laws;
mod parts;
mod statement;
mod tables;

pub use analyzing::analyzes_run_their_select;
pub use answered::Answered;
pub use cancels::cancelled;
pub use explaining::{
    explain, joins_read_their_scans, names_are_as_asked, one_table_reads_its_scans,
    selects_run_their_plan,
};
pub use gathered::Gathered;
pub use laws::{
    custom_selects_are_as_written_out, leaves_are_few, one_table_is_plain, plain_with_values,
    tables_are_plain,
};
pub use statement::select;
