//! Statements of sessions over the stores: an executor as `sessions` asks for.
//!
//! What has happened is one history: transactions, row versions, tables and locks. A statement is run
//! from its beginning up to its end or to a wait, in one go; what it does on the way is put before the
//! history. Where it had to wait for a lock, it begins anew when its wait is over, with the locks that
//! it has got; where it had to wait for a row, it goes on where it stood. It may also ask that what it did so
//! far is committed, and go on from there in another transaction. Where its wait was cancelled, it is refused, and
//! so is one whose transaction has had as many commands as there can be.
//! A statement can cancel the waits of other sessions: these end before it is attempted, and
//! those sessions go on before any other whose wait is over.
//!
//! What each statement is for its session, what it makes of the stores, what it prints and what it gives are
//! pure functions of the history (`specs/Roles.antt`, `Attempted.antt`, `Given.antt`). `specs/Database.antt`
//! makes of these what `sessions` asks of an executor.
//!
//! Where a run is asked for it, each SELECT, INSERT, UPDATE and DELETE of a step prints its trail behind its
//! answer: how many rows it gave or changed, and the leaves that it read (`specs/Trails.antt`).
//!
//! A kind of statement is one case here, which leads to the crate that runs it.
//!
//! What a session has prepared stands beside the stores and belongs to no transaction. An EXECUTE is the statement of
//! that name, with the values of its arguments, which are bound where its attempt begins (`specs/Executions.antt`).
//!
//! What a statement is in the course of a session: transaction control, a setting, or a statement that is
//! run over the stores.
//!
//! The settings of a session by their names: what SET and RESET make of them.
//!
//! Names are those of PostgreSQL. Switches take the words on, off, true, false, yes, no, 1 and 0, in any
//! case; two settings take any value and have no effect here.
//!
//! Reads the SQL of a block as a session asks for it: its statements, or the fault that they are refused with.
//!
//! `sql_syntax` says of each answer which text it is of. Here the answer is a function of the text
//! (`read_block` in `specs/Reading.antt`), so that what a run does can be computed from its script: the
//! statements where the whole text is read, else the fault at the first token that does not fit, which is
//! told by its byte, by its word, or by the limit that it passes.
#![tactic(auto)]

mod attempts;
mod changes;
mod executing;
mod executor;
mod faults;
mod left_out;
mod names;
mod options;
mod prepared_attempts;
mod reading;
mod roles;
mod room;
mod row_attempts;
mod seats;
mod tallies;
mod trails;

pub use changes::{reset, set};
pub use executor::StoreExecutor;
pub use names::SettingName;
pub use options::Options;
pub use reading::{blocks_are_read_by_the_grammar, read_block};
pub use roles::{changed_settings, looks, role_of};

/// How many commands a transaction has at most. A statement that waits in the middle of its run goes on as
/// another one.
pub const COMMAND_LIMIT: u32 = 4_294_967_294;
