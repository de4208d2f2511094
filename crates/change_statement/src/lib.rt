//! UPDATE and DELETE of a session over the stores.
//!
//! The named table is found and locked, and the statement is bound. Under the named table those are locked
//! that lead to a leaf which the condition keeps, and those of such leaves; or all, where SET names a key
//! column, since rows may move then. The kept leaves alone are read, which leaves out no row that passes
//! (`kept_have_all_targets`) and changes nothing of what is done (`pruned_changes_are_plain`). A generic plan
//! keeps leaves without the values of parameters; of these it reads those that the values keep too.
//!
//! Then the rows are taken one after the other, as PostgreSQL does it: one that another open transaction has
//! changed is waited for, and what became of it then decides. A statement that has to wait for a row keeps its
//! snapshot, and goes on with that row and those behind it, under its transaction's next command: what it
//! changed before was done by an earlier one.
//!
//! What UPDATE and DELETE do with each row.
//!
//! A statement first finds its targets: the rows of its leaves that its snapshot sees and that its
//! condition takes (`find_targets`). Then it takes one after the other, and looks at what became of the
//! version since (`decide`). A row that another transaction is changing has to wait for it. At READ
//! COMMITTED a row that was changed by a committed transaction is followed to its newest version, whose
//! condition is tested again, and a deleted one is passed over; at REPEATABLE READ both are refused. A
//! row that was moved to another leaf is refused at both levels (`could_not_serialize`).
//!
//! The row of an UPDATE is computed from the version that is changed (`new_row`). Locks, waits and where
//! the new row goes are matters of those who call.
#![tactic(auto)]

mod asking;
mod changed_rows;
mod condition;
mod conflicts;
mod deciding;
mod deleting;
mod finding;
mod gathering;
mod housing;
mod keeping;
mod laws;
mod row_faults;
mod rows;
mod settings;
mod standing;
mod statement;
mod step;
mod turn;
mod updater;
mod updating;
mod verdicts;
mod waiting;

pub use changed_rows::ChangedRows;
pub use deciding::decide;
pub use finding::find_targets;
pub use laws::{kept_have_all_targets, pruned_changes_are_plain};
pub use row_faults::could_not_serialize;
pub use settings::new_row;
pub use statement::{delete, update};
pub use updater::Updater;
pub use verdicts::{Conflict, Verdict};
