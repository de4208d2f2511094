//! Every run comes to its end: of any rules, of sessions, and of statements.
//!
//! A run is a relation (`Runs` of `schedule`), and `runs_have_one_end` says that it has one end at most. Here it is said
//! that it has one. What is asked of the database is a rank of its states that each of its calls lowers, with nothing of
//! how states are kept in memory. Permutations and tasks are used up, in between the rank falls, and at one rank a
//! session gives up its turn or a report is told. So what a run has written where it had to stop is the beginning of one
//! whole text.
//!
//! Sessions over an executor have such a rank where the executor's states have one: what is left of the blocks counts
//! more, and of a statement, a block, a transaction nothing else is asked.
//!
//! The database of a run has one where statements do to locks and waits what a session may: nobody has lost a lock by one,
//! other sessions wait as they did, and its own session waits just where that is told; and each commits in its middle once
//! at most. The rank is the locks that sessions could still get, the waits that could still be cancelled, and the sessions
//! that could go on since something was given up. Where a lock is asked for, or others are waited for, locks and waits are
//! as that asks, whatever statement it is a part of. And each statement of a run asks so: it locks tables that a catalogue
//! speaks of, and waits for those that are sessions. So a run of statements comes to its end, whatever their blocks say and
//! whatever the list of permutations.
#![tactic(auto)]

mod asking;
mod executors;
mod parts;
mod runs;
mod statements;

pub use asking::{RunStatements, runs_of_statements_come_to_an_end, statements_ask};
pub use executors::{Over, RankedCourse, sessions_come_to_an_end};
pub use parts::{locks_are_asked_for, others_are_waited_for};
pub use runs::{Ranked, runs_come_to_an_end, what_was_written_is_a_beginning};
pub use statements::{AskingStatements, Running, statements_come_to_an_end};
