//! The run of a script over any database, in the manner of PostgreSQL's isolationtester.
//!
//! A script says in which order the steps of its sessions are launched. Nobody else acts until the
//! launched step has ended or waits. Then whatever can go on does: a report that was held back by a
//! marker is told, a wait whose causes have gone goes on, and only then the next step is launched.
//!
//! Of the database the run knows what `Database` asks for: a session begins a block, goes on by one
//! small event, waits, is cancelled. `specs/Run.antt` says over any such database what happens next,
//! what it makes of the world and what is printed, so the whole run is a relation with one end at
//! most. `Engine` is a world in memory: `next` tells the next event, `apply` makes it happen, and
//! `write` writes the lines of its report. A report is written in pieces, so that what a block has
//! printed is copied nowhere.
//!
//! The run ends since a number falls: permutations and tasks are used up, and in between each small
//! event lowers the weight of the database or gives up the turn.
#![tactic(auto)]

mod block;
mod counts;
mod database;
mod engine;
mod event;
mod events;
mod fault;
mod holding;
mod laws;
mod line;
mod next;
mod output;
mod run_end;
mod seat;
mod tally;
mod task;
mod whole;
mod write;

pub use block::{Block, BlockKind};
pub use counts::{Counted, Counts, count};
pub use database::{Database, Progress};
pub use event::{Event, Report};
pub use holding::leave;
pub use laws::{
    Invariant, all_is_done_at_the_end, events_come_in_order, invariant_holds, parts_are_beginnings,
    reached_worlds_are_good, runs_have_one_end,
};
pub use run_end::{RunEnd, RunRefused};
pub use tally::Tally;
pub use task::{Permutation, Task};
pub use whole::run;
