//! CREATE TABLE, PARTITION OF and DROP TABLE over the stores of a run.
//!
//! In PostgreSQL these are rows of pg_class and pg_inherits that a transaction adds and ends. Here a
//! table, its place as a partition and the leaf that holds its rows are events of a history: a call
//! adds some of them, and what the catalogue and the row store keep stands for the history with them
//! afterwards. Nothing has to be undone where the transaction aborts, since its events do not count
//! then.
//!
//! No call here waits. Locks are got before (`tables_below` and `default_of` tell on which tables),
//! and the tests of a statement (`check_name`, `check_count`, `parent_level`, `check_place`) come
//! before the calls that make or drop something, in the order in which refusals are told. A partition
//! is never moved: it is made at its place, below a table that takes its bound, beside siblings that it
//! does not overlap.
#![tactic(auto)]

mod below;
mod dropped;
mod laws;
mod names;
mod partitions;
mod placing;
mod tables;

pub use below::{default_in, default_of, tables_below};
pub use dropped::drop_table;
pub use laws::{passed_have_places, tables_stand_once};
pub use names::check_name;
pub use partitions::make_partition;
pub use placing::{check_place, parent_level};
pub use tables::{check_count, make_table};
