//! The catalogue: tables, partition entries and kept CHECKs, as versions.
//!
//! In PostgreSQL a table is a row of pg_class and a partition's place a row of pg_inherits, which
//! transactions make, end and mark as they do other rows. But a statement does not read them under
//! its isolation level: it sees what is committed, and what its own transaction did. The one
//! exception is a partition that is being detached concurrently: its entry is marked pending, and a
//! snapshot that sees the mark leaves the partition out, while an older one keeps it until the
//! entry's end is committed.
//!
//! `Catalog` keeps all tables and entries, each with its newest end and mark; what an aborted transaction did
//! does not count, so that no abort has anything to undo. An entry whose birth was aborted or whose end is
//! committed is there for nobody, and stays so: such entries are forgotten, all at once when there are twice
//! as many entries as were left the last time. The entries below a table stand in plain order from the moment
//! they are added, so that a tree is built in one pass. Trees that statements asked for are kept until a
//! table is made or an entry added: a tree of the same table with the same entries shares what stands below, and a path the bounds
//! beside a partition.
//! The contracts say that the catalogue stands for a history of events, before a call and after it, and what
//! a call answers is a definition over that history.
#![tactic(auto)]

mod add;
mod below;
mod catalog;
mod change;
mod find;
mod forgetting;
mod grow;
mod keep;
mod laws;
mod names;
mod new_table;
mod path;
mod room;
mod see;
mod stored;

pub use catalog::Catalog;
pub use laws::{forgotten_are_not_missed, siblings_are_kept};
pub use new_table::{CatalogRefused, NewTable};

/// How many tables a catalogue takes, dropped ones too.
pub const TABLE_LIMIT: usize = 4096;

/// How many partitions a table has at most.
pub const PARTITION_LIMIT: usize = 1024;

/// How many partitions a run attaches at most, those that are gone too: each has a number of 64 bits.
pub const ENTRY_LIMIT: u64 = 18_446_744_073_709_551_615;

/// How many tables stand on a path at most.
pub const LEVEL_LIMIT: usize = 8;
