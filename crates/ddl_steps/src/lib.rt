//! What statements that change tables and partitions share: parts of them, what they do to the catalogue, and what
//! the rows of tables say of a new partition.
//!
//! A default partition is locked with the tables under it before a partition beside it is made or attached. A CHECK
//! that a table keeps is equal to another one, or says of rows all that a place asks.
//!
//! In PostgreSQL a table that is attached is scanned for a row outside its new bounds, and the default partition
//! beside a new one for a row that goes there from then on. The rows that are visible to nobody but to old
//! snapshots are passed over, though such a snapshot would come to see them in the wrong place.
//!
//! Here they count too. A row that is live, or that the session's own open snapshot sees, refuses the statement,
//! the first one in plain order. Where only other sessions' open snapshots see such a row, the statement waits
//! until they have gone, and then begins anew. A test of rows is a `RowTest` over what is known of the parent: its
//! level, the bounds below it and the path above it. Rows are of their table's columns, and a table that is
//! attached has those of the parent, so each of them may be asked.
#![tactic(auto)]

mod default_locks;
mod default_rows;
mod equal_checks;
mod implying;
mod judging;
mod low;
mod new_rows;
mod scans;

pub use default_locks::{lock_default, tables_from};
pub use equal_checks::{same_check, same_kind};
pub use implying::is_implied;
pub use judging::{judge_default, judge_table};
pub use low::sessions_are_low;
pub use scans::wait_for_snapshots;
