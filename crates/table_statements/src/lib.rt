//! CREATE TABLE, PARTITION OF and DROP TABLE of a session over the stores.
//!
//! Each statement locks what it needs first, tells the first of its refusals, and then changes the
//! catalogue in one step. A new table's name may have been given to one by another open transaction: then
//! the statement waits for its end, and begins anew. Beside a default partition the rows of that one are scanned:
//! the statement is refused with a row that the new partition would accept, and waits where only old snapshots see
//! one.
//!
//! LOCK TABLE of a session over the stores.
//!
//! The named tables are found and locked one after the other, and then the tables under them, each before
//! those under it; ONLY leaves these out. All locks are of the mode that is written. The first of them that
//! is not to be had at once ends the statement: it waits, or is refused. LOCK takes no snapshot.
//!
//! Its locks go at the end of the transaction, so LOCK by itself stands in an explicit one.
#![tactic(auto)]

mod claims;
mod drops;
mod laws;
mod named;
mod partitions;
mod places;
mod statement;
mod tables;
mod under;

pub use drops::drop_tables;
pub use laws::locked_tables_may_go;
pub use partitions::create_partition;
pub use places::lock_misplaced;
pub use statement::lock;
pub use tables::create_table;
