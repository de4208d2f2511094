//! ALTER TABLE over the stores: ATTACH PARTITION, and DETACH PARTITION at once, CONCURRENTLY, and FINALIZE.
//!
//! In PostgreSQL a partition is one by its row of pg_inherits, which ATTACH adds and DETACH takes away. Here that row is
//! an entry, which begins, is marked, and ends. A table that leaves its place keeps its rows and the tables under it, and
//! whatever a transaction did goes back where it aborts.
//!
//! ATTACH takes SHARE UPDATE EXCLUSIVE on the parent, so that others may read and write its partitions meanwhile, and ACCESS
//! EXCLUSIVE on the table that is attached and on the default partition. Then comes the first of the refusals, of the
//! columns, the place and the bound, then the scans of the table and of the default partition, and then the entry. Where only
//! other sessions' open snapshots see a row that does not suit, the statement waits until they have gone, and begins anew. The
//! rows of the table are not looked at where a CHECK that a concurrent DETACH left it says all that the new place asks: a scan
//! would find nothing.
//!
//! The plain DETACH takes ACCESS EXCLUSIVE locks on the parent and on the partition, so that nobody reads or writes
//! either, and on the default partition, which takes more rows from then on. Then the entry ends; no row of a table is
//! looked at. CONCURRENTLY wants no lock that stands against those who read and write the parent. It marks the entry as
//! pending and commits that, so that who looks from then on leaves the partition out. Then it waits, in another
//! transaction, until all have ended who may have found the partition before, and ends the entry. Where
//! that wait is cancelled the mark stays, and FINALIZE does the rest. What was a partition keeps its bound as a
//! CHECK, so that it can be attached again without a scan.
#![tactic(auto)]

mod attach_checks;
mod attached;
mod columns;
mod detach_checks;
mod detached;
mod finalizing;
mod keeping;
mod laws;
mod leaving;
mod marking;
mod misplaced;
mod skipping;
mod stages;

pub use attached::attach;
pub use detached::detach;
pub use finalizing::finalize;
pub use laws::skipped_is_clean;
pub use misplaced::detach_misplaced;
pub use stages::detach_concurrently;
