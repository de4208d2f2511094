//! The row versions of a run, as PostgreSQL's heap keeps them.
//!
//! A row is never changed in its place: an UPDATE ends its version and bears another, a DELETE ends
//! it, and both stay, since older snapshots still see the ended one. `RowStore` keeps all versions
//! in one list in order of birth, each with the last end that it was given, and for each leaf the
//! list of its versions' numbers. A `Slot` of 64 bytes keeps a version and its end. An end counts while
//! its transaction is not aborted, so an abort changes nothing here, and the version stands again.
//!
//! A leaf's list leaves out versions that are dead, as VACUUM does with a table: those whose birth was
//! aborted, or whose birth and end are committed, where no snapshot that is held shows them. It is gone
//! through when a version comes and there are more than twice as many as were left the last time, so a
//! scan looks at few versions more than somebody may see, and each birth pays for few.
//!
//! `scan` lends the rows of a leaf that a snapshot sees and writes the leaf into a `Trail`, so what a
//! statement has read can be told. `newest` tells what became of one version. `judge` goes through all
//! versions of leaves by a test, as ATTACH PARTITION does by the new bounds: a row that breaks it
//! refuses where the transaction, or anybody who reads once it is committed, could come to see it;
//! where only older snapshots of other sessions do, it tells which.
#![tactic(auto)]

mod dead;
mod judge;
mod leaf;
mod newest;
mod refused;
mod scan;
mod slot;
mod store;
mod stored;
mod trail;

pub use judge::{RowTest, Verdict};
pub use newest::Newest;
pub use refused::{PutCause, PutRefused, TrailRefused};
pub use scan::{Scan, SeenRow};
pub use store::RowStore;
pub use trail::Trail;

/// How many versions a store takes.
pub const VERSION_LIMIT: usize = 1_000_000;

/// How many bytes of values a store takes: a value counts 16 bytes, and a text its length besides.
pub const BYTES_LIMIT: u64 = 268_435_456;

/// How many scans one statement makes at most.
pub const SCAN_LIMIT: usize = 1_000_000;
