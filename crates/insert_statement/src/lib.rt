//! INSERT of a session over the stores.
//!
//! The named table is locked first, and the values are computed. In a partitioned table each row is then
//! placed, as PostgreSQL routes it; the tables on the ways of the rows are locked before the first of
//! them is stored. A table that holds rows itself takes each row after its tests, the bounds above it
//! among them. A refusal ends the statement behind the rows that were stored before it: they count no
//! more once its transaction has been aborted.
#![tactic(auto)]

mod leaf;
mod partitions;
mod rows;
mod statement;
mod storing;

pub use statement::insert;
