//! What CREATE TABLE means, and the bounds of partitions, or the first reason why they mean nothing.
//!
//! `bind_columns` gives the columns of a table with their kinds, `bind_partitioning` the partition key of a
//! PARTITION BY by the places of its columns, and `bind_bound` the bound of a FOR VALUES or a DEFAULT for the
//! key that it is a bound of. None of them looks a table up: which tables there are, and which bounds
//! stand there already, is judged by those that know the catalogue.
//!
//! Each answer is a list of faults and a meaning that is total: the first fault, else the meaning. An
//! expression of a bound is a constant. It may name nothing: a column or a parameter is left out by its
//! name, where it stands among the other faults of its expression. Its fault is that of its value, so a
//! bound of the wrong form or count is refused for that first.
//!
//! That is judged by `check_bound`, of a bound as it is written, with expressions, MINVALUE and MAXVALUE
//! (`RawBound`). It gives the bound of its level that is meant, with values of the key columns' kinds, or the
//! first of the rules of `specs/Checks.antt` that it breaks.
#![tactic(auto)]

mod bounds;
mod check;
mod checked_bounds;
mod columns;
mod listed_value;
mod partitioning;
mod raw_bound;
mod raw_value;
mod values;

pub use bounds::bind_bound;
pub use check::check_bound;
pub use checked_bounds::level_bounds_are_checked;
pub use columns::{bind_columns, kind_named};
pub use partitioning::bind_partitioning;
pub use raw_bound::{RawBound, RawEdge, RawEdges, RawValue, RawValues};
