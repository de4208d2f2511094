//! Plans as EXPLAIN prints them.
//!
//! A plan is a tree of nodes: LIMIT and OFFSET are a Limit on top, ORDER BY a Sort over the rest, or an Ordered Append of
//! a Sort for each partition that is sorted by itself, items of FROM are joined from the left by Nested Loops and Hash
//! Joins, and an item is an Append of the scans of its kept leaves, or one scan alone. A partitionwise join of the first
//! two is an Append of the joins of its pairs of partitions, or one of them alone. Where an item keeps no leaf a Result
//! stands in place of all of them, since nothing is read. Each node is a
//! line, behind an arrow and six spaces further in than the node above it, with a line for each of its details below:
//! what a scan or a join asks, and by what is sorted. Of a plan that was run each node's line tells the rows that it gave,
//! and how often it was run (`PlanCounts`).
//!
//! Conditions are printed as the plan asks them, with NOT pushed inwards: each comparison, IS NULL, AND and OR in
//! its own parentheses, a column on the left of a constant.
//!
//! The definitions say a node in a line each (`Plans`), and what stands under its depth in one place (`Nodes`): a
//! node is a function of its depth. `write_plan` gives the lines as the table that EXPLAIN answers, and
//! `scans_are_of_the_leaves` says that the lines which are scans tell the leaves of the plan's items.
#![tactic(auto)]

mod comparisons;
mod conditions;
mod counts;
mod keys;
mod laws;
mod named_item;
mod names;
mod nodes;
mod operands;
mod plan;
mod rows;
mod scans;

pub use laws::{conjuncts_are_told, scans_are_of_the_leaves};
pub use named_item::NamedItem;
pub use plan::write_plan;
