//! Trees of tables, a table with the partitions below it and the tables above it, and the way of a row to its
//! leaf.
//!
//! A partitioned table is a level: a strategy and key columns, the bounds of its partitions in plain
//! order, and the partitions' own trees in that order. A table that is not partitioned holds rows
//! itself, in its leaf. A leaf accepts a row where each partition on its path does, and since the
//! bounds of a level do not overlap, at most one leaf of a tree does.
//!
//! Contracts see a `Tree` as plain data (`seen`), over which everything else is said: its leaves in
//! plain order, the leaves that accept a row, the way of a row. Which tree and which path a history
//! of events gives a session is defined in `specs/Histories.antt`.
//!
//! An INSERT into a partitioned table, or an UPDATE of a key, has to find the one leaf that accepts
//! the row. PostgreSQL goes down from the named table: at each level it searches the bounds of the
//! partitions for the one that accepts the row's key, until it comes to a table that holds rows.
//! `route` does the same over a tree. Where it finds no partition, no leaf accepts the row.
//!
//! A row that is written to a table by its own name has to be accepted at the places of this table
//! and of those above it, and by the CHECKs that were kept for them: `fits_path` tells the nearest
//! table that refuses it.
#![tactic(auto)]

mod height;
mod laws;
mod leaves;
mod level_key;
mod node;
mod path;
mod path_part;
mod tree;
mod way;

pub use height::height_up_to;
pub use laws::{
    default_stands_last, one_leaf, rows_fit, same_marks_same_tree, trees_are_sound,
    unseen_marks_show,
};
pub use leaves::push_leaves;
pub use level_key::{LevelKey, copy_level};
pub use node::Node;
pub use path::{PathTest, fits_path};
pub use path_part::{KeptChecks, PathPart, Place};
pub use tree::{NoPartition, Shape, Tree, TreeList};
pub use way::route;
