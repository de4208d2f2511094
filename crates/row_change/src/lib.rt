//! The rows of an INSERT: each whole, placed, tested and stored.
//!
//! A row of an INSERT has values for the named columns; `full_row` makes the row of the table of them. In a
//! partitioned table PostgreSQL routes a row at the moment at which it stores it. Here all rows are placed
//! first (`place_rows`): the bounds of the named table and of the tables above it are asked, then the row
//! goes down to the leaf that accepts it. So the leaves, and the tables on the ways to them, are
//! known, and can be locked, before a row is stored. The answer is the leaf of each row, or the first refusal
//! in the order of the rows.
//!
//! Then `store_rows` takes row after row: it is tested for NOT NULL, for the kept CHECKs along the path of its
//! leaf and, where the statement names the leaf itself, for the bounds, and stored. What is known of a leaf is
//! its `Target`. The first refusal ends it, and the caller takes back what was stored before.
//!
//! An UPDATE puts a row in the place of a version (`succeed_row`): it replaces it in its leaf, or a version is born
//! in another leaf and the row has moved there.
//!
//! Names, and the keys that a refusal tells, are those that a history gives the tables.
#![tactic(auto)]

mod by_leaf;
mod full_rows;
mod holders;
mod keys;
mod laws;
mod leaf_list;
mod leaves;
mod leaves_below;
mod placing;
mod storing;
mod succession;
mod target;
mod testing;
mod way;

pub use full_rows::{are_full, full_row};
pub use holders::{Holders, holders_of};
pub use laws::{
    rows_are_of_ways, rows_fit_paths, tables_are_made, targets_fit, ways_lead_to_leaves,
};
pub use leaf_list::LeafList;
pub use leaves::{leaves_and_ways, leaves_of};
pub use leaves_below::{leaf_targets, target_of};
pub use placing::check_bounds;
pub use storing::{check_leaf, store_rows};
pub use succession::succeed_row;
pub use target::Target;
pub use testing::check_kept;
pub use way::leaf_way;
