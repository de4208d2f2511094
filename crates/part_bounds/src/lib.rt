//! The bounds of one level as a set, and the search for the partition that accepts a key.
//!
//! `BoundSet` holds the bounds of the partitions of one table in plain order, whatever order they
//! were added in. No two of its bounds overlap, so at most one accepts a key. Contracts see the set
//! as the list of its bounds, and `find_child` answers the place of the one that accepts.
//!
//! The stored points of a level are the lower and the upper point of each range, or the listed
//! values that are not null, ascending, and each has its child. `find_child` and `points_below`
//! search them by halves: ranges as they stand, since stored point i is a point of range i / 2, and
//! lists by a sorted array of the places of their values. Each stored point has a lead, a number
//! that tells most comparisons. A key lies in a range exactly where an odd number of stored points
//! are not above it. A level by hash compares no values: it looks for the remainder that the key's
//! hash leaves of each modulus. The searches count each comparison of two points, or of a listed
//! value, in a `Steps`.
#![tactic(auto)]

mod bound_set;
mod counted;
mod laws;
mod lead;
mod level_kind;
mod listing;
mod remainder;
mod search;
mod stored;

pub use bound_set::{
    BoundSet, add_bound, bound, copy_set, default_child, len, make_set, modulus_fault,
    set_in_order, stands_in_plain_order,
};
pub use laws::{
    level_ends_fit, level_has_strategy, level_ranges_fit, stored_points_are_all,
    stored_points_ascend,
};
pub use search::{accepts, find_child, find_child_uncounted, overlap, overlap_uncounted};
pub use stored::{owner_of, points_below, ranges_stand_in_row, touches};
