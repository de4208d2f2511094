//! What statements do to a run is legal, and what trees show of partitions that come and go.
//!
//! `soundness` says which events may come, in its own words: worlds, ways through entries, what a
//! transaction owns. Here it is said of what a statement knows: the locks that its session holds, the
//! trees, paths and lists of what is present for the session, the names that it has looked up. Each
//! law takes such knowledge and gives that the statement's events may follow the history, so that all
//! laws of `soundness` hold of what comes out. The laws stand on definitions alone.
//!
//! To each leaf of a tree that a statement reads lead entries that are there for the session, and of which the
//! statement's snapshot sees no mark. So no row is shown through an entry whose mark the snapshot sees, or whose end was
//! committed before; and a partition that was attached again is one by an entry of its own: DETACH ends an entry, and ATTACH
//! adds another one. Where the two are of the same tables with the same bound, what statements find below each table is as
//! if neither had happened.
#![tactic(auto)]

mod laws;
mod shown_partitions;
mod taken_back;

pub use laws::{
    asked_may_follow, attach_may_follow, check_may_follow, drop_may_follow, followed_is_legal,
    leaves_stay_there, listed_is_there, mark_may_follow, named_is_there, new_leaf_may_follow,
    new_level_may_follow, new_partition_may_follow, new_row_may_follow, new_rows_may_follow,
    nobody_else_drops, nobody_else_ends, nobody_else_marks, none_breaks, nothing_is_found,
    old_row_may_follow, skip_may_follow, table_drop_may_follow, there_is_known, tree_is_whole,
    trees_stay,
};
pub use shown_partitions::{attached_again_is_another, trees_show_what_is_attached};
pub use taken_back::detach_and_attach_show_the_same;
