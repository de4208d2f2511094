//! The plan of a SELECT: what is asked of the rows of each item of FROM, and which leaves are read.
//!
//! The conjuncts of WHERE and of all ON are pooled. Each is asked at the first item at which all its columns
//! are there: a scan asks those that name no other item, the join with the items before it asks the others.
//! An item's leaves are those that its own conjuncts keep. A conjunct that joins it with items before says
//! more once their rows are known: then the leaves are asked again beside each tuple, with the values of its
//! rows in the places of their columns (`PlanItem::leaves_beside`). Items are joined from the left, by nested loops,
//! the first item outermost. Where an equality of columns joins an item with those before it, the join is a Hash
//! Join: it reads the leaves of the item before those to its left, once, so these are not asked again
//! (`JoinKind`). Where an item keeps no leaf when the plan is made, nothing is locked and nothing is read.
//!
//! Where the keys of ORDER BY begin with those of a table that is partitioned by range, ascending, its partitions stand in the
//! order of the rows already: then each is sorted by itself (`Plan::sorted_parts`).
//!
//! The first two items are joined partition by partition where the session asks for it and their tables are partitioned alike: by
//! the same strategy and kinds, with equal bounds (`match_children`), and each partition key column of the one is equal to that of
//! the other by a conjunct. Then no row of a partition has its like in another, and two partitions are a pair that is joined by
//! itself (`PlanPair`): each item stands over one partition alone.
//!
//! A generic plan is made of conditions with parameters in them, whose values are not known yet. When it starts
//! (`Plan::start`), each item that has such a condition keeps of its leaves those that these values keep too; the
//! others stay locked, are not read, and are counted.
//!
//! What happens while a plan is run is counted, for EXPLAIN ANALYZE, node by node (`PlanCounts`): a node's rows and loops
//! are how often that happened (`counts_are_times`).
//!
//! A plan lends the trees of its tables. Contracts speak of it without where it lies in memory (`planned`).
//!
//! The leaves of a tree that a condition keeps, and the tables that lead to them.
//!
//! A leaf is kept where each level on its way keeps the child, by the pruning steps of the condition at that
//! level; a plain table is kept as the one child of a level without key columns would be. `prune_tree` gives
//! what a statement reads and locks: the kept leaves in plain order, and the tables under the named one that
//! lead to them; `prune_item` gives them for one of several FROM items, by several conditions at once. It asks the levels that it comes to and no others, and takes no memory but for its lists.
//!
//! No row that passes is missed: as lists in plain order the rows of all leaves that pass are those of the
//! kept leaves (`none_is_missed`), wherever rows lie in leaves that accept them, as they do in each history
//! of the stores (`shown_lie_right`, `trees_can_be_pruned`, `trees_stand_in_order`).
#![tactic(auto)]

mod asking;
mod asks;
mod condition;
mod conjuncts;
mod count;
mod item;
mod item_counts;
mod items;
mod join_kind;
mod laws;
mod listing;
mod making;
mod ordered;
mod pairs;
mod parameters;
mod plain_bounds;
mod plain_set;
mod plan;
mod plan_counts;
mod planning;
mod pruning;
mod rows_beside;

pub use condition::{all_hold, copy_cond};
pub use count::{Count, PartCount};
pub use item::PlanItem;
pub use join_kind::{Equality, JoinKind};
pub use laws::{
    counts_are_times, none_is_missed, shown_lie_right, trees_can_be_pruned, trees_stand_in_order,
};
pub use making::make_plan;
pub use pairs::{PlanPair, match_children};
pub use plain_set::PlainSet;
pub use plan::Plan;
pub use plan_counts::PlanCounts;
pub use planning::Planning;
pub use pruning::{KeptParts, prune_item, prune_tree};
