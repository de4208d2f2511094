//! Which partitions of one table a condition keeps: partition pruning, level by level.
//!
//! `Pruning::new` reads a condition once, for all levels and all that will be known: its parameters, and its
//! columns of other items of FROM, stay places. `Pruning::run` asks a level's bounds with it, beside what is
//! known by then, and gives the set of the children that are kept. It takes no memory.
//!
//! A comparison on a key column, behind equalities on the key columns before it, is a chain: an interval of
//! points. Of a level by range it keeps a run of children, whose two ends are searched by halves, and
//! perhaps the default. Of a level by list the values that pass stand in a run of the sorted array. A level
//! by hash keeps one child where the condition gives each key column a value. AND meets the sets of its
//! parts, OR joins them; the sets lie on the stack, one for each level of nesting.
//!
//! Contracts say what is kept child by child (`specs/Kept.antt`), without runs, searches or sets. A row
//! that passes the condition lies in a kept child (`pruning_is_sound`).
#![tactic(auto)]

mod asked;
mod asking;
mod atoms;
mod chain;
mod child_counts;
mod counts;
mod given_key;
mod keeping;
mod kept_set;
mod known;
mod laws;
mod lists;
mod marks;
mod pruning;

pub use kept_set::KeptSet;
pub use laws::{parts_are_conjuncts, pruning_is_sound, pushing_keeps_alike};
pub use pruning::Pruning;
