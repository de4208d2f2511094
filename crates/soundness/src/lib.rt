//! Each row that a tree of tables shows lies in the one leaf of it that accepts the row, whatever
//! sessions do.
//!
//! The invariant is stated for worlds: sets of transactions that have each committed one and no
//! aborted one. What a session has, what is committed alone, and what will be there after any
//! commits and aborts are such sets, so the ends of transactions only take worlds away. An event
//! that adds something keeps the invariant in each world of its transaction, by the locks that the
//! transaction holds: whatever another one has done there, it would have needed a lock that
//! conflicts with these.
//!
//! The laws stand on definitions alone: `specs/Parts.antt` has the parts of the invariant,
//! `specs/Legal.antt` what is locked, tested and scanned before each kind of event.
#![tactic(auto)]

mod laws;

pub use laws::{
    attach_can_be_met, attach_may_skip, children_are_counted, conditions_can_be_met, create_is_add,
    leaves_have_columns, legal_keeps_all, legal_keeps_checks, legal_keeps_columns,
    one_leaf_accepts, path_accepts, path_passes, routed_accepts, routed_are_of_columns,
    rows_are_of_trees, rows_pass, sessions_have_siblings, skip_can_be_met, tree_has_all_below,
    waiting_accept, waiting_pass, ways_are_short,
};
