ghost use Rattle.change_statement.specs.Laws.{KeptHaveAllTargets, PrunedChangesArePlain};

use plan_tree::{none_is_missed, shown_lie_right, trees_can_be_pruned};

/// In each history of the stores the rows that an UPDATE or a DELETE finds in the leaves that its condition
/// keeps are those that it would find in all leaves of the tree, in the same order.
pub fn kept_have_all_targets()
    ensures { KeptHaveAllTargets }
{
    none_is_missed();
    shown_lie_right();
    trees_can_be_pruned();
}

/// In each history of the stores an UPDATE or a DELETE that reads the leaves which its condition keeps makes the
/// same of it, events and answer, as one that reads all leaves.
pub fn pruned_changes_are_plain()
    ensures { PrunedChangesArePlain }
{
    none_is_missed();
    shown_lie_right();
    trees_can_be_pruned();
}
