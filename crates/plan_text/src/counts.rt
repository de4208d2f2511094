//! What was counted of the nodes of a plan that was run.

ghost use Rattle.std.specs.Prelude.{◌≡◌, map, option_map};
ghost use Rattle.cond_logic.specs.Tuples.{lent};
ghost use Rattle.plan_tree.specs.Counts as spec;
ghost use Rattle.plan_tree.specs.Plans.{planned_item, planned_pair};

use cond_logic::NamedLeaf;
use pg_values::LeafId;
use plan_tree::{Count, PlanCounts, PlanItem, PlanPair};

/// Of the scan of a leaf.
pub(crate) fn of_scan(counts: Option<&PlanCounts>, item: u32, leaf: LeafId) -> Option<Count>
    ensures { result ≡ option_map (spec.scan_count item leaf) (lent counts.entry) }
{
    match counts {
        None => None,
        Some(counts) => Some(counts.of_scan(item, leaf)),
    }
}

/// Of an item's Append.
pub(crate) fn of_append(counts: Option<&PlanCounts>, item: &PlanItem<'_>) -> Option<Count>
    ensures { result ≡ option_map (spec.append_count (planned_item item.now).number (planned_item item.now).part) (lent counts.entry) }
{
    match counts {
        None => None,
        Some(counts) => Some(counts.of_append(item)),
    }
}

/// Of the join of an item with those before it.
pub(crate) fn of_join(counts: Option<&PlanCounts>, item: &PlanItem<'_>) -> Option<Count>
    ensures { result ≡ option_map (spec.join_count (planned_item item.now).number (planned_item item.now).part) (lent counts.entry) }
{
    match counts {
        None => None,
        Some(counts) => Some(counts.of_join(item)),
    }
}

/// Of an Append of the joins of pairs, and of a Result in the place of none.
pub(crate) fn of_pairs(counts: Option<&PlanCounts>, pairs: &[PlanPair<'_>]) -> Option<Count>
    ensures { result ≡ option_map (spec.pairs_count (map planned_pair pairs.now)) (lent counts.entry) }
{
    match counts {
        None => None,
        Some(counts) => Some(counts.of_pairs(pairs)),
    }
}

/// Of the Sort of a part of an item, and of an Append of its scans.
pub(crate) fn of_part(
    counts: Option<&PlanCounts>,
    item: u32,
    leaves: &[NamedLeaf<'_>],
) -> Option<Count>
    ensures { result ≡ option_map (spec.part_count item leaves.now) (lent counts.entry) }
{
    match counts {
        None => None,
        Some(counts) => Some(counts.of_part(item, leaves)),
    }
}

/// Of a Sort, of an Ordered Append, and of a Result in the place of items.
pub(crate) fn of_given(counts: Option<&PlanCounts>) -> Option<Count>
    ensures { result ≡ option_map spec.given_count (lent counts.entry) }
{
    match counts {
        None => None,
        Some(counts) => Some(counts.of_given()),
    }
}

/// Of a Limit.
pub(crate) fn of_answer(counts: Option<&PlanCounts>) -> Option<Count>
    ensures { result ≡ option_map spec.answer_count (lent counts.entry) }
{
    match counts {
        None => None,
        Some(counts) => Some(counts.of_answer()),
    }
}
