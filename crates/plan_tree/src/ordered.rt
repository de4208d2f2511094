//! Where ORDER BY goes by the bounds of a table's partitions.

ghost use Rattle.std.specs.Prelude.{◌≡◌, ◌≤◌, ◌++◌, [], IfOk, OnOk, length, map};
ghost use Rattle.std.specs.List.{list_any};
ghost use Rattle.cond_logic.specs.Asked.{output_tree, select_meant};
ghost use Rattle.cond_logic.specs.Scalars.{scalar_tree};
ghost use Rattle.row_router.specs.Seen.{seen};
ghost use Rattle.row_router.specs.Trees.{leaves, trees_of};
ghost use Rattle.plan_tree.specs.OrderedAppends as ordered;
ghost use Rattle.plan_tree.specs.Plans.{planned, planned_item};

use crate::parameters::has_parameters;
use crate::{JoinKind, Plan, PlanItem};
use bound_forms::{KeyColumn, Level, is_default};
use cond_logic::{ColumnId, NamedLeaf, Output, Scalar, SelectAsk, SortBy, SortKey};
use part_bounds::{BoundSet, bound, len};
use pg_values::{LeafId, NoMemory, Strategy, ValueKey};
use row_router::{Shape, Tree};
use std::alloc::Global;

// ---- the keys of ORDER BY

fn column_in(value: &Scalar) -> Option<ColumnId>
    ensures { result ≡ ordered.column_in (scalar_tree value.now) }
{
    match value {
        Scalar::Column(column) => Some(*column),
        Scalar::Lit(_) => None,
        Scalar::TableName(_) => None,
        Scalar::Arith(_, _, _) => None,
        Scalar::Cancel(_) => None,
    }
}

// The column that a key stands for.
fn sort_column(outputs: &[Output], by: SortBy) -> Option<ColumnId>
    ensures { result ≡ ordered.sort_column (map output_tree outputs.now) by }
{
    match by {
        SortBy::Output(place) => match outputs.get(place) {
            Some(output) => column_in(&output.value),
            None => None,
        },
        SortBy::Column(column) => Some(column),
        SortBy::TableName(_) => None,
    }
}

fn is_at(position: usize, column: Option<ColumnId>) -> bool
    ensures { result ≡ ordered.is_at position column }
{
    match column {
        Some(column) => column.position == position,
        None => false,
    }
}

fn goes_by(outputs: &[Output], key: &SortKey, column: &KeyColumn) -> bool
    ensures { result ≡ ordered.goes_by (map output_tree outputs.now) key.now column.now }
{
    !key.descending && !key.nulls_first && is_at(column.position, sort_column(outputs, key.by))
}

#[tactic(auto, using(crate::proofs::OrderedParts::keys_end, crate::proofs::OrderedParts::key_step))]
fn begins_with(outputs: &[Output], order: &[SortKey], columns: &[KeyColumn]) -> bool
    ensures { result ≡ ordered.begins_with (map output_tree outputs.now) order.now columns.now }
{
    for (place, column) in columns.iter().enumerate() {
        if place >= order.len() {
            return false;
        }
        if !goes_by(outputs, &order[place], column) {
            return false;
        }
    }
    true
}

fn is_range(strategy: Strategy) -> bool
    ensures { result ≡ ordered.is_range strategy }
{
    matches!(strategy, Strategy::Range)
}

fn is_nested(join: JoinKind) -> bool
    ensures { result ≡ ordered.is_nested join }
{
    matches!(join, JoinKind::NestedLoop)
}

fn is_settled(item: &PlanItem<'_>) -> bool
    ensures { result ≡ ordered.is_settled (planned_item item.now) }
{
    is_nested(item.join) && !item.is_asked_again && !has_parameters(item.conjuncts.as_slice())
}

fn follows(ask: &SelectAsk, item: &PlanItem<'_>, level: &Level) -> bool
    ensures { result ≡ ordered.follows (select_meant ask.now) (planned_item item.now) level.now }
{
    is_range(level.strategy)
        && begins_with(
            ask.outputs.as_slice(),
            ask.order.as_slice(),
            level.columns.as_slice(),
        )
        && is_settled(item)
}

// ---- the partitions

// Whether the leaf lies under the table of the tree.
#[tactic(auto, using(crate::proofs::OrderedParts::held_by))]
fn holds(tree: &Tree, leaf: LeafId) -> bool
    ensures { result ≡ list_any (ordered.is_leaf leaf) (leaves (seen tree.now)) }
{
    match &tree.shape {
        Shape::Leaf(own) => own.number == leaf.number,
        Shape::Level(_, _, children) => {
            for child in children.as_slice() {
                if holds(child, leaf) {
                    return true;
                }
            }
            false
        }
    }
}

// How many of the first leaves lie under it.
#[tactic(auto, using(crate::proofs::OrderedParts::under_yes, crate::proofs::OrderedParts::under_no, crate::proofs::OrderedParts::under_end))]
fn count_under(tree: &Tree, leaves: &[NamedLeaf<'_>]) -> usize
    ensures told { result ≡ ordered.first_under (seen tree.now) leaves.now }
    ensures few { result ≤ length leaves.now }
{
    let mut count: usize = 0;
    for leaf in leaves {
        if !holds(tree, leaf.id) {
            return count;
        }
        count += 1;
    }
    count
}

fn push_part<'p, 't>(
    part: &'p [NamedLeaf<'t>],
    parts: &mut Vec<&'p [NamedLeaf<'t>]>,
) -> Result<(), NoMemory>
    ensures { OnOk result (map (λ p. p.now) parts.new.items ≡ map (λ p. p.now) parts.old.items ++ ordered.put_part part.now []) }
{
    if part.is_empty() {
        return Ok(());
    }
    parts.push(part)?;
    Ok(())
}

// Puts the leaves under each child but the default behind the list, and tells how many these are.
fn push_parts<'p, 't>(
    set: &BoundSet<ValueKey>,
    children: &[Tree],
    leaves: &'p [NamedLeaf<'t>],
    parts: &mut Vec<&'p [NamedLeaf<'t>]>,
) -> Result<usize, NoMemory>
    ensures parts { OnOk result (map (λ p. p.now) parts.new.items ≡ map (λ p. p.now) parts.old.items ++ ordered.parts_under leaves.now set.now (trees_of (map seen children.now))) }
    ensures count { IfOk result (λ n. n ≡ length (ordered.parts_joined (ordered.parts_under leaves.now set.now (trees_of (map seen children.now))))) }
{
    let mut start: usize = 0;
    for (place, child) in children.iter().enumerate() {
        if place >= len(set) {
            return Ok(start);
        }
        if is_default(bound(set, place)) {
            return Ok(start);
        }
        let count = count_under(child, &leaves[start..]);
        push_part(&leaves[start..start + count], parts)?;
        start += count;
    }
    Ok(start)
}

#[tactic(auto, using(crate::proofs::OrderedParts::parts_kept, crate::proofs::OrderedParts::parts_few, crate::proofs::OrderedParts::parts_torn))]
fn parts_in<'p, 't>(
    alloc: Global,
    ask: &SelectAsk,
    item: &'p PlanItem<'t>,
) -> Result<Vec<&'p [NamedLeaf<'t>]>, NoMemory>
    ensures { IfOk result (λ ps. map (λ p. p.now) ps.items ≡ ordered.parts_in (select_meant ask.now) (planned_item item.now) (seen item.now.tree.now)) }
{
    match &item.tree.shape {
        Shape::Leaf(_) => Ok(Vec::new(alloc)),
        Shape::Level(level, set, children) => {
            if !follows(ask, item, level) {
                return Ok(Vec::new(alloc));
            }
            let leaves = item.leaves.as_slice();
            let mut parts = Vec::new(alloc);
            let count = push_parts(set, children.as_slice(), leaves, &mut parts)?;
            if parts.len() < 2 {
                return Ok(Vec::new(alloc));
            }
            if count != leaves.len() {
                return Ok(Vec::new(alloc));
            }
            Ok(parts)
        }
    }
}

impl<'t> Plan<'t> {
    /// The leaves of each part of an Ordered Append, the rows of which are sorted by themselves; none where the
    /// plan has none.
    pub fn sorted_parts<'p>(
        &'p self,
        alloc: Global,
        ask: &SelectAsk,
    ) -> Result<Vec<&'p [NamedLeaf<'t>]>, NoMemory>
        ensures { IfOk result (λ ps. map (λ p. p.now) ps.items ≡ ordered.sorted_parts (select_meant ask.now) (planned self.now)) }
    {
        let items = self.items.as_slice();
        if self.pairs.is_some() || items.len() != 1 {
            return Ok(Vec::new(alloc));
        }
        let item = &items[0];
        if item.part.is_some() {
            return Ok(Vec::new(alloc));
        }
        parts_in(alloc, ask, item)
    }
}
