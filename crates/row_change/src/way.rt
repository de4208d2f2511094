//! The tables on the way of a row, and to a leaf.

ghost use Rattle.std.specs.Prelude.{◌≡◌, ◌≤◌, ◌-◌, ◌^◌, ◌++◌, true, false, Some, None, OnOk, IfOk, MatchOption};
ghost use Rattle.row_router.specs.Trees.{routed, Fits};
ghost use Rattle.row_router.specs.Seen.{seen};
ghost use Rattle.row_router.specs.Costs.{way_outcomes};
ghost use Rattle.row_change.specs.Ways.{way_below, way_to};

use part_bounds::{find_child, stands_in_plain_order};
use pg_values::{LeafId, NoMemory, Row, Steps, TableNo};
use row_router::{LevelKey, NoPartition, Shape, Tree};
use std::alloc::Global;
use std::sync::ledger::Ledger;

/// The leaf of a row, or the table at which it is lost: each level on the way is searched by halves. The tables
/// below the tree's own that the row comes to are put behind the list, each before those below it.
pub fn push_way<L: Ledger>(
    tree: &Tree,
    row: &Row,
    steps: &mut Steps<L>,
    out: &mut Vec<TableNo>,
) -> Result<Result<LeafId, NoPartition>, NoMemory>
    requires { Fits row.now (seen tree.now) }
    ensures leaf { IfOk result (λ found. found ≡ routed row.now (seen tree.now)) }
    ensures tables { OnOk result (out.new.items ≡ out.old.items ++ way_below row.now (seen tree.now)) }
    ensures later { steps.old ≤ steps.new }
    ensures cost { 2 ^ (steps.new - steps.old) ≤ way_outcomes row.now (seen tree.now) }
{
    let mut node = tree;
    loop {
        match &node.shape {
            Shape::Leaf(leaf) => return Ok(Ok(*leaf)),
            Shape::Level(level, bounds, children) => {
                stands_in_plain_order(bounds);
                let columns = level.columns.as_slice();
                match find_child(bounds, &LevelKey { row, columns }, steps) {
                    Some(child) => {
                        node = children.at(child);
                        out.push(node.node.table)?;
                    }
                    None => {
                        return Ok(Err(NoPartition {
                            table: node.node.table,
                        }));
                    }
                }
            }
        }
    }
}

// Puts the way to a leaf behind the list, where a table of the tree has it.
fn push_way_to(tree: &Tree, leaf: LeafId, out: &mut Vec<TableNo>) -> Result<bool, NoMemory>
    ensures { IfOk result (λ found. MatchOption (way_to leaf (seen tree.now)) ((found ≡ false) × (out.new.items ≡ out.old.items)) (λ tables. (found ≡ true) × (out.new.items ≡ out.old.items ++ tables))) }
{
    match &tree.shape {
        Shape::Leaf(own) => Ok(own.number == leaf.number),
        Shape::Level(_, _, children) => {
            for child in children.as_slice() {
                out.push(child.node.table)?;
                if push_way_to(child, leaf, out)? {
                    return Ok(true);
                }
                out.pop();
            }
            Ok(false)
        }
    }
}

/// The tables below the tree's own on the way to a leaf, each before those below it; none where no table of
/// the tree has the leaf.
pub fn leaf_way(alloc: Global, tree: &Tree, leaf: LeafId) -> Result<Option<Vec<TableNo>>, NoMemory>
    ensures { IfOk result (λ way. MatchOption way (way_to leaf (seen tree.now) ≡ None) (λ tables. way_to leaf (seen tree.now) ≡ Some tables.items)) }
{
    let mut tables = Vec::new(alloc);
    if push_way_to(tree, leaf, &mut tables)? {
        Ok(Some(tables))
    } else {
        Ok(None)
    }
}
