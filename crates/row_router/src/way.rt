ghost use Rattle.std.specs.Prelude.{◌≡◌, ◌≤◌, ◌-◌, ◌^◌};
ghost use Rattle.row_router.specs.Trees.{routed, accepting, found_leaf, Fits};
ghost use Rattle.row_router.specs.Seen.{seen};
ghost use Rattle.row_router.specs.Costs.{way_outcomes};

use crate::{LevelKey, NoPartition, Shape, Tree};
use part_bounds::{find_child, stands_in_plain_order};
use pg_values::{LeafId, Row, Steps};
use std::sync::ledger::Ledger;

/// The one leaf of the tree that accepts the row; or, where none does, the table at which the row
/// found no partition. Each level on the way is searched by halves.
pub fn route<L: Ledger>(tree: &Tree, row: &Row, steps: &mut Steps<L>) -> Result<LeafId, NoPartition>
    requires { Fits row.now (seen tree.now) }
    ensures way { result ≡ routed row.now (seen tree.now) }
    ensures one { accepting row.now (seen tree.now) ≡ found_leaf result }
    ensures later { steps.old ≤ steps.new }
    ensures cost { 2 ^ (steps.new - steps.old) ≤ way_outcomes row.now (seen tree.now) }
{
    let mut node = tree;
    loop {
        match &node.shape {
            Shape::Leaf(leaf) => return Ok(*leaf),
            Shape::Level(level, bounds, children) => {
                stands_in_plain_order(bounds);
                let columns = level.columns.as_slice();
                match find_child(bounds, &LevelKey { row, columns }, steps) {
                    Some(child) => {
                        node = children.at(child);
                    }
                    None => {
                        return Err(NoPartition {
                            table: node.node.table,
                        });
                    }
                }
            }
        }
    }
}
