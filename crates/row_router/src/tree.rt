ghost use Rattle.std.specs.Prelude.{◌≡◌, ◌<◌, List, map, get_or, length, IfOk};
ghost use Rattle.row_router.specs.Trees.{LeafTable, LevelTable, trees_of};
ghost use Rattle.row_router.specs.Seen.{seen, items_of};

use crate::{Node, copy_level};
use bound_forms::Level;
use part_bounds::{BoundSet, copy_set};
use pg_values::{LeafId, NoMemory, TableNo, ValueKey};
use std::alloc::Global;
use std::rc::Rc;

/// A table with what stands below it.
#[cycle(tree)]
#[derive(Drop)]
pub struct Tree {
    pub node: Node,
    pub shape: Shape,
}

/// The leaf of a table that holds rows; or the level of a partitioned table, with the bounds of its
/// partitions in plain order and the trees of the partitions in the same order.
#[cycle(tree)]
#[derive(Drop)]
pub enum Shape {
    Leaf(LeafId),
    Level(Level, BoundSet<ValueKey>, TreeList),
}

/// Trees in order, which all who have the list share.
#[cycle(tree)]
#[derive(Drop)]
pub struct TreeList {
    trees: Rc<Vec<Tree>>,
}

/// No leaf below the table accepts the row, and the row came down to this table.
#[derive(Clone, Copy, Debug, PartialEq, Eq)]
pub struct NoPartition {
    pub table: TableNo,
}

impl TreeList {
    pub fn new(alloc: Global, trees: Vec<Tree>) -> Result<Self, NoMemory>
        ensures { IfOk result (λ l. items_of l ≡ trees.items) }
    {
        Ok(TreeList {
            trees: Rc::new(alloc, trees)?,
        })
    }

    /// The same list.
    pub fn share(&self) -> Result<Self, NoMemory>
        ensures { IfOk result (λ l. items_of l ≡ items_of self.now) }
    {
        Ok(TreeList {
            trees: self.trees.clone()?,
        })
    }

    pub fn len(&self) -> usize
        ensures { result ≡ length (items_of self.now) }
    {
        self.trees.len()
    }

    pub fn at(&self, i: usize) -> &Tree
        requires { i < length (items_of self.now) }
        ensures { result.now ≡ get_or (items_of self.now) i result.now }
    {
        &self.trees[i]
    }

    pub fn as_slice(&self) -> &[Tree]
        ensures { result.now ≡ items_of self.now }
    {
        &self.trees
    }
}

impl Tree {
    /// The same tree. What stands below its table is shared.
    pub fn share(&self, alloc: Global) -> Result<Self, NoMemory>
        ensures { IfOk result (λ t. seen t ≡ seen self.now) }
    {
        let node = self.node.copy(alloc)?;
        match &self.shape {
            Shape::Leaf(leaf) => Ok(Tree::leaf(node, *leaf)),
            Shape::Level(level, bounds, trees) => {
                let level = copy_level(alloc, level)?;
                let bounds = copy_set(bounds)?;
                let trees = trees.share()?;
                Ok(Tree::level(node, level, bounds, trees))
            }
        }
    }

    /// A table with rows of its own.
    pub fn leaf(node: Node, leaf: LeafId) -> Self
        ensures { seen result ≡ LeafTable node leaf }
    {
        Tree {
            node,
            shape: Shape::Leaf(leaf),
        }
    }

    /// A table with partitions, each under its bound.
    pub fn level(node: Node, level: Level, bounds: BoundSet<ValueKey>, trees: TreeList) -> Self
        ensures { seen result ≡ LevelTable node level bounds (trees_of (map seen (items_of trees))) }
    {
        Tree {
            node,
            shape: Shape::Level(level, bounds, trees),
        }
    }
}
