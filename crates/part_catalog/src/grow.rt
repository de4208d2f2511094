//! Trees over plain lists: all tables, all entries, and which of them are to be shown.

ghost use Rattle.std.specs.Prelude.{◌≡◌, ◌<◌, ℕ, map, filter, get_or, length, IfOk};
ghost use Rattle.row_router.specs.Seen.{seen};
ghost use Rattle.row_router.specs.Trees.{LeafTable};
ghost use Rattle.row_router.specs.Histories.{tree_within, node_at, children, bound_of};
ghost use Rattle.history.specs.Places.{table_at};
ghost use Rattle.part_catalog.specs.Kept.{table_in, by_place};
ghost use Rattle.part_catalog.specs.Stands.{is_flagged};
ghost use Rattle.part_catalog.specs.Groves.{IsGrove, IsLevel};

use crate::below::Below;
use crate::stored::{StoredEntry, StoredTable};
use bound_forms::copy_bound;
use history::TableShape;
use part_bounds::{BoundSet, set_in_order};
use pg_values::{LeafId, NoMemory, TableNo, ValueKey};
use row_router::{Node, Tree, TreeList, copy_level};
use std::alloc::Global;

// What a tree of the table `named` says of a table in it.
fn node(
    alloc: Global,
    tables: &[StoredTable],
    _named: TableNo,
    table: TableNo,
) -> Result<Node, NoMemory>
    requires { table.number < length tables.now }
    ensures { IfOk result (λ n. n ≡ node_at (map table_in tables.now) _named.number table.number) }
{
    let stored = &tables[table.number as usize];
    let name = stored.table.name.copy(alloc)?;
    let columns = stored.table.columns.copy(alloc)?;
    Ok(Node {
        table,
        name,
        columns,
    })
}

/// A table that is not partitioned.
pub fn leaf(
    alloc: Global,
    tables: &[StoredTable],
    table: TableNo,
    leaf: LeafId,
) -> Result<Tree, NoMemory>
    requires { table.number < length tables.now }
    ensures { IfOk result (λ t. seen t ≡ LeafTable (node_at (map table_in tables.now) table.number table.number) leaf) }
{
    let node = node(alloc, tables, table, table)?;
    Ok(Tree::leaf(node, leaf))
}

/// The bounds of the shown entries below a table, which stand in plain order already.
pub fn set_below(
    alloc: Global,
    entries: &[StoredEntry],
    below: &Below,
    flags: &[bool],
    _table: TableNo,
) -> Result<BoundSet<ValueKey>, NoMemory>
    requires { IsLevel entries.now below.now flags.now _table.number }
    ensures { IfOk result (λ set. set ≡ map bound_of (filter (is_flagged flags.now) (children (by_place entries.now) _table.number))) }
{
    let mut bounds = Vec::with_capacity(alloc, below.numbers().len())?;
    for number in below.numbers() {
        if flags[*number as usize] {
            bounds.push(copy_bound(alloc, &entries[*number as usize].entry.bound)?)?;
        }
    }
    let set = set_in_order(alloc, bounds, ValueKey)?;
    Ok(set)
}

/// A table with the shown entries below it, so many levels deep.
pub fn grow(
    alloc: Global,
    tables: &[StoredTable],
    entries: &[StoredEntry],
    below: &[Below],
    flags: &[bool],
    named: TableNo,
    table: TableNo,
    depth: usize,
) -> Result<Tree, NoMemory>
    requires grove { IsGrove tables.now entries.now below.now flags.now }
    requires known { table.number < length tables.now }
    ensures { IfOk result (λ t. seen t ≡ tree_within depth (map table_in tables.now)
        (filter (is_flagged flags.now) (by_place entries.now)) named.number table.number) }
{
    let node = node(alloc, tables, named, table)?;
    match &tables[table.number as usize].table.shape {
        TableShape::Leaf(leaf) => Ok(Tree::leaf(node, *leaf)),
        TableShape::Level(level) => {
            let level = copy_level(alloc, level)?;
            if depth == 0 {
                let none = set_in_order(alloc, Vec::new(alloc), ValueKey)?;
                let trees = Vec::new(alloc);
                let bare = TreeList::new(alloc, trees)?;
                return Ok(Tree::level(node, level, none, bare));
            }
            let list = &below[table.number as usize];
            let mut trees = Vec::with_capacity(alloc, list.numbers().len())?;
            for number in list.numbers() {
                if flags[*number as usize] {
                    let child = entries[*number as usize].entry.child;
                    let tree = grow(
                        alloc,
                        tables,
                        entries,
                        below,
                        flags,
                        named,
                        child,
                        depth - 1,
                    )?;
                    trees.push(tree)?;
                }
            }
            let bounds = set_below(alloc, entries, list, flags, table)?;
            let shared = TreeList::new(alloc, trees)?;
            Ok(Tree::level(node, level, bounds, shared))
        }
    }
}
