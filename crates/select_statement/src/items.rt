ghost use Rattle.std.specs.Prelude.{◌≡◌, ◌≤◌, IfOk, length, map};
ghost use Rattle.sql_ast.specs.Queries.{joined_tree};
ghost use Rattle.sql_binder.specs.From as from;
ghost use Rattle.row_router.specs.Seen.{seen};
ghost use Rattle.select_statement.specs.Items as items;

use expression_binder::ScopeItem;
use pg_values::{NoMemory, PgText};
use row_router::{Node, Tree};
use sql_ast::FromItem;
use statement_steps::scope_columns;
use std::alloc::Global;

/// The name that an item of FROM goes by: an alias hides the table's name.
pub(crate) fn item_name(item: &FromItem) -> &[u8]
    ensures { result.now ≡ from.item_name (joined_tree item.now) }
{
    match &item.table.alias {
        None => item.table.name.as_bytes(),
        Some(alias) => alias.as_bytes(),
    }
}

/// What the tree says of its table.
#[tactic(auto, using(crate::proofs::Nodes::node_seen))]
pub(crate) fn node_of(tree: &Tree) -> &Node
    ensures { result.now ≡ items.node_of (seen tree.now) }
{
    &tree.node
}

fn item_of(alloc: Global, number: u32, item: &FromItem, tree: &Tree) -> Result<ScopeItem, NoMemory>
    ensures { IfOk result (λ i. i ≡ items.item_of number (from.item_name (joined_tree item.now)) (seen tree.now)) }
{
    let name = PgText::from_bytes(alloc, item_name(item))?;
    let columns = scope_columns(alloc, node_of(tree).columns.as_slice())?;
    Ok(ScopeItem::new(name, number, columns))
}

/// What the names of a statement stand for: the tables of the trees, under the names that they go by.
pub(crate) fn items_of(
    alloc: Global,
    from_items: &[FromItem],
    trees: &[Tree],
) -> Result<Vec<ScopeItem>, NoMemory>
    requires few { length trees.now ≤ 4 }
    requires each { length from_items.now ≡ length trees.now }
    ensures { IfOk result (λ found. found.items ≡ items.items_of 0 (map joined_tree from_items.now) (map seen trees.now)) }
{
    let mut found = Vec::new(alloc);
    let mut number: u32 = 0;
    for (place, item) in from_items.iter().enumerate() {
        found.push(item_of(alloc, number, item, &trees[place])?)?;
        number += 1;
    }
    Ok(found)
}
