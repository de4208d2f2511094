//! The tables of FROM: found and locked, and their trees.

ghost use Rattle.std.specs.Prelude.{◌≡◌, ◌≤◌, ◌∷◌, [], All, IfOk, length, map};
ghost use Rattle.history.specs.History.{History};
ghost use Rattle.row_router.specs.Histories.{tree_of};
ghost use Rattle.row_router.specs.Seen.{seen};
ghost use Rattle.sql_ast.specs.Queries.{joined_tree};
ghost use Rattle.stores.specs.Events.{look_of};
ghost use Rattle.stores.specs.Stand.{Stands};
ghost use Rattle.statement_steps.specs.Attempts.{MayAttempt};
ghost use Rattle.statement_steps.specs.Known.{IsKnownTo};
ghost use Rattle.statement_steps.specs.Steps.{IsStep};
ghost use Rattle.statement_steps.specs.Below.{number_of};
ghost use Rattle.select_statement.specs.Lent.{IsTreeFor, IsLookFor};
ghost use Rattle.select_statement.specs.Selected as selected;

use pg_values::{ListOf, LockMode, NoMemory, TableNo};
use plan_tree::trees_can_be_pruned;
use row_router::Tree;
use sql_ast::FromItem;
use statement_steps::{Attempt, Caller, Stop, lock_named};
use stores::{Stores, leaves_are_housed};
use tx_table::Snapshot;

/// The tables of the items are found and locked in text order.
pub(crate) fn lock_items(
    attempt: &Attempt<'_>,
    stores: &mut Stores,
    items: &[FromItem],
) -> Result<Vec<TableNo>, Stop>
    requires may { MayAttempt stores.old attempt.now.caller }
    requires few { length stores.old.catalog.tables ≤ 4096 }
    ensures step { IsStep (λ ts. map number_of ts.items) result stores.old stores.new attempt.now.caller attempt.now.caller.cmd (selected.named_from attempt.now.names.now attempt.now.caller [] (map joined_tree items.now)) }
    ensures known { IfOk result (λ ts. All (λ t. IsKnownTo stores.new attempt.now.caller.session t.number) ts.items) }
    ensures count { IfOk result (λ ts. length ts.items ≡ length items.now) }
    ensures rest { stores.new ≡ record stores.old { locks = stores.new.locks } }
{
    let mut tables = Vec::new(attempt.alloc);
    let mut left = items;
    while let Some((item, others)) = left.split_first() {
        let name = item.table.name.as_bytes();
        let table = lock_named(attempt, stores, name, LockMode::AccessShare)?;
        tables.push(table)?;
        left = others;
    }
    Ok(tables)
}

fn read_tree(
    stores: &mut Stores,
    caller: Caller,
    table: TableNo,
    snap: &Snapshot,
) -> Result<Tree, NoMemory>
    requires may { MayAttempt stores.old caller }
    requires few { length stores.old.catalog.tables ≤ 4096 }
    requires known { IsKnownTo stores.old caller.session table.number }
    requires look { IsLookFor stores.old caller snap.now }
    ensures tree { IfOk result (λ t. (h : History) → Stands stores.old h → seen t ≡ tree_of h caller.session table.number (look_of h caller.session caller.cmd)) }
    ensures fit { IfOk result (λ t. IsTreeFor stores.old caller (seen t)) }
    ensures same { stores.new ≡ stores.old }
{
    leaves_are_housed();
    trees_can_be_pruned();
    stores.keep_tree(table, caller.session, snap)
}

/// The trees of the tables under the snapshot of the command, which are kept for the statements that come.
pub(crate) fn read_trees(
    attempt: &Attempt<'_>,
    stores: &mut Stores,
    tables: &[TableNo],
    snap: &Snapshot,
) -> Result<ListOf<Tree>, NoMemory>
    requires may { MayAttempt stores.old attempt.now.caller }
    requires few { length stores.old.catalog.tables ≤ 4096 }
    requires known { All (λ t. IsKnownTo stores.old attempt.now.caller.session t.number) tables.now }
    requires look { IsLookFor stores.old attempt.now.caller snap.now }
    ensures trees { IfOk result (λ trees. (h : History) → Stands stores.old h → map seen trees ≡ selected.trees_for attempt.now.caller (map number_of tables.now) h) }
    ensures each { IfOk result (λ trees. All (λ t. IsTreeFor stores.old attempt.now.caller (seen t)) trees) }
    ensures same { stores.new ≡ stores.old }
{
    let mut trees = Vec::new(attempt.alloc);
    for table in tables {
        trees.push(read_tree(stores, attempt.caller, *table, snap)?)?;
    }
    Ok(ListOf::from_vec(trees))
}
