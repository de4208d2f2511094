ghost use Rattle.std.specs.Prelude.{◌<◌, IfOk, length};
ghost use Rattle.row_router.specs.Seen.{seen};
ghost use Rattle.statement_steps.specs.Attempts.{MayAttempt};
ghost use Rattle.statement_steps.specs.Rights.{IsReadOf};

use crate::Attempt;
use pg_values::{NoMemory, TableNo};
use row_router::{PathPart, Tree};
use stores::{Stores, trees_are_together};

/// The tree that the session's command reads of a table, and the path above it.
pub fn tree_and_path(
    attempt: &Attempt<'_>,
    stores: &Stores,
    table: TableNo,
) -> Result<(Tree, Vec<PathPart>), NoMemory>
    requires may { MayAttempt stores.now attempt.now.caller }
    requires known { table.number < length stores.now.catalog.tables }
    ensures { IfOk result (λ found. IsReadOf stores.now.txs stores.now.catalog attempt.now.caller table (seen found.0) found.1.items) }
{
    trees_are_together();
    let look = stores.look(attempt.alloc, attempt.caller.session, attempt.caller.cmd)?;
    let txs = &stores.txs;
    let catalog = &stores.catalog;
    let tree = catalog.tree(attempt.alloc, txs, table, attempt.caller.session, &look)?;
    let path = catalog.path(attempt.alloc, txs, table, attempt.caller.session)?;
    Ok((tree, path))
}
