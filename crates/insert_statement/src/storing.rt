ghost use Rattle.std.specs.Prelude.{◌+◌};
ghost use Rattle.statement_steps.specs.Attempts.{MayAttempt};
ghost use Rattle.statement_steps.specs.Steps.{IsStep};
ghost use Rattle.insert_statement.specs.Asked.{MayStore, put};

use pg_values::{LeafId, Row};
use row_change::{Target, store_rows};
use statement_steps::{Attempt, Stop};
use stores::Stores;

/// Stores each row in its leaf, after the tests that its target asks for.
pub(crate) fn put_rows(
    attempt: &Attempt<'_>,
    stores: &mut Stores,
    targets: &[Target],
    leaves: &[LeafId],
    rows: Vec<Row>,
) -> Result<(), Stop>
    requires may { MayAttempt stores.old attempt.now.caller }
    requires rows { MayStore stores.old attempt.now.caller.session targets.now leaves.now rows.items }
    ensures { IsStep (λ u. u) result stores.old stores.new attempt.now.caller (attempt.now.caller.cmd + 1) (put targets.now attempt.now.caller leaves.now rows.items) }
{
    let alloc = attempt.alloc;
    let cmd = attempt.caller.cmd;
    let Some(by) = stores.txs.open_of(attempt.caller.session) else {
        unreachable!()
    };
    let Stores {
        txs,
        rows: store,
        catalog,
        ..
    } = stores;
    store_rows(alloc, catalog, txs, store, targets, leaves, rows, by, cmd)?;
    Ok(())
}
