//! A row version that is ended.

ghost use Rattle.std.specs.Prelude.{◌≡◌, ◌<◌, true, Ok, length};
ghost use Rattle.history.specs.declared.version.Ending.TheVariants.{Deleted};
ghost use Rattle.history.specs.History.{History, stands};
ghost use Rattle.row_change.specs.Succession.{KeepsVersions};
ghost use Rattle.statement_steps.specs.Attempts.{MayAttempt};
ghost use Rattle.statement_steps.specs.Gathered.{found_of};
ghost use Rattle.change_statement.specs.Deleted.{ended};
ghost use Rattle.change_statement.specs.Running.{IsRun, MayEndIn, MayRun};

use pg_values::RowId;
use statement_steps::{Caller, Gathered};
use stores::Stores;

/// The version ends as deleted.
pub(crate) fn end_row(stores: &mut Stores, caller: Caller, gathered: &Gathered, id: RowId)
    requires may { MayRun (found_of gathered.now) stores.old caller }
    requires row { MayEndIn (found_of gathered.now) stores.old caller id }
    ensures run { IsRun (found_of gathered.now) (λ u. u) (Ok tt) stores.old stores.new caller (ended caller Deleted id) }
    ensures rest { stores.new ≡ record stores.old { rows = stores.new.rows } }
    ensures keeps { KeepsVersions stores.old.rows stores.new.rows }
{
    let Some(by) = stores.txs.open_of(caller.session) else {
        unreachable!()
    };
    let Stores { txs, rows, .. } = stores;
    rows.end_version(txs, id, by, caller.cmd, None);
}
