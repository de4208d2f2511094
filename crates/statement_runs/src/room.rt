ghost use Rattle.std.specs.Prelude.{◌≤◌, length};
ghost use Rattle.statement_steps.specs.Attempts.{MayAttempt};

use statement_steps::Caller;
use stores::{Stores, tables_are_few};

// There is a lock for each table.
pub(crate) fn check_room(stores: &Stores, caller: Caller)
    requires { MayAttempt stores.now caller }
    ensures { length stores.now.catalog.tables ≤ 4096 }
{
    tables_are_few();
}
