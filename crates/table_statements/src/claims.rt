//! The name of a new table.
//!
//! In PostgreSQL a table's name is a key of a unique index of pg_class. Whoever adds a key that another
//! open transaction has added waits until that one has ended: where it was committed the name is taken, and
//! where it was aborted the name is free again.

ghost use Rattle.std.specs.Prelude.{◌≡◌, ◌<◌, None, IfOk};
ghost use Rattle.history.specs.History.{History};
ghost use Rattle.tx_table.specs.Stands.{TableStands};
ghost use Rattle.part_catalog.specs.Found.{taken_by};
ghost use Rattle.part_catalog.specs.Stands.{CatalogueStands};
ghost use Rattle.statement_steps.specs.Attempts.{MayAttempt};
ghost use Rattle.statement_steps.specs.Steps.{IsStep};
ghost use Rattle.table_statements.specs.Asked.{IsFree};
ghost use Rattle.table_statements.specs.Claims as claims;

use history::WaitOn;
use part_ddl::check_name;
use pg_values::SessionSet;
use statement_steps::{Attempt, Stop, wait_for};
use stores::Stores;

// The session alone.
fn only(session: u32) -> SessionSet
    requires { session < 128 }
    ensures { result ≡ claims.only session }
{
    SessionSet::empty().with(session)
}

// A part: no other open transaction has given the name to a table, or its end is waited for, and the statement
// begins anew then.
fn wait_for_name(attempt: &Attempt<'_>, stores: &mut Stores, name: &[u8]) -> Result<(), Stop>
    requires may { MayAttempt stores.old attempt.now.caller }
    ensures step { IsStep (λ u. u) result stores.old stores.new attempt.now.caller attempt.now.caller.cmd (claims.name_waited attempt.now.names.now attempt.now.caller.session name.now) }
    ensures unclaimed { IfOk result (λ u. (h : History) → TableStands stores.new.txs h → CatalogueStands stores.new.catalog h → taken_by h attempt.now.caller.session name.now ≡ None) }
    ensures rest { stores.new ≡ record stores.old { locks = stores.new.locks } }
{
    let session = attempt.caller.session;
    match stores.catalog.name_taken_by(&stores.txs, session, name) {
        None => Ok(()),
        Some(other) => {
            let set = only(other);
            wait_for(attempt, stores, WaitOn::Ends(set), None)
        }
    }
}

/// A part: a new table may get the name. No table has it that is there for the session (42P07), and no other
/// open transaction has given it to one: else the session waits for the end of that one.
pub(crate) fn claim_name(
    attempt: &Attempt<'_>,
    stores: &mut Stores,
    name: &[u8],
) -> Result<(), Stop>
    requires may { MayAttempt stores.old attempt.now.caller }
    ensures step { IsStep (λ u. u) result stores.old stores.new attempt.now.caller attempt.now.caller.cmd (claims.name_claimed attempt.now.names.now attempt.now.caller.session name.now) }
    ensures free { IfOk result (λ u. (h : History) → TableStands stores.new.txs h → CatalogueStands stores.new.catalog h → IsFree h attempt.now.caller.session name.now) }
    ensures rest { stores.new ≡ record stores.old { locks = stores.new.locks } }
{
    let session = attempt.caller.session;
    check_name(attempt.alloc, &stores.catalog, &stores.txs, session, name)?;
    wait_for_name(attempt, stores, name)
}
