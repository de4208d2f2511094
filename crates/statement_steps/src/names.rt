ghost use Rattle.std.specs.Prelude.{◌≡◌, ◌≤◌, ◌++◌, ◌∷◌, [], Some, None, IfOk, OnOk, OnErr, length};
ghost use Rattle.pg_values.specs.declared.lock_mode.LockMode.{LockMode};
ghost use Rattle.statement_steps.specs.Attempts.{MayAttempt};
ghost use Rattle.statement_steps.specs.Asks as asks;
ghost use Rattle.statement_steps.specs.Known.{IsKnownTo};
ghost use Rattle.statement_steps.specs.Steps.{IsStep};

use crate::{Attempt, Stop, lock_table};
use legal_statements::named_is_there;
use pg_values::{LockMode, NoMemory, PgText, TableNo};
use refusals::no_table;
use std::alloc::Global;
use std::marker::Model;
use stores::Stores;

/// The names of the sessions by their numbers, the control session's first, seen as their list.
#[derive(Debug, Drop)]
pub struct SessionNames {
    names: Vec<PgText>,
}

impl Model for SessionNames {
    ghost use Rattle.std.specs.Prelude.{List, ℕ};

    ghost Value = { List (List ℕ) };

    ghost view = { λ n. n.names.items };
}

impl SessionNames {
    pub fn new(alloc: Global) -> Self
        ensures { result ≡ [] }
    {
        SessionNames {
            names: Vec::new(alloc),
        }
    }

    pub fn as_slice(&self) -> &[PgText]
        ensures { result.now ≡ self.now }
    {
        &self.names
    }

    /// The name of the session with the next number.
    pub fn push(&mut self, name: PgText) -> Result<(), NoMemory>
        ensures ok { OnOk result (self.new ≡ self.old ++ name ∷ []) }
        ensures err { OnErr result (self.new ≡ self.old) }
    {
        self.names.push(name)?;
        Ok(())
    }
}

/// The table of a name, or 42P01.
pub fn find_table(attempt: &Attempt<'_>, stores: &Stores, name: &[u8]) -> Result<TableNo, Stop>
    requires { MayAttempt stores.now attempt.now.caller }
    ensures step { IsStep (λ t. t.number) result stores.now stores.now attempt.now.caller attempt.now.caller.cmd (asks.found attempt.now.caller.session name.now) }
    ensures known { IfOk result (λ t. IsKnownTo stores.now attempt.now.caller.session t.number) }
{
    let session = attempt.caller.session;
    named_is_there();
    match stores.catalog.resolve(&stores.txs, session, name) {
        Some(table) => Ok(table),
        None => Err(Stop::Refused(no_table(attempt.alloc, name)?)),
    }
}

/// The table of a name, locked in that mode.
pub fn lock_named(
    attempt: &Attempt<'_>,
    stores: &mut Stores,
    name: &[u8],
    mode: LockMode,
) -> Result<TableNo, Stop>
    requires may { MayAttempt stores.old attempt.now.caller }
    requires few { length stores.old.catalog.tables ≤ 4096 }
    ensures step { IsStep (λ t. t.number) result stores.old stores.new attempt.now.caller attempt.now.caller.cmd (asks.named attempt.now.names.now attempt.now.caller.session mode name.now) }
    ensures known { IfOk result (λ t. IsKnownTo stores.new attempt.now.caller.session t.number) }
    ensures rest { stores.new ≡ record stores.old { locks = stores.new.locks } }
{
    let table = find_table(attempt, stores, name)?;
    lock_table(attempt, stores, table, mode)?;
    Ok(table)
}

// The table that was found is that one: another one of its name is none.
fn same_or_gone(
    attempt: &Attempt<'_>,
    stores: &Stores,
    name: &[u8],
    table: TableNo,
    found: TableNo,
) -> Result<(), Stop>
    requires { MayAttempt stores.now attempt.now.caller }
    ensures step { IsStep (λ u. u) result stores.now stores.now attempt.now.caller attempt.now.caller.cmd (λ h. asks.same_or_gone name.now table.number found.number) }
    ensures same { OnOk result (found.number ≡ table.number) }
{
    let is_same = found.number == table.number;
    if is_same {
        Ok(())
    } else {
        Err(Stop::Refused(no_table(attempt.alloc, name)?))
    }
}

/// That table, locked in that mode, where the name means it still, or 42P01.
pub fn lock_named_still(
    attempt: &Attempt<'_>,
    stores: &mut Stores,
    name: &[u8],
    table: TableNo,
    mode: LockMode,
) -> Result<(), Stop>
    requires may { MayAttempt stores.old attempt.now.caller }
    requires few { length stores.old.catalog.tables ≤ 4096 }
    ensures step { IsStep (λ u. u) result stores.old stores.new attempt.now.caller attempt.now.caller.cmd (asks.named_still attempt.now.names.now attempt.now.caller.session mode name.now table.number) }
    ensures known { OnOk result (IsKnownTo stores.new attempt.now.caller.session table.number) }
    ensures rest { stores.new ≡ record stores.old { locks = stores.new.locks } }
{
    let found = find_table(attempt, stores, name)?;
    same_or_gone(attempt, stores, name, table, found)?;
    lock_table(attempt, stores, table, mode)
}
