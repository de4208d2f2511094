ghost use Rattle.std.specs.Prelude.{◌≡◌, ◌+◌, ◌<◌, ◌≤◌, Ok, length};
ghost use Rattle.statement_steps.specs.Attempts.{MayAttempt};
ghost use Rattle.statement_steps.specs.Steps.{IsStep};
ghost use Rattle.ddl_steps.specs.Locks.{IsLocked, IsLockedNamed};
ghost use Rattle.alter_table.specs.AskedOfDetached.{IsPartition};
ghost use Rattle.alter_table.specs.Detached as detached;

use crate::detach_checks::check;
use legal_statements::{drop_may_follow, listed_is_there, nobody_else_ends, there_is_known};
use part_ddl::default_of;
use pg_values::{LockMode, TableNo};
use statement_steps::{Attempt, Caller, Stop, hold_if_repeatable, lock_named, lock_table};
use stores::{Stores, trees_are_together};

// A part: the default partition of the parent is locked, where there is one.
fn lock_default(attempt: &Attempt<'_>, stores: &mut Stores, parent: TableNo) -> Result<(), Stop>
    requires may { MayAttempt stores.old attempt.now.caller }
    requires few { length stores.old.catalog.tables ≤ 4096 }
    requires known { parent.number < length stores.old.catalog.tables }
    ensures step { IsStep (λ u. u) result stores.old stores.new attempt.now.caller attempt.now.caller.cmd (detached.default_locked attempt.now.names.now attempt.now.caller.session parent.number) }
    ensures rest { stores.new ≡ record stores.old { locks = stores.new.locks } }
{
    trees_are_together();
    listed_is_there();
    there_is_known();
    match default_of(&stores.catalog, &stores.txs, parent, attempt.caller.session) {
        None => Ok(()),
        Some(default) => {
            let mode = LockMode::AccessExclusive;
            lock_table(attempt, stores, default, mode)
        }
    }
}

// The last part: the entry ends by which the table is a partition.
fn leave_place(stores: &mut Stores, caller: Caller, parent: TableNo, table: TableNo)
    requires may { MayAttempt stores.old caller }
    requires locked { IsLocked stores.old caller.session parent.number }
    requires partition { IsPartition stores.old caller.session parent table.number }
    ensures { IsStep (λ u. u) (Ok tt) stores.old stores.new caller (caller.cmd + 1) (detached.place_left caller table.number) }
{
    listed_is_there();
    nobody_else_ends();
    drop_may_follow();
    let Some(by) = stores.txs.open_of(caller.session) else {
        unreachable!()
    };
    let Stores { txs, catalog, .. } = stores;
    catalog.end_entry(txs, parent, table, by, caller.cmd);
}

/// ALTER TABLE, DETACH PARTITION. The parent is found (42P01) and locked in ACCESS EXCLUSIVE mode, then the
/// table, then the default partition beside it. It is refused where the parent is not partitioned (42809),
/// where the table is not a partition of it (42P01), and where it is the pending one (55000).
pub fn detach(
    attempt: &Attempt<'_>,
    stores: &mut Stores,
    parent: &[u8],
    name: &[u8],
) -> Result<(), Stop>
    requires may { MayAttempt stores.old attempt.now.caller }
    requires few { length stores.old.catalog.tables ≤ 4096 }
    ensures { IsStep (λ u. u) result stores.old stores.new attempt.now.caller (attempt.now.caller.cmd + 1) (detached.detached attempt.now.names.now attempt.now.caller parent.now name.now) }
{
    let mode = LockMode::AccessExclusive;
    hold_if_repeatable(attempt, stores)?;
    let parent = lock_named(attempt, stores, parent, mode)?;
    let table = lock_named(attempt, stores, name, mode)?;
    lock_default(attempt, stores, parent)?;
    check(attempt, stores, parent, table)?;
    leave_place(stores, attempt.caller, parent, table);
    Ok(())
}
