//! DETACH FINALIZE.

ghost use Rattle.std.specs.Prelude.{◌≡◌, ◌+◌, ◌<◌, ◌≤◌, ◌==◌, ◌&&◌, ℕ, IfOk, length};
ghost use Rattle.pg_values.specs.Refusals.{IsAnswer};
ghost use Rattle.pg_values.specs.Sets.{has};
ghost use Rattle.history.specs.History.{History};
ghost use Rattle.tx_table.specs.Stands.{TableStands};
ghost use Rattle.part_catalog.specs.Stands.{CatalogueStands};
ghost use Rattle.statement_steps.specs.Attempts.{MayAttempt};
ghost use Rattle.statement_steps.specs.Steps.{IsStep};
ghost use Rattle.alter_table.specs.AskedOfDetached.{HasGuarded, HasOwned, IsPartition, IsPendingPart};
ghost use Rattle.alter_table.specs.Finalized as finalized;

use crate::detach_checks::is_table;
use crate::leaving::leave_parent;
use ddl_steps::sessions_are_low;
use history::{TxId, WaitOn};
use legal_statements::listed_is_there;
use part_catalog::Catalog;
use part_ddl::parent_level;
use pg_values::{LockMode, Refusal, SessionSet, TableNo};
use refusals::not_the_pending_partition;
use soundness::legal_keeps_all;
use statement_steps::{Attempt, Stop, hold_if_repeatable, lock_named, wait_for};
use std::alloc::Global;
use stores::Stores;
use tx_table::TxTable;

// ---- the refusals

// The parent is partitioned (42809), and the table is its pending partition (55000).
fn check_pending(
    alloc: Global,
    catalog: &Catalog,
    txs: &TxTable,
    session: u32,
    parent: TableNo,
    table: TableNo,
) -> Result<(), Refusal>
    requires parent { parent.number < length catalog.now.tables }
    requires table { table.number < length catalog.now.tables }
    ensures { (h : History) → TableStands txs.now h → CatalogueStands catalog.now h → IsAnswer result (finalized.finalizable h session parent.number table.number) }
{
    parent_level(alloc, catalog, parent)?;
    if is_table(catalog.pending_of(txs, session, parent), table) {
        return Ok(());
    }
    let name = catalog.name_of(table);
    let above = catalog.name_of(parent);
    Err(Refusal::Sql(not_the_pending_partition(alloc, name, above)?))
}

// A part: nothing stands against it.
fn check(
    attempt: &Attempt<'_>,
    stores: &Stores,
    parent: TableNo,
    table: TableNo,
) -> Result<(), Stop>
    requires may { MayAttempt stores.now attempt.now.caller }
    requires parent { parent.number < length stores.now.catalog.tables }
    requires table { table.number < length stores.now.catalog.tables }
    ensures step { IsStep (λ u. u) result stores.now stores.now attempt.now.caller attempt.now.caller.cmd (finalized.judged attempt.now.caller.session parent.number table.number) }
    ensures partition { IfOk result (λ u. IsPartition stores.now attempt.now.caller.session parent table.number) }
    ensures pending { IfOk result (λ u. IsPendingPart stores.now attempt.now.caller.session parent table.number) }
{
    let session = attempt.caller.session;
    legal_keeps_all();
    listed_is_there();
    let Stores { txs, catalog, .. } = stores;
    check_pending(attempt.alloc, catalog, txs, session, parent, table)?;
    Ok(())
}

// ---- snapshots that do not see the mark

// The session, where it is another one and holds a snapshot that does not see the mark's transaction.
fn one_unseeing(txs: &TxTable, session: u32, by: TxId, other: u32) -> SessionSet
    requires { other < 128 }
    ensures { (h : History) → TableStands txs.now h → (k : ℕ) → has result k ≡ ((k == other) && finalized.is_unseeing h session by other) }
{
    if other == session {
        return SessionSet::empty();
    }
    match txs.held(other) {
        Some(snap) => {
            if txs.sees(snap, by, 0) {
                SessionSet::empty()
            } else {
                SessionSet::empty().with(other)
            }
        }
        None => SessionSet::empty(),
    }
}

fn all_unseeing(txs: &TxTable, session: u32, by: TxId) -> SessionSet
    ensures { (h : History) → TableStands txs.now h → (k : ℕ) → has result k ≡ finalized.is_unseeing h session by k }
{
    let mut others = SessionSet::empty();
    for other in 0..txs.sessions() {
        others = others.union(one_unseeing(txs, session, by, other));
    }
    others
}

fn unseeing(txs: &TxTable, session: u32, by: Option<TxId>) -> SessionSet
    ensures { (h : History) → TableStands txs.now h → (k : ℕ) → has result k ≡ finalized.unseeing h session by k }
{
    match by {
        Some(by) => all_unseeing(txs, session, by),
        None => SessionSet::empty(),
    }
}

// A part: no open snapshot of another session is left that does not see the mark.
fn wait_for_snapshots(
    attempt: &Attempt<'_>,
    stores: &mut Stores,
    parent: TableNo,
) -> Result<(), Stop>
    requires may { MayAttempt stores.old attempt.now.caller }
    ensures step { IsStep (λ u. u) result stores.old stores.new attempt.now.caller attempt.now.caller.cmd (finalized.mark_seen attempt.now.names.now attempt.now.caller.session parent.number) }
    ensures rest { stores.new ≡ record stores.old { locks = stores.new.locks } }
{
    let Stores { txs, catalog, .. } = &*stores;
    let by = catalog.mark_of(txs, attempt.caller.session, parent);
    let others = unseeing(txs, attempt.caller.session, by);
    sessions_are_low(others);
    let others = WaitOn::Snapshots(others);
    wait_for(attempt, stores, others, None)
}

// ---- the statement

/// ALTER TABLE, DETACH PARTITION FINALIZE. The parent is found (42P01) and locked in SHARE UPDATE EXCLUSIVE mode,
/// then the table in ACCESS EXCLUSIVE mode. It is refused where the parent is not partitioned (42809), and where
/// the table is not its pending partition (55000). It waits until no other session has an open snapshot that does
/// not see the mark, and then begins anew; where there is none, the table keeps a CHECK, and is a partition no
/// more.
pub fn finalize(
    attempt: &Attempt<'_>,
    stores: &mut Stores,
    parent: &[u8],
    name: &[u8],
) -> Result<(), Stop>
    requires may { MayAttempt stores.old attempt.now.caller }
    requires few { length stores.old.catalog.tables ≤ 4096 }
    ensures { IsStep (λ u. u) result stores.old stores.new attempt.now.caller (attempt.now.caller.cmd + 1) (finalized.finalized attempt.now.names.now attempt.now.caller parent.now name.now) }
{
    let guards = LockMode::ShareUpdateExclusive;
    let owns = LockMode::AccessExclusive;
    hold_if_repeatable(attempt, stores)?;
    let parent = lock_named(attempt, stores, parent, guards)?;
    let table = lock_named(attempt, stores, name, owns)?;
    check(attempt, stores, parent, table)?;
    wait_for_snapshots(attempt, stores, parent)?;
    leave_parent(attempt, stores, parent, table)
}
