//! DETACH CONCURRENTLY, and its second and third stage.

ghost use Rattle.std.specs.Prelude.{◌≡◌, ◌+◌, ◌<◌, ◌≤◌, Some, Err, IfOk, length};
ghost use Rattle.pg_values.specs.Refusals.{IsAnswer};
ghost use Rattle.history.specs.History.{History};
ghost use Rattle.tx_table.specs.Stands.{TableStands};
ghost use Rattle.part_catalog.specs.Stands.{CatalogueStands};
ghost use Rattle.statement_steps.specs.Attempts.{MayAttempt};
ghost use Rattle.statement_steps.specs.declared.rest.Rest.TheVariants.{Detach};
ghost use Rattle.statement_steps.specs.Steps.{IsStep, going_on};
ghost use Rattle.alter_table.specs.AskedOfDetached.{IsPartition, IsPendingPart};
ghost use Rattle.alter_table.specs.Concurrent as concurrent;

use crate::detach_checks::is_table;
use crate::leaving::leave_parent;
use crate::marking::run_first_stage;
use history::{TxId, WaitOn};
use legal_statements::listed_is_there;
use part_catalog::Catalog;
use pg_values::{LockMode, Refusal, SessionSet};
use refusals::not_the_pending_partition;
use soundness::legal_keeps_all;
use statement_steps::{
    Attempt, Ending, Rest, RestOfDetach, Stop, ended, lock_named_still, stopped_on, wait_for,
};
use std::alloc::Global;
use stores::Stores;
use tx_table::TxTable;

// ---- stage 2

fn behind_nobody(rest: RestOfDetach) -> RestOfDetach
    ensures { result ≡ concurrent.behind_nobody rest }
{
    RestOfDetach {
        behind: SessionSet::empty(),
        ..rest
    }
}

// A part: the transactions of the others end.
fn wait_for_others(
    attempt: &Attempt<'_>,
    stores: &mut Stores,
    rest: RestOfDetach,
) -> Result<(), Stop>
    requires may { MayAttempt stores.old attempt.now.caller }
    ensures step { IsStep (λ u. u) result stores.old stores.new attempt.now.caller attempt.now.caller.cmd (concurrent.others_ended attempt.now.names.now attempt.now.caller.session rest) }
    ensures rest { stores.new ≡ record stores.old { locks = stores.new.locks } }
{
    let others = WaitOn::Ends(rest.behind.without(attempt.caller.session));
    wait_for(attempt, stores, others, None)
}

// ---- stage 3

fn is_by(found: Option<TxId>, by: TxId) -> bool
    ensures { result ≡ concurrent.is_by found by }
{
    match found {
        None => false,
        Some(found) => found.number == by.number,
    }
}

// The table is the pending partition still, by the statement's own mark (55000).
fn check_mark(
    alloc: Global,
    catalog: &Catalog,
    txs: &TxTable,
    session: u32,
    rest: RestOfDetach,
) -> Result<(), Refusal>
    requires parent { rest.parent.number < length catalog.now.tables }
    requires table { rest.table.number < length catalog.now.tables }
    ensures { (h : History) → TableStands txs.now h → CatalogueStands catalog.now h → IsAnswer result (concurrent.endable h session rest) }
{
    let parent = rest.parent;
    if is_table(catalog.pending_of(txs, session, parent), rest.table)
        && is_by(catalog.mark_of(txs, session, parent), rest.by)
    {
        return Ok(());
    }
    let name = catalog.name_of(rest.table);
    let above = catalog.name_of(parent);
    Err(Refusal::Sql(not_the_pending_partition(alloc, name, above)?))
}

// A part: nothing stands against its end.
fn check(attempt: &Attempt<'_>, stores: &Stores, rest: RestOfDetach) -> Result<(), Stop>
    requires may { MayAttempt stores.now attempt.now.caller }
    requires parent { rest.parent.number < length stores.now.catalog.tables }
    requires table { rest.table.number < length stores.now.catalog.tables }
    ensures step { IsStep (λ u. u) result stores.now stores.now attempt.now.caller attempt.now.caller.cmd (concurrent.judged_still attempt.now.caller.session rest) }
    ensures partition { IfOk result (λ u. IsPartition stores.now attempt.now.caller.session rest.parent rest.table.number) }
    ensures pending { IfOk result (λ u. IsPendingPart stores.now attempt.now.caller.session rest.parent rest.table.number) }
{
    legal_keeps_all();
    listed_is_there();
    let Stores { txs, catalog, .. } = stores;
    check_mark(attempt.alloc, catalog, txs, attempt.caller.session, rest)?;
    Ok(())
}

// The transactions of the others end. Then both tables are locked anew, and the entry ends where it is pending still.
fn run_later_stages(
    attempt: &Attempt<'_>,
    stores: &mut Stores,
    rest: RestOfDetach,
    parent: &[u8],
    name: &[u8],
) -> Result<(), Stop>
    requires may { MayAttempt stores.old attempt.now.caller }
    requires few { length stores.old.catalog.tables ≤ 4096 }
    ensures { IsStep (λ u. u) result stores.old stores.new attempt.now.caller (attempt.now.caller.cmd + 1) (concurrent.later_stages attempt.now.names.now attempt.now.caller rest parent.now name.now) }
{
    let above = rest.parent;
    let table = rest.table;
    let guards = LockMode::ShareUpdateExclusive;
    let owns = LockMode::AccessExclusive;
    wait_for_others(attempt, stores, rest)?;
    lock_named_still(attempt, stores, parent, above, guards)?;
    lock_named_still(attempt, stores, name, table, owns)?;
    check(attempt, stores, rest)?;
    leave_parent(attempt, stores, above, table)
}

// It waits on in the same stage, or in the next one.
fn go_on(
    attempt: &Attempt<'_>,
    stores: &mut Stores,
    rest: RestOfDetach,
    parent: &[u8],
    name: &[u8],
) -> Result<(), Stop>
    requires may { MayAttempt stores.old attempt.now.caller }
    requires few { length stores.old.catalog.tables ≤ 4096 }
    ensures { IsStep (λ u. u) result stores.old stores.new attempt.now.caller (attempt.now.caller.cmd + 1) (λ h. going_on (Some (Detach (concurrent.behind_nobody rest))) (concurrent.later_stages attempt.now.names.now attempt.now.caller rest parent.now name.now h)) }
{
    match run_later_stages(attempt, stores, rest, parent, name) {
        Ok(()) => Ok(()),
        Err(stop) => Err(stopped_on(stop, Some(Rest::Detach(behind_nobody(rest))))),
    }
}

// Where it goes on, if it has committed its mark.
fn detach_of(rest: Option<Rest>) -> Option<RestOfDetach>
    ensures { result ≡ concurrent.detach_of rest }
{
    match rest {
        Some(Rest::Detach(rest)) => Some(rest),
        None | Some(Rest::Rows(_)) => None,
    }
}

/// ALTER TABLE, DETACH PARTITION CONCURRENTLY, from its beginning or from where it stood. The parent is found
/// (42P01) and locked in SHARE UPDATE EXCLUSIVE mode, then the table. It is refused where the parent is not
/// partitioned (42809), where the table is not a partition of it (42P01), and where a partition of it is the
/// default (55000) or pending (55000). Then the partition is marked pending, and that is committed. In another
/// transaction the statement waits for the transactions of all who held a lock on the parent, and locks the
/// parent in SHARE UPDATE EXCLUSIVE mode and the table in ACCESS EXCLUSIVE mode. It is refused there where one
/// of the two is gone (42P01), and where the mark does not stand any more (55000); else the table keeps a CHECK,
/// and is a partition no more.
pub fn detach_concurrently(
    attempt: &Attempt<'_>,
    stores: &mut Stores,
    rest: Option<Rest>,
    parent: &[u8],
    name: &[u8],
) -> Result<Ending, Stop>
    requires may { MayAttempt stores.old attempt.now.caller }
    requires few { length stores.old.catalog.tables ≤ 4096 }
    ensures { IsStep (λ e. e) result stores.old stores.new attempt.now.caller (attempt.now.caller.cmd + 1) (concurrent.detached_concurrently attempt.now.names.now attempt.now.caller rest parent.now name.now) }
{
    match detach_of(rest) {
        Some(rest) => ended(go_on(attempt, stores, rest, parent, name)),
        None => {
            let marked = run_first_stage(attempt, stores, parent, name)?;
            Ok(Ending::Commits(marked))
        }
    }
}
