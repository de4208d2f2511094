//! A partition that was marked pending is one no more.

ghost use Rattle.std.specs.Prelude.{◌≡◌, ◌+◌, ◌++◌, ◌<◌, IfSome, OnOk, length};
ghost use Rattle.history.specs.Catalogue.{CheckKept};
ghost use Rattle.history.specs.History.{History};
ghost use Rattle.history.specs.Places.{IsCatalogueSound};
ghost use Rattle.part_catalog.specs.Stands.{CatalogueStands};
ghost use Rattle.statement_steps.specs.Attempts.{MayAttempt};
ghost use Rattle.statement_steps.specs.Steps.{IsStep};
ghost use Rattle.alter_table.specs.AskedOfDetached.{HasGuarded, HasOwned, IsPartition, IsPendingPart};
ghost use Rattle.alter_table.specs.Concurrent as concurrent;
ghost use Rattle.alter_table.specs.Kept as kept;

use crate::keeping::new_check;
use history::{KeptCheck, TxId};
use legal_statements::{check_may_follow, drop_may_follow, listed_is_there, nobody_else_ends};
use part_catalog::Catalog;
use pg_values::{NoMemory, TableNo};
use soundness::legal_keeps_all;
use statement_steps::{Attempt, Stop};
use stores::{Stores, trees_are_together};

// The table keeps the CHECK, if there is one.
fn keep(
    catalog: &mut Catalog,
    table: TableNo,
    check: Option<KeptCheck>,
    by: TxId,
    cmd: u32,
) -> Result<(), NoMemory>
    requires { (h : History) → CatalogueStands catalog.old h → IfSome check (λ c. IsCatalogueSound (CheckKept (record { table = table; kept = c; by = by; cmd = cmd })) h) }
    ensures { OnOk result ((h : History) → CatalogueStands catalog.old h → CatalogueStands catalog.new (kept.check_by table by cmd check ++ h)) }
{
    match check {
        None => Ok(()),
        Some(check) => catalog.keep_check(table, check, by, cmd),
    }
}

/// The last part: the table keeps its CHECK, and then the entry ends by which it is a partition.
pub(crate) fn leave_parent(
    attempt: &Attempt<'_>,
    stores: &mut Stores,
    parent: TableNo,
    table: TableNo,
) -> Result<(), Stop>
    requires may { MayAttempt stores.old attempt.now.caller }
    requires guarded { HasGuarded stores.old attempt.now.caller.session parent.number }
    requires parent { parent.number < length stores.old.catalog.tables }
    requires table { table.number < length stores.old.catalog.tables }
    requires partition { IsPartition stores.old attempt.now.caller.session parent table.number }
    requires pending { IsPendingPart stores.old attempt.now.caller.session parent table.number }
    requires owned { HasOwned stores.old attempt.now.caller.session table.number }
    ensures { IsStep (λ u. u) result stores.old stores.new attempt.now.caller (attempt.now.caller.cmd + 1) (concurrent.partition_left attempt.now.caller parent.number table.number) }
{
    trees_are_together();
    legal_keeps_all();
    listed_is_there();
    nobody_else_ends();
    check_may_follow();
    drop_may_follow();
    let session = attempt.caller.session;
    let Some(by) = stores.txs.open_of(session) else {
        unreachable!()
    };
    let Stores { txs, catalog, .. } = stores;
    let check = new_check(attempt.alloc, catalog, txs, session, parent, table)?;
    keep(catalog, table, check, by, attempt.caller.cmd)?;
    catalog.end_entry(txs, parent, table, by, attempt.caller.cmd);
    Ok(())
}
