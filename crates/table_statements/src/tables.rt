ghost use Rattle.std.specs.Prelude.{◌≡◌, ◌+◌, [], Ok, IfOk};
ghost use Rattle.pg_values.specs.Refusals.{IsAnswer};
ghost use Rattle.history.specs.History.{History};
ghost use Rattle.tx_table.specs.Stands.{TableStands};
ghost use Rattle.part_catalog.specs.Stands.{CatalogueStands};
ghost use Rattle.expression_binder.specs.Firsts.{IsAnswerBy};
ghost use Rattle.part_ddl.specs.Tables.{KeysFit, count_faults};
ghost use Rattle.statement_steps.specs.Attempts.{MayAttempt};
ghost use Rattle.statement_steps.specs.Steps.{IsStep};
ghost use Rattle.table_statements.specs.Asked.{MayBeMade};
ghost use Rattle.table_statements.specs.Tables as tables;
ghost use Rattle.table_statements.specs.Seen.{seen_plan};
ghost use Rattle.table_statements.specs.Tables.{created, table_plan};

use crate::claims::claim_name;
use bound_forms::Level;
use history::{Column, Columns};
use legal_statements::{new_leaf_may_follow, new_level_may_follow};
use part_catalog::Catalog;
use part_ddl::{check_count, make_table};
use pg_values::{PgText, Refusal};
use sql_ast::{ColumnList, Partitioning};
use statement_steps::{Attempt, Stop, hold_if_repeatable};
use std::alloc::Global;
use stores::{Stores, leaves_are_housed};
use table_binder::{bind_columns, bind_partitioning};

/// What a new table has.
#[derive(Drop)]
pub(crate) struct Plan {
    pub columns: Columns,
    pub level: Option<Level>,
}

/// The level of a table with these columns, where it is partitioned.
pub(crate) fn level_by(
    alloc: Global,
    columns: &[Column],
    by: &Option<Partitioning>,
) -> Result<Option<Level>, Refusal>
    ensures answer { IsAnswer result (tables.level_by columns.now by.now) }
    ensures fit { IfOk result (λ level. KeysFit columns.now level) }
{
    match by {
        None => Ok(None),
        Some(by) => Ok(Some(bind_partitioning(alloc, by, columns)?)),
    }
}

fn columns_and_key(
    alloc: Global,
    definitions: &ColumnList,
    by: &Option<Partitioning>,
) -> Result<Plan, Refusal>
    ensures answer { IsAnswerBy seen_plan result (tables.columns_and_key definitions.now by.now) }
    ensures fit { IfOk result (λ plan. KeysFit plan.columns plan.level) }
{
    let columns = bind_columns(alloc, definitions)?;
    let level = level_by(alloc, columns.as_slice(), by)?;
    Ok(Plan { columns, level })
}

// What the table has, or the first refusal.
fn plan_of(
    alloc: Global,
    catalog: &Catalog,
    definitions: &ColumnList,
    by: &Option<Partitioning>,
) -> Result<Plan, Refusal>
    ensures answer { (h : History) → CatalogueStands catalog.now h → IsAnswerBy seen_plan result (table_plan h definitions.now by.now) }
    ensures fit { IfOk result (λ plan. KeysFit plan.columns plan.level) }
{
    check_count(alloc, catalog)?;
    columns_and_key(alloc, definitions, by)
}

// A part: what the table has, and that there is room for it.
fn planned(
    attempt: &Attempt<'_>,
    stores: &Stores,
    definitions: &ColumnList,
    by: &Option<Partitioning>,
) -> Result<Plan, Stop>
    requires { MayAttempt stores.now attempt.now.caller }
    ensures step { IsStep seen_plan result stores.now stores.now attempt.now.caller attempt.now.caller.cmd (tables.planned definitions.now by.now) }
    ensures fit { IfOk result (λ plan. KeysFit plan.columns plan.level) }
    ensures few { IfOk result (λ plan. (h : History) → CatalogueStands stores.now.catalog h → count_faults h ≡ []) }
{
    let plan = plan_of(attempt.alloc, &stores.catalog, definitions, by)?;
    Ok(plan)
}

// The last part: the table is made.
fn make_planned(
    attempt: &Attempt<'_>,
    stores: &mut Stores,
    name: PgText,
    plan: Plan,
) -> Result<(), Stop>
    requires may { MayAttempt stores.old attempt.now.caller }
    requires fit { KeysFit plan.columns plan.level }
    requires free { (h : History) → TableStands stores.old.txs h → CatalogueStands stores.old.catalog h → MayBeMade h attempt.now.caller.session name }
    ensures { IsStep (λ u. u) result stores.old stores.new attempt.now.caller (attempt.now.caller.cmd + 1) (tables.table_made attempt.now.caller name (seen_plan plan)) }
{
    let cmd = attempt.caller.cmd;
    new_leaf_may_follow();
    new_level_may_follow();
    leaves_are_housed();
    let Some(by) = stores.txs.open_of(attempt.caller.session) else {
        unreachable!()
    };
    let Plan { columns, level } = plan;
    let Stores { rows, catalog, .. } = stores;
    make_table(attempt.alloc, catalog, rows, name, columns, level, by, cmd)?;
    Ok(())
}

/// CREATE TABLE with columns of its own. It is refused with 42P07 where a table of the name is there, waits
/// where another open transaction has made one, and is then refused with 54000 for tables and columns,
/// 42701, 42704, and for its key: 42P16, 54000, 42703.
pub fn create_table(
    attempt: &Attempt<'_>,
    stores: &mut Stores,
    name: &PgText,
    columns: &ColumnList,
    by: &Option<Partitioning>,
) -> Result<(), Stop>
    requires { MayAttempt stores.old attempt.now.caller }
    ensures { IsStep (λ u. u) result stores.old stores.new attempt.now.caller (attempt.now.caller.cmd + 1) (created attempt.now.names.now attempt.now.caller name.now columns.now by.now) }
{
    hold_if_repeatable(attempt, stores)?;
    claim_name(attempt, stores, name.as_bytes())?;
    let plan = planned(attempt, stores, columns, by)?;
    let copy = name.copy(attempt.alloc)?;
    make_planned(attempt, stores, copy, plan)
}
