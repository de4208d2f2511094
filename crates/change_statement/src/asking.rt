//! What an UPDATE or a DELETE asks for.

ghost use Rattle.std.specs.Prelude.{◌≡◌, ◌<◌, IfOk, length};
ghost use Rattle.pg_values.specs.Refusals.{IsAnswer};
ghost use Rattle.expression_binder.specs.Firsts.{IsAnswerBy};
ghost use Rattle.cond_logic.specs.Asked.{change_meant};
ghost use Rattle.sql_binder.specs.Changes.{bound_change};
ghost use Rattle.sql_binder.specs.From.{item_name};
ghost use Rattle.statement_steps.specs.Attempts.{MayAttempt};
ghost use Rattle.statement_steps.specs.Steps.{IsStep};
ghost use Rattle.change_statement.specs.Gathered as gathered;
ghost use Rattle.statement_steps.specs.Faults.{stop_of as stopped};

use cond_logic::ChangeAsk;
use expression_binder::{Param, ScopeItem};
use history::Column;
use pg_values::{NoMemory, PgText, Refusal, TableNo};
use plan_tree::Planning;
use sql_ast::{Delete, NamedTable, Update};
use sql_binder::{bind_delete, bind_update, put_change_values};
use statement_steps::{Attempt, Stop, scope_columns};
use std::alloc::Global;
use stores::Stores;

/// A statement that changes rows.
#[derive(Clone, Copy)]
pub(crate) enum Change<'a> {
    Update(&'a Update),
    Delete(&'a Delete),
}

/// The table that it names.
pub(crate) fn table_named(change: Change<'_>) -> &NamedTable
    ensures { result.now ≡ gathered.table_named change.entry }
{
    match change {
        Change::Update(update) => &update.table,
        Change::Delete(delete) => &delete.table,
    }
}

// The name that the table goes by: an alias hides its own.
fn name_of(table: &NamedTable) -> &[u8]
    ensures { result.now ≡ item_name (table.now, None) }
{
    match &table.alias {
        None => table.name.as_bytes(),
        Some(alias) => alias.as_bytes(),
    }
}

fn item_of(alloc: Global, table: &NamedTable, columns: &[Column]) -> Result<ScopeItem, NoMemory>
    ensures { IfOk result (λ item. item ≡ gathered.item_of table.now columns.now) }
{
    let name = PgText::from_bytes(alloc, name_of(table))?;
    Ok(ScopeItem::new(name, 0, scope_columns(alloc, columns)?))
}

fn bind_for(
    alloc: Global,
    change: Change<'_>,
    item: &ScopeItem,
    params: &[Param],
    session: u32,
) -> Result<ChangeAsk, Refusal>
    ensures { IsAnswerBy change_meant result (bound_change item.now params.now session (gathered.settings_of change.entry) (gathered.condition_of change.entry)) }
{
    match change {
        Change::Update(update) => bind_update(alloc, update, item, params, session),
        Change::Delete(delete) => bind_delete(alloc, delete, item, params, session),
    }
}

fn bind_columns(
    alloc: Global,
    how: Planning,
    change: Change<'_>,
    columns: &[Column],
    params: &[Param],
    session: u32,
) -> Result<ChangeAsk, Refusal>
    ensures { IsAnswerBy change_meant result (gathered.asked_by how (gathered.item_of (gathered.table_named change.entry) columns.now) params.now session (gathered.settings_of change.entry) (gathered.condition_of change.entry)) }
{
    let item = item_of(alloc, table_named(change), columns)?;
    let ask = bind_for(alloc, change, &item, params, session)?;
    if how.is_generic {
        return Ok(ask);
    }
    Ok(put_change_values(alloc, ask, params)?)
}

/// Names and kinds are bound over the columns of the table and constants evaluated; for a custom plan the values of
/// parameters are put in their places.
pub(crate) fn bind(
    attempt: &Attempt<'_>,
    stores: &Stores,
    how: Planning,
    params: &[Param],
    change: Change<'_>,
    table: TableNo,
) -> Result<ChangeAsk, Stop>
    requires may { MayAttempt stores.now attempt.now.caller }
    requires known { table.number < length stores.now.catalog.tables }
    ensures { IsStep change_meant result stores.now stores.now attempt.now.caller attempt.now.caller.cmd (gathered.meant how params.now attempt.now.caller (gathered.table_named change.entry) (gathered.settings_of change.entry) (gathered.condition_of change.entry) table.number) }
{
    let session = attempt.caller.session;
    let columns = stores.catalog.table(table).columns.as_slice();
    let ask = bind_columns(attempt.alloc, how, change, columns, params, session)?;
    Ok(ask)
}
