//! What an EXECUTE executes, and what PREPARE and DEALLOCATE leave prepared.

ghost use Rattle.std.specs.Prelude.{◌≡◌, ◌∷◌, [], map, None, IfOk};
ghost use Rattle.history.specs.History.{History};
ghost use Rattle.part_catalog.specs.Found.{resolved};
ghost use Rattle.sql_ast.specs.Expressions.{trees};
ghost use Rattle.sql_ast.specs.Queries.{joined_tree, row_tree};
ghost use Rattle.sql_binder.specs.From.{item_name as name_of};
ghost use Rattle.expression_binder.specs.Firsts.{IsAnswerBy};
ghost use Rattle.prepared_statements.specs.Kept.{listed, seen};
ghost use Rattle.stores.specs.Stand.{Stands};
ghost use Rattle.statement_steps.specs.Attempts.{MayAttempt};
ghost use Rattle.statement_runs.specs.Executions as executions;

use expression_binder::{Param, ScopeColumn, ScopeItem};
use pg_values::{NoMemory, PgText, Refusal};
use prepared_statements::{PreparedList, PreparedStatement};
use sql_ast::{ExprList, FromItem, NamedTable, RowStatement};
use statement_steps::{Attempt, Rest, scope_columns};
use std::alloc::Global;
use std::rc::Rc;
use stores::Stores;

/// A prepared statement, with the kinds and values of its parameters.
#[derive(Drop)]
pub(crate) struct Execution {
    pub(crate) statement: Rc<RowStatement>,
    pub(crate) params: Vec<Param>,
}

// ---- the tables that a statement names

// The columns of the table that the name means for the session: none where there is no such table.
fn columns_named(
    attempt: &Attempt<'_>,
    stores: &Stores,
    name: &[u8],
) -> Result<Vec<ScopeColumn>, NoMemory>
    requires { MayAttempt stores.now attempt.now.caller }
    ensures { IfOk result (λ v. (h : History) → Stands stores.now h → v.items ≡ executions.columns_at h (resolved h attempt.now.caller.session name.now)) }
{
    let alloc = attempt.alloc;
    let session = attempt.caller.session;
    match stores.catalog.resolve(&stores.txs, session, name) {
        Some(table) => scope_columns(alloc, stores.catalog.table(table).columns.as_slice()),
        None => Ok(Vec::new(alloc)),
    }
}

fn item_meant(
    attempt: &Attempt<'_>,
    stores: &Stores,
    place: u32,
    name: &[u8],
    alias: &[u8],
) -> Result<ScopeItem, NoMemory>
    requires { MayAttempt stores.now attempt.now.caller }
    ensures { IfOk result (λ i. (h : History) → Stands stores.now h → i ≡ record { name = alias.now; number = place; columns = executions.columns_at h (resolved h attempt.now.caller.session name.now) }) }
{
    let columns = columns_named(attempt, stores, name)?;
    Ok(ScopeItem::new(PgText::from_bytes(attempt.alloc, alias)?, place, columns))
}

fn item_name(table: &NamedTable) -> &[u8]
    ensures { result.now ≡ name_of (table.now, None) }
{
    match &table.alias {
        None => table.name.as_bytes(),
        Some(alias) => alias.as_bytes(),
    }
}

fn table_meant(
    attempt: &Attempt<'_>,
    stores: &Stores,
    place: u32,
    table: &NamedTable,
) -> Result<ScopeItem, NoMemory>
    requires { MayAttempt stores.now attempt.now.caller }
    ensures { IfOk result (λ i. (h : History) → Stands stores.now h → i ≡ executions.item_meant h attempt.now.caller.session place table.now) }
{
    item_meant(
        attempt,
        stores,
        place,
        table.name.as_bytes(),
        item_name(table),
    )
}

// The items of FROM: none where there are more than a SELECT can have.
fn from_meant(
    attempt: &Attempt<'_>,
    stores: &Stores,
    from: &[FromItem],
) -> Result<Vec<ScopeItem>, NoMemory>
    requires { MayAttempt stores.now attempt.now.caller }
    ensures { IfOk result (λ v. (h : History) → Stands stores.now h → v.items ≡ executions.from_meant h attempt.now.caller.session (map joined_tree from.now)) }
{
    let mut items = Vec::new(attempt.alloc);
    if from.len() > 4 {
        return Ok(items);
    }
    let mut place: u32 = 0;
    for item in from {
        items.push(table_meant(attempt, stores, place, &item.table)?)?;
        place += 1;
    }
    Ok(items)
}

fn one_item(alloc: Global, item: ScopeItem) -> Result<Vec<ScopeItem>, NoMemory>
    ensures { IfOk result (λ v. v.items ≡ item ∷ []) }
{
    let mut items = Vec::new(alloc);
    items.push(item)?;
    Ok(items)
}

fn tables_meant(
    attempt: &Attempt<'_>,
    stores: &Stores,
    statement: &RowStatement,
) -> Result<Vec<ScopeItem>, NoMemory>
    requires { MayAttempt stores.now attempt.now.caller }
    ensures { IfOk result (λ v. (h : History) → Stands stores.now h → v.items ≡ executions.tables_meant h attempt.now.caller.session (row_tree statement.now)) }
{
    let alloc = attempt.alloc;
    match statement {
        RowStatement::Select(select) => from_meant(attempt, stores, select.from.as_slice()),
        RowStatement::Insert(insert) => {
            let name = insert.table.as_bytes();
            one_item(alloc, item_meant(attempt, stores, 0, name, name)?)
        }
        RowStatement::Update(update) => {
            one_item(alloc, table_meant(attempt, stores, 0, &update.table)?)
        }
        RowStatement::Delete(delete) => {
            one_item(alloc, table_meant(attempt, stores, 0, &delete.table)?)
        }
    }
}

// ---- what is executed

fn share(statement: &Rc<RowStatement>) -> Result<Rc<RowStatement>, NoMemory>
    ensures { IfOk result (λ s. s.value ≡ statement.now.value) }
{
    Ok(statement.clone()?)
}

fn is_under_way(rest: &Option<Rest>) -> bool
    ensures { result ≡ executions.is_under_way rest.now }
{
    matches!(rest, Some(Rest::Rows(_)))
}

fn bind(
    attempt: &Attempt<'_>,
    stores: &Stores,
    prepared: &PreparedStatement,
    arguments: &ExprList,
) -> Result<Vec<Param>, Refusal>
    requires { MayAttempt stores.now attempt.now.caller }
    ensures { (h : History) → Stands stores.now h → IsAnswerBy (λ v. v.items) result
        (executions.params_over (executions.own_tables h attempt.now.caller.session (seen prepared.now)) None (seen prepared.now) (trees arguments.now)) }
{
    let tables = tables_meant(attempt, stores, prepared.statement())?;
    prepared.bind_arguments(attempt.alloc, &tables, arguments)
}

/// What an EXECUTE of the name executes; or 26000 where nothing is prepared under it, 42601 where it has as many
/// arguments as it should not have, or the first fault of these. An UPDATE or a DELETE that waited for a row is not
/// bound again.
pub(crate) fn executed(
    attempt: &Attempt<'_>,
    stores: &Stores,
    rest: &Option<Rest>,
    prepared: &PreparedList,
    name: &[u8],
    arguments: &ExprList,
) -> Result<Execution, Refusal>
    requires { MayAttempt stores.now attempt.now.caller }
    ensures { (h : History) → Stands stores.now h → IsAnswerBy executions.execution result
        (executions.executed h attempt.now.caller.session rest.now (listed prepared.now) name.now (trees arguments.now)) }
{
    let found = prepared.find(attempt.alloc, name)?;
    found.check_count(attempt.alloc, arguments)?;
    let params = if is_under_way(rest) {
        Vec::new(attempt.alloc)
    } else {
        bind(attempt, stores, found, arguments)?
    };
    Ok(Execution {
        statement: share(found.statement())?,
        params,
    })
}

/// What an EXPLAIN of such an EXECUTE plans: 0A000 comes behind 26000 where that is no SELECT.
pub(crate) fn explained_by(
    attempt: &Attempt<'_>,
    stores: &Stores,
    prepared: &PreparedList,
    name: &[u8],
    arguments: &ExprList,
) -> Result<Execution, Refusal>
    requires { MayAttempt stores.now attempt.now.caller }
    ensures { (h : History) → Stands stores.now h → IsAnswerBy executions.execution result
        (executions.explained_by h attempt.now.caller.session (listed prepared.now) name.now (trees arguments.now)) }
{
    let found = prepared.find(attempt.alloc, name)?;
    found.check_explained(attempt.alloc)?;
    found.check_count(attempt.alloc, arguments)?;
    let params = bind(attempt, stores, found, arguments)?;
    Ok(Execution {
        statement: share(found.statement())?,
        params,
    })
}

/// What an EXECUTE of the name executes whose statement has no table.
pub(crate) fn executed_bare(
    alloc: Global,
    prepared: &PreparedList,
    name: &[u8],
    arguments: &ExprList,
) -> Result<Execution, Refusal>
    ensures { IsAnswerBy executions.execution result (executions.executed_over [] (listed prepared.now) name.now (trees arguments.now)) }
{
    let found = prepared.find(alloc, name)?;
    found.check_count(alloc, arguments)?;
    Ok(Execution {
        statement: share(found.statement())?,
        params: found.bind_arguments(alloc, &[], arguments)?,
    })
}
