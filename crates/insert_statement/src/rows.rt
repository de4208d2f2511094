//! The rows of VALUES, with a value for each column of the table.

ghost use Rattle.std.specs.Prelude.{◌≡◌, ◌<◌, ◌++◌, ◌∷◌, [], IfOk, OnOk, map, length};
ghost use Rattle.sql_ast.specs.Expressions.{trees};
ghost use Rattle.expression_binder.specs.Firsts.{IsAnswerBy};
ghost use Rattle.row_change.specs.FullRows as full_rows;
ghost use Rattle.statement_steps.specs.Attempts.{MayAttempt};
ghost use Rattle.statement_steps.specs.Steps.{IsStep};
ghost use Rattle.insert_statement.specs.Inserted as inserted;
ghost use Rattle.row_change.specs.Laws.{AreRowsOf};

use binding_laws::inserts_fit;
use cond_logic::InsertAsk;
use expression_binder::Param;
use history::Column;
use pg_values::{NoMemory, Refusal, Row, TableNo};
use row_change::full_row;
use sql_ast::Insert;
use sql_binder::bind_insert;
use statement_steps::{Attempt, Stop, scope_columns};
use std::alloc::Global;
use stores::Stores;

fn whole_rows(
    alloc: Global,
    width: usize,
    named: &[usize],
    rows: Vec<Row>,
) -> Result<Vec<Row>, NoMemory>
    ensures { IfOk result (λ whole. whole.items ≡ map (full_rows.full_row width named.now) rows.items) }
{
    let mut whole = Vec::with_capacity(alloc, rows.len())?;
    for values in rows {
        let row = full_row(alloc, width, named, values)?;
        whole.push(row)?;
    }
    Ok(whole)
}

// The rows of a table with the columns, or the first fault of the statement.
fn rows_for(
    alloc: Global,
    columns: &[Column],
    params: &[Param],
    session: u32,
    statement: &Insert,
) -> Result<Vec<Row>, Refusal>
    ensures { IsAnswerBy (λ rows. rows.items) result (inserted.whole_rows columns.now params.now session statement.now.columns (map trees statement.now.rows)) }
{
    let named = scope_columns(alloc, columns)?;
    let InsertAsk {
        columns: places,
        rows,
    } = bind_insert(alloc, statement, &named, params, session)?;
    Ok(whole_rows(alloc, columns.len(), places.as_slice(), rows.into_vec())?)
}

/// The rows of the table that an INSERT gives, or its first fault.
pub(crate) fn rows_meant(
    attempt: &Attempt<'_>,
    stores: &Stores,
    params: &[Param],
    table: TableNo,
    statement: &Insert,
) -> Result<Vec<Row>, Stop>
    requires may { MayAttempt stores.now attempt.now.caller }
    requires known { table.number < length stores.now.catalog.tables }
    ensures step { IsStep (λ rows. rows.items) result stores.now stores.now attempt.now.caller attempt.now.caller.cmd (inserted.rows_meant params.now attempt.now.caller.session table.number statement.now.columns (map trees statement.now.rows)) }
    ensures of { IfOk result (λ rows. AreRowsOf stores.now.catalog table rows.items) }
{
    let session = attempt.caller.session;
    inserts_fit();
    let columns = stores.catalog.table(table).columns.as_slice();
    let rows = rows_for(attempt.alloc, columns, params, session, statement)?;
    Ok(rows)
}
