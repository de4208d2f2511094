ghost use Rattle.std.specs.Prelude.{◌≡◌, ◌++◌, ◌∷◌, [], OnOk, map};
ghost use Rattle.sql_ast.specs.Expressions.{trees};
ghost use Rattle.sql_ast.specs.Queries as trees_of;
ghost use Rattle.sql_ast.specs.Queries.{key_tree, maybe_tree, query_tree, row_tree, select_tree};
ghost use Rattle.sql_written.specs.Marks.{blank, text_of};
ghost use Rattle.sql_written.specs.Queries as shown;
ghost use Rattle.sql_written.specs.Words.{word};

use crate::parts::{write_enclosed_names, write_enclosed_values};
use crate::query_parts::{
    write_assignments, write_from, write_items, write_limit, write_offset, write_order, write_rows,
    write_table, write_where,
};
use crate::words::write_prepared_name;
use crate::write_name;
use pg_values::NoMemory;
use sql_ast::{
    Delete, Expr, ExprList, Insert, NameList, Query, RowStatement, Select, SortKey, Update,
};
use sql_tokens::TokenKind;

/// What stands behind the condition of a SELECT.
fn write_order_and_limits(
    order: &[SortKey],
    limit: &Option<Expr>,
    offset: &Option<Expr>,
    out: &mut Vec<u8>,
) -> Result<(), NoMemory>
    ensures { OnOk result (out.new.items ≡ out.old.items ++ text_of (shown.order_marks (map key_tree order.now) ++ (shown.clause TokenKind.Limit (maybe_tree limit.now) ++ shown.clause TokenKind.Offset (maybe_tree offset.now)))) }
{
    write_order(order, out)?;
    write_limit(limit, out)?;
    write_offset(offset, out)
}

fn write_select(select: &Select, out: &mut Vec<u8>) -> Result<(), NoMemory>
    ensures { OnOk result (out.new.items ≡ out.old.items ++ text_of (shown.select_marks (select_tree select.now))) }
{
    out.extend_from_slice(b"SELECT ")?;
    write_items(select.items.as_slice(), out)?;
    write_from(select.from.as_slice(), out)?;
    write_where(&select.condition, out)?;
    write_order_and_limits(select.order.as_slice(), &select.limit, &select.offset, out)
}

fn write_columns(columns: &Option<NameList>, out: &mut Vec<u8>) -> Result<(), NoMemory>
    ensures { OnOk result (out.new.items ≡ out.old.items ++ text_of (shown.columns_marks columns.now)) }
{
    if let Some(columns) = columns {
        out.push(b' ')?;
        write_enclosed_names(columns.as_slice(), out)?;
    }
    Ok(())
}

fn write_insert(insert: &Insert, out: &mut Vec<u8>) -> Result<(), NoMemory>
    ensures { OnOk result (out.new.items ≡ out.old.items ++ text_of (shown.row_statement_marks (row_tree (RowStatement.Insert insert.now)))) }
{
    out.extend_from_slice(b"INSERT INTO ")?;
    write_name(insert.table.as_bytes(), out)?;
    write_columns(&insert.columns, out)?;
    out.extend_from_slice(b" VALUES ")?;
    write_rows(insert.rows.as_slice(), out)
}

fn write_update(update: &Update, out: &mut Vec<u8>) -> Result<(), NoMemory>
    ensures { OnOk result (out.new.items ≡ out.old.items ++ text_of (shown.row_statement_marks (row_tree (RowStatement.Update update.now)))) }
{
    out.extend_from_slice(b"UPDATE ")?;
    write_table(&update.table, out)?;
    out.extend_from_slice(b" SET ")?;
    write_assignments(update.assignments.as_slice(), out)?;
    write_where(&update.condition, out)
}

fn write_delete(delete: &Delete, out: &mut Vec<u8>) -> Result<(), NoMemory>
    ensures { OnOk result (out.new.items ≡ out.old.items ++ text_of (shown.row_statement_marks (row_tree (RowStatement.Delete delete.now)))) }
{
    out.extend_from_slice(b"DELETE FROM ")?;
    write_table(&delete.table, out)?;
    write_where(&delete.condition, out)
}

fn write_row_statement(statement: &RowStatement, out: &mut Vec<u8>) -> Result<(), NoMemory>
    ensures { OnOk result (out.new.items ≡ out.old.items ++ text_of (shown.row_statement_marks (row_tree statement.now))) }
{
    match statement {
        RowStatement::Select(select) => write_select(select, out),
        RowStatement::Insert(insert) => write_insert(insert, out),
        RowStatement::Update(update) => write_update(update, out),
        RowStatement::Delete(delete) => write_delete(delete, out),
    }
}

/// The kinds of the parameters: nothing where none is declared.
fn write_kinds(kinds: &NameList, out: &mut Vec<u8>) -> Result<(), NoMemory>
    ensures { OnOk result (out.new.items ≡ out.old.items ++ text_of (shown.kinds_marks kinds.now)) }
{
    let kinds = kinds.as_slice();
    if !kinds.is_empty() {
        out.push(b' ')?;
        write_enclosed_names(kinds, out)?;
    }
    Ok(())
}

fn write_prepare(
    name: &[u8],
    kinds: &NameList,
    statement: &RowStatement,
    out: &mut Vec<u8>,
) -> Result<(), NoMemory>
    ensures { OnOk result (out.new.items ≡ out.old.items ++ text_of (shown.query_marks (trees_of.prepares name.now kinds.now (row_tree statement.now)))) }
{
    out.extend_from_slice(b"PREPARE ")?;
    write_prepared_name(name, out)?;
    write_kinds(kinds, out)?;
    out.extend_from_slice(b" AS ")?;
    write_row_statement(statement, out)
}

/// The arguments: nothing where there are none.
fn write_arguments(arguments: &ExprList, out: &mut Vec<u8>) -> Result<(), NoMemory>
    ensures { OnOk result (out.new.items ≡ out.old.items ++ text_of (shown.argument_marks (trees arguments.now))) }
{
    if !arguments.as_slice().is_empty() {
        write_enclosed_values(arguments, out)?;
    }
    Ok(())
}

fn write_execute(name: &[u8], arguments: &ExprList, out: &mut Vec<u8>) -> Result<(), NoMemory>
    ensures { OnOk result (out.new.items ≡ out.old.items ++ text_of (shown.execute_marks name.now (trees arguments.now))) }
{
    out.extend_from_slice(b"EXECUTE ")?;
    write_name(name, out)?;
    write_arguments(arguments, out)
}

/// What stands before a statement that is explained.
fn write_explain(analyze: bool, out: &mut Vec<u8>) -> Result<(), NoMemory>
    ensures { OnOk result (out.new.items ≡ out.old.items ++ text_of (word TokenKind.Explain ∷ (shown.analyze_marks analyze ++ blank ∷ []))) }
{
    out.extend_from_slice(b"EXPLAIN ")?;
    if analyze {
        out.extend_from_slice(b"ANALYZE ")?;
    }
    Ok(())
}

/// Appends a query: where memory runs out, a part of it may be there.
pub(crate) fn write_query(query: &Query, out: &mut Vec<u8>) -> Result<(), NoMemory>
    ensures { OnOk result (out.new.items ≡ out.old.items ++ text_of (shown.query_marks (query_tree query.now))) }
{
    match query {
        Query::Rows(statement) => write_row_statement(statement, out),
        Query::Prepare(name, kinds, statement) => {
            write_prepare(name.as_bytes(), kinds, statement, out)
        }
        Query::Execute(name, arguments) => write_execute(name.as_bytes(), arguments, out),
        Query::ExplainSelect(analyze, select) => {
            write_explain(*analyze, out)?;
            write_select(select, out)
        }
        Query::ExplainExecute(analyze, name, arguments) => {
            write_explain(*analyze, out)?;
            write_execute(name.as_bytes(), arguments, out)
        }
    }
}
