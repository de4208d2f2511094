//! Binds statements of SQL from standard input, one in each line, and writes as one line what each means
//! by places and values, or the state and the texts with which it is refused.
//!
//! There are three tables: `t` with `a` (an integer), `c` (a text), `d` (a date) and `b` (a boolean), `u` with
//! `a` (an integer), `n` (a bigint) and `e` (a text), and `v` with `k` (a bigint) and `d` (a date). `$1` is the
//! integer 7, `$2` the text `x`, `$3` a date that is null. The session is number 1.
//!
//! EXECUTE is read with three parameters: the first is declared an integer, the second has the place of a date,
//! and of the third nothing is known.
//!
//! Of PREPARE the kinds are written that the places of `$2`, `$3` and `$4` give them, a dash where none does: their
//! arguments are string literals, and `$1` is an integer. Where several statements are in one line, what those before
//! the last one prepare and deallocate is there for it: of EXECUTE, and of EXPLAIN of an EXECUTE, the parameters are
//! written that the statement of that name has, and behind those of EXECUTE stands what the statement means with their
//! values in its conditions.
//!
//! Of CREATE TABLE the columns are written with their kinds, and the places of those of its key. Behind it, in one
//! line, CREATE TABLE with PARTITION OF is read as that of its partition, and the bound is written.
//!
//! A column is written by the place of its FROM item and its own place there, `0.2`, a bigint with an `L`
//! behind it, and each operator stands before its operands.
//!
//! That the first rule that is broken is told is proved in `sql_binder` and `table_binder`, and that
//! the first place counts in `prepared_statements`. Here the rules are seen: `stdin` has the statements, and `stdout` what
//! was worked out by hand from them.

use crate::bound::{write_change, write_insert, write_params, write_select};
use crate::definitions::{write_partition, write_table};
use crate::kinds::write_kinds;
use crate::prepared::{prepared_by, write_executed, write_explained};
use crate::tables::{SESSION, columns_of, item_of, items_of, params};
use pg_values::{Fault, Kind, NoMemory, Refusal};
use sql_ast::{Command, Delete, ExprList, Insert, Query, RowStatement, Select, Statement, Update};
use sql_binder::{Wanted, bind_arguments, bind_delete, bind_insert, bind_select, bind_update};
use sql_syntax::parse_block;
use std::alloc::Global;

fn select_line(alloc: Global, select: &Select, out: &mut Vec<u8>) -> Result<(), Refusal> {
    let items = items_of(alloc, select.from.as_slice())?;
    let bound = bind_select(alloc, select, &items, &params(alloc)?, SESSION)?;
    Ok(write_select(alloc, &bound, out)?)
}

fn insert_line(alloc: Global, insert: &Insert, out: &mut Vec<u8>) -> Result<(), Refusal> {
    let columns = columns_of(alloc, insert.table.as_bytes())?;
    let bound = bind_insert(alloc, insert, &columns, &params(alloc)?, SESSION)?;
    Ok(write_insert(alloc, &bound, out)?)
}

fn update_line(alloc: Global, update: &Update, out: &mut Vec<u8>) -> Result<(), Refusal> {
    let item = item_of(alloc, &update.table, 0)?;
    let bound = bind_update(alloc, update, &item, &params(alloc)?, SESSION)?;
    Ok(write_change(alloc, b"update", &bound, out)?)
}

fn delete_line(alloc: Global, delete: &Delete, out: &mut Vec<u8>) -> Result<(), Refusal> {
    let item = item_of(alloc, &delete.table, 0)?;
    let bound = bind_delete(alloc, delete, &item, &params(alloc)?, SESSION)?;
    Ok(write_change(alloc, b"delete", &bound, out)?)
}

fn arguments_line(alloc: Global, arguments: &ExprList, out: &mut Vec<u8>) -> Result<(), Refusal> {
    let wanted = [
        Wanted::Declared(Kind::Int4),
        Wanted::Placed(Kind::Day),
        Wanted::Free,
    ];
    let params = bind_arguments(alloc, arguments, &wanted)?;
    Ok(write_params(alloc, &params, out)?)
}

fn write_other(out: &mut Vec<u8>) -> Result<(), NoMemory> {
    out.extend_from_slice(b"neither a statement on rows, nor PREPARE, EXECUTE or CREATE TABLE")?;
    Ok(())
}

fn bound_line(alloc: Global, query: &Query, out: &mut Vec<u8>) -> Result<(), Refusal> {
    match query {
        Query::Rows(RowStatement::Select(select)) => select_line(alloc, select, out),
        Query::Rows(RowStatement::Insert(insert)) => insert_line(alloc, insert, out),
        Query::Rows(RowStatement::Update(update)) => update_line(alloc, update, out),
        Query::Rows(RowStatement::Delete(delete)) => delete_line(alloc, delete, out),
        Query::Execute(_, arguments) => arguments_line(alloc, arguments, out),
        Query::Prepare(_, _, statement) => Ok(write_kinds(alloc, statement, out)?),
        _ => Ok(write_other(out)?),
    }
}

fn write_fault(fault: &Fault, out: &mut Vec<u8>) -> Result<(), NoMemory> {
    out.extend_from_slice(&fault.code.bytes)?;
    for text in fault.args.as_slice() {
        out.push(b' ')?;
        out.extend_from_slice(text.as_bytes())?;
    }
    Ok(())
}

/// The statements of the block that the line is.
fn statements_of(alloc: Global, line: &[u8]) -> Vec<Statement> {
    match parse_block(alloc, line) {
        Ok(statements) => statements,
        Err(_) => Vec::new(alloc),
    }
}

fn command_line(
    alloc: Global,
    before: Option<&Statement>,
    command: &Command,
    out: &mut Vec<u8>,
) -> Result<(), Refusal> {
    match (before, command) {
        (_, Command::CreateTable(_, columns, by)) => write_table(alloc, columns, by, out),
        (
            Some(Statement::Command(Command::CreateTable(_, columns, Some(by)))),
            Command::CreatePartition(_, _, bound, _),
        ) => write_partition(alloc, columns, by, bound, out),
        _ => Ok(write_other(out)?),
    }
}

/// What a statement means behind others of its line.
fn written(
    alloc: Global,
    earlier: &[Statement],
    statement: &Statement,
    out: &mut Vec<u8>,
) -> Result<(), Refusal> {
    let prepared = prepared_by(alloc, earlier)?;
    match (earlier.last(), statement) {
        (Some(_), Statement::Query(Query::Execute(name, arguments))) => {
            write_executed(alloc, &prepared, name.as_bytes(), arguments, out)
        }
        (Some(_), Statement::Query(Query::ExplainExecute(_, name, arguments))) => {
            write_explained(alloc, &prepared, name.as_bytes(), arguments, out)
        }
        (_, Statement::Query(query)) => bound_line(alloc, query, out),
        (before, Statement::Command(command)) => command_line(alloc, before, command, out),
    }
}

/// What the last statement of a line means, or the first fault of those that the line prepares and deallocates.
pub(crate) fn meaning(alloc: Global, line: &[u8]) -> Result<Vec<u8>, NoMemory> {
    let mut out = Vec::new(alloc);
    let statements = statements_of(alloc, line);
    let Some((last, earlier)) = statements.split_last() else {
        out.extend_from_slice(b"no statement")?;
        return Ok(out);
    };
    match written(alloc, earlier, last, &mut out) {
        Ok(()) => {}
        Err(Refusal::Sql(fault)) => write_fault(&fault, &mut out)?,
        Err(Refusal::NoMemory) => return Err(NoMemory),
    }
    Ok(out)
}
