use crate::bound::write_params;
use crate::custom::write_custom;
use crate::kinds::tables_of;
use expression_binder::Param;
use pg_values::{NoMemory, Refusal};
use prepared_statements::{PreparedList, PreparedStatement};
use sql_ast::{Command, ExprList, Query, Statement};
use std::alloc::Global;

/// What a statement does to the prepared ones.
fn keep(alloc: Global, prepared: &mut PreparedList, statement: &Statement) -> Result<(), Refusal> {
    match statement {
        Statement::Query(Query::Prepare(name, types, statement)) => {
            prepared.prepare(alloc, name, types, statement)
        }
        Statement::Command(Command::Deallocate(name)) => {
            prepared.deallocate(alloc, name.as_bytes())
        }
        Statement::Command(Command::DeallocateAll) => {
            prepared.deallocate_all();
            Ok(())
        }
        _ => Ok(()),
    }
}

/// The statements that are prepared behind those of a line, or the first of their faults.
pub(crate) fn prepared_by(
    alloc: Global,
    statements: &[Statement],
) -> Result<PreparedList, Refusal> {
    let mut prepared = PreparedList::new(alloc);
    for statement in statements {
        keep(alloc, &mut prepared, statement)?;
    }
    Ok(prepared)
}

fn params_of(
    alloc: Global,
    prepared: &PreparedStatement,
    arguments: &ExprList,
) -> Result<Vec<Param>, Refusal> {
    prepared.check_count(alloc, arguments)?;
    let tables = tables_of(alloc, prepared.statement())?;
    prepared.bind_arguments(alloc, &tables, arguments)
}

fn write_before(alloc: Global, params: &[Param], out: &mut Vec<u8>) -> Result<(), NoMemory> {
    write_params(alloc, params, out)?;
    out.extend_from_slice(b": ")?;
    Ok(())
}

/// Writes the parameters of the prepared statement that is executed, and what it means with their values in place.
pub(crate) fn write_executed(
    alloc: Global,
    prepared: &PreparedList,
    name: &[u8],
    arguments: &ExprList,
    out: &mut Vec<u8>,
) -> Result<(), Refusal> {
    let statement = prepared.find(alloc, name)?;
    let params = params_of(alloc, statement, arguments)?;
    write_before(alloc, &params, out)?;
    write_custom(alloc, statement.statement(), &params, out)
}

/// Writes the parameters of the prepared SELECT whose execution is explained.
pub(crate) fn write_explained(
    alloc: Global,
    prepared: &PreparedList,
    name: &[u8],
    arguments: &ExprList,
    out: &mut Vec<u8>,
) -> Result<(), Refusal> {
    let statement = prepared.find(alloc, name)?;
    statement.check_explained(alloc)?;
    let params = params_of(alloc, statement, arguments)?;
    Ok(write_params(alloc, &params, out)?)
}
