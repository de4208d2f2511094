use crate::bound::{write_change, write_insert, write_select};
use crate::tables::{SESSION, columns_of, item_of, items_of};
use expression_binder::Param;
use pg_values::Refusal;
use sql_ast::{Delete, Insert, RowStatement, Select, Update};
use sql_binder::{
    bind_delete, bind_insert, bind_select, bind_update, put_change_values, put_values,
};
use std::alloc::Global;

fn write_custom_select(
    alloc: Global,
    select: &Select,
    params: &[Param],
    out: &mut Vec<u8>,
) -> Result<(), Refusal> {
    let items = items_of(alloc, select.from.as_slice())?;
    let bound = bind_select(alloc, select, &items, params, SESSION)?;
    let custom = put_values(alloc, bound, params)?;
    Ok(write_select(alloc, &custom, out)?)
}

fn write_custom_insert(
    alloc: Global,
    insert: &Insert,
    params: &[Param],
    out: &mut Vec<u8>,
) -> Result<(), Refusal> {
    let columns = columns_of(alloc, insert.table.as_bytes())?;
    let bound = bind_insert(alloc, insert, &columns, params, SESSION)?;
    Ok(write_insert(alloc, &bound, out)?)
}

fn write_custom_update(
    alloc: Global,
    update: &Update,
    params: &[Param],
    out: &mut Vec<u8>,
) -> Result<(), Refusal> {
    let item = item_of(alloc, &update.table, 0)?;
    let bound = bind_update(alloc, update, &item, params, SESSION)?;
    let custom = put_change_values(alloc, bound, params)?;
    Ok(write_change(alloc, b"update", &custom, out)?)
}

fn write_custom_delete(
    alloc: Global,
    delete: &Delete,
    params: &[Param],
    out: &mut Vec<u8>,
) -> Result<(), Refusal> {
    let item = item_of(alloc, &delete.table, 0)?;
    let bound = bind_delete(alloc, delete, &item, params, SESSION)?;
    let custom = put_change_values(alloc, bound, params)?;
    Ok(write_change(alloc, b"delete", &custom, out)?)
}

/// Writes what a statement means with the values of its parameters in their places.
pub(crate) fn write_custom(
    alloc: Global,
    statement: &RowStatement,
    params: &[Param],
    out: &mut Vec<u8>,
) -> Result<(), Refusal> {
    match statement {
        RowStatement::Select(select) => write_custom_select(alloc, select, params, out),
        RowStatement::Insert(insert) => write_custom_insert(alloc, insert, params, out),
        RowStatement::Update(update) => write_custom_update(alloc, update, params, out),
        RowStatement::Delete(delete) => write_custom_delete(alloc, delete, params, out),
    }
}
