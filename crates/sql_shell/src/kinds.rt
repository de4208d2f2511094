use crate::tables::{columns_of, item_of, items_of};
use expression_binder::{Given, ScopeItem};
use pg_values::{Kind, NoMemory, PgText};
use prepared_statements::kinds_in_statement;
use refusals::kind_word;
use sql_ast::RowStatement;
use std::alloc::Global;

// What the arguments are: the first is an integer, the others are string literals.
const GIVENS: [Given; 4] = [
    Given::Of(Kind::Int4),
    Given::Quoted,
    Given::Quoted,
    Given::Quoted,
];

/// The tables of a statement, with their columns.
pub(crate) fn tables_of(
    alloc: Global,
    statement: &RowStatement,
) -> Result<Vec<ScopeItem>, NoMemory> {
    let mut tables = Vec::new(alloc);
    match statement {
        RowStatement::Select(select) => return items_of(alloc, select.from.as_slice()),
        RowStatement::Insert(insert) => {
            let name = insert.table.as_bytes();
            let columns = columns_of(alloc, name)?;
            tables.push(ScopeItem::new(PgText::from_bytes(alloc, name)?, 0, columns))?;
        }
        RowStatement::Update(update) => tables.push(item_of(alloc, &update.table, 0)?)?,
        RowStatement::Delete(delete) => tables.push(item_of(alloc, &delete.table, 0)?)?,
    }
    Ok(tables)
}

/// Writes the kinds that the places of `$2`, `$3` and `$4` give them, and a dash where none does.
pub(crate) fn write_kinds(
    alloc: Global,
    statement: &RowStatement,
    out: &mut Vec<u8>,
) -> Result<(), NoMemory> {
    let tables = tables_of(alloc, statement)?;
    let kinds = kinds_in_statement(alloc, statement, &tables, &GIVENS, GIVENS.len())?;
    out.extend_from_slice(b"kinds")?;
    for kind in &kinds[1..] {
        out.push(b' ')?;
        match kind {
            Some(kind) => out.extend_from_slice(kind_word(*kind))?,
            None => out.push(b'-')?,
        }
    }
    Ok(())
}
