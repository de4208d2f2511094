use expression_binder::{Param, ScopeColumn, ScopeItem};
use pg_values::{Kind, NoMemory, PgText, Value};
use sql_ast::{FromItem, NamedTable};
use std::alloc::Global;

/// The session whose statements they are.
pub(crate) const SESSION: u32 = 1;

const T: &[(&[u8], Kind)] = &[
    (b"a", Kind::Int4),
    (b"c", Kind::Text),
    (b"d", Kind::Day),
    (b"b", Kind::Truth),
];

const U: &[(&[u8], Kind)] = &[(b"a", Kind::Int4), (b"n", Kind::Int8), (b"e", Kind::Text)];

const V: &[(&[u8], Kind)] = &[(b"k", Kind::Int8), (b"d", Kind::Day)];

fn columns_in(alloc: Global, named: &[(&[u8], Kind)]) -> Result<Vec<ScopeColumn>, NoMemory> {
    let mut columns = Vec::new(alloc);
    for (name, kind) in named {
        let name = PgText::from_bytes(alloc, name)?;
        columns.push(ScopeColumn { name, kind: *kind })?;
    }
    Ok(columns)
}

/// The columns of a table; a name that is none of the three stands for `v`.
pub(crate) fn columns_of(alloc: Global, table: &[u8]) -> Result<Vec<ScopeColumn>, NoMemory> {
    match table {
        [b't'] => columns_in(alloc, T),
        [b'u'] => columns_in(alloc, U),
        _ => columns_in(alloc, V),
    }
}

pub(crate) fn item_of(
    alloc: Global,
    table: &NamedTable,
    number: u32,
) -> Result<ScopeItem, NoMemory> {
    let name = match &table.alias {
        None => table.name.as_bytes(),
        Some(alias) => alias.as_bytes(),
    };
    let columns = columns_of(alloc, table.name.as_bytes())?;
    Ok(ScopeItem::new(PgText::from_bytes(alloc, name)?, number, columns))
}

pub(crate) fn items_of(alloc: Global, from: &[FromItem]) -> Result<Vec<ScopeItem>, NoMemory> {
    let mut items = Vec::new(alloc);
    let mut number: u32 = 0;
    for table in from {
        items.push(item_of(alloc, &table.table, number)?)?;
        number = number.wrapping_add(1);
    }
    Ok(items)
}

pub(crate) fn params(alloc: Global) -> Result<Vec<Param>, NoMemory> {
    let mut params = Vec::new(alloc);
    params.push(Param {
        kind: Kind::Int4,
        value: Value::Int4(7),
    })?;
    params.push(Param {
        kind: Kind::Text,
        value: Value::Text(PgText::from_bytes(alloc, b"x")?),
    })?;
    params.push(Param {
        kind: Kind::Day,
        value: Value::Null,
    })?;
    Ok(params)
}
