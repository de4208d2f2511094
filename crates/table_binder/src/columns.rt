ghost use Rattle.std.specs.Prelude.{◌≡◌, ◌++◌, ◌∷◌, [], map, nat_le, length, unwrap_or, OnOk};
ghost use Rattle.std.specs.List.{list_any};
ghost use Rattle.std.specs.Str.{bytes_eq};
ghost use Rattle.pg_values.specs.declared.which.Which.TheVariants.{Columns as WhichColumns};
ghost use Rattle.pg_values.specs.Refusals.{IsAnswer};
ghost use Rattle.refusals.specs.Refusals as refusals;
ghost use Rattle.expression_binder.specs.Firsts.{or_first, unless};
ghost use Rattle.table_binder.specs.Columns as spec;
ghost use Rattle.table_binder.specs.Names as names_spec;

use history::{Column, Columns};
use pg_values::{Kind, NoMemory, Refusal, Which};
use refusals::{column_twice, no_type, too_many};
use sql_ast::{ColumnDefinition, ColumnList};
use std::alloc::Global;

// The names of types.
const TYPES: [(&[u8], Kind); 9] = [
    (b"integer", Kind::Int4),
    (b"int", Kind::Int4),
    (b"int4", Kind::Int4),
    (b"bigint", Kind::Int8),
    (b"int8", Kind::Int8),
    (b"text", Kind::Text),
    (b"date", Kind::Day),
    (b"boolean", Kind::Truth),
    (b"bool", Kind::Truth),
];

fn types() -> &'static [(&'static [u8], Kind)]
    ensures { map (λ line. (line.0.now, line.1)) result.now ≡ spec.types }
{
    &TYPES
}

fn kind_among(name: &[u8], lines: &[(&[u8], Kind)]) -> Option<Kind>
    ensures { result ≡ spec.kind_among name.now (map (λ line. (line.0.now, line.1)) lines.now) }
{
    let mut lines = lines;
    while let [line, rest @ ..] = lines {
        if line.0 == name {
            return Some(line.1);
        }
        lines = rest;
    }
    None
}

/// The kind of a type's name, which is folded already.
#[tactic(auto, unfolding(crate::specs::Columns::kind_named))]
pub fn kind_named(name: &[u8]) -> Option<Kind>
    ensures { result ≡ spec.kind_named name.now }
{
    kind_among(name, types())
}

fn check_count(alloc: Global, count: usize) -> Result<(), Refusal>
    ensures { IsAnswer result (or_first (unless (nat_le count 32) (refusals.too_many WhichColumns)) tt) }
{
    if count <= 32 {
        return Ok(());
    }
    Err(Refusal::Sql(too_many(alloc, Which::Columns)?))
}

fn is_among(columns: &[ColumnDefinition], name: &[u8]) -> bool
    ensures { result ≡ list_any (bytes_eq name.now) (spec.names_of columns.now) }
{
    for column in columns {
        if name == column.name.as_bytes() {
            return true;
        }
    }
    false
}

fn check_once(alloc: Global, earlier: &[ColumnDefinition], name: &[u8]) -> Result<(), Refusal>
    ensures { IsAnswer result (or_first (names_spec.once_faults refusals.column_twice (spec.names_of earlier.now) name.now) tt) }
{
    if is_among(earlier, name) {
        return Err(Refusal::Sql(column_twice(alloc, name)?));
    }
    Ok(())
}

// No column has the name of an earlier one.
fn check_names(alloc: Global, columns: &[ColumnDefinition]) -> Result<(), Refusal>
    ensures { IsAnswer result (or_first (names_spec.twice_faults refusals.column_twice [] (spec.names_of columns.now)) tt) }
{
    for (place, column) in columns.iter().enumerate() {
        check_once(alloc, &columns[..place], column.name.as_bytes())?;
    }
    Ok(())
}

fn check_columns(alloc: Global, columns: &[ColumnDefinition]) -> Result<(), Refusal>
    ensures { IsAnswer result (or_first (unless (nat_le (length columns.now) 32) (refusals.too_many WhichColumns) ++ names_spec.twice_faults refusals.column_twice [] (spec.names_of columns.now)) tt) }
{
    check_count(alloc, columns.len())?;
    check_names(alloc, columns)
}

fn column(alloc: Global, definition: &ColumnDefinition) -> Result<Column, Refusal>
    ensures { IsAnswer result (or_first (spec.type_fault definition.now.kind) (spec.column_of definition.now)) }
{
    let name = definition.name.copy(alloc)?;
    match kind_named(definition.kind.as_bytes()) {
        Some(kind) => Ok(Column {
            name,
            kind,
            not_null: definition.not_null,
        }),
        None => Err(Refusal::Sql(no_type(alloc, definition.kind.as_bytes())?)),
    }
}

fn add(columns: &mut Vec<Column>, column: Column) -> Result<(), NoMemory>
    ensures { OnOk result (columns.new.items ≡ columns.old.items ++ column ∷ []) }
{
    columns.push(column)?;
    Ok(())
}

// The columns with their kinds.
fn make_columns(alloc: Global, definitions: &[ColumnDefinition]) -> Result<Columns, Refusal>
    ensures { IsAnswer result (or_first (spec.type_faults definitions.now) (map spec.column_of definitions.now)) }
{
    let mut columns = Vec::new(alloc);
    for definition in definitions {
        let made = column(alloc, definition)?;
        add(&mut columns, made)?;
    }
    Ok(Columns::new(alloc, columns)?)
}

/// The columns of a table in their order, with their kinds; or the first fault: 54000 for more than 32,
/// 42701 for a name that stands there twice, 42704 for a type that is none.
pub fn bind_columns(alloc: Global, columns: &ColumnList) -> Result<Columns, Refusal>
    ensures { IsAnswer result (spec.bound_columns columns.now) }
{
    let definitions = columns.as_slice();
    check_columns(alloc, definitions)?;
    make_columns(alloc, definitions)
}
