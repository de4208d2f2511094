ghost use Rattle.std.specs.Prelude.{◌≡◌, IfOk, length, map, slice_set};
ghost use Rattle.pg_values.specs.Refusals.{IsAnswer};
ghost use Rattle.value_rules.specs.Assignment.{assigned};
ghost use Rattle.row_router.specs.Trees.{IsRowOf};
ghost use Rattle.cond_logic.specs.Asked.{setting_meant};
ghost use Rattle.change_statement.specs.NewRows as rows;

use cond_logic::{Binding, RowTables, Setting, scalar_value};
use history::Column;
use pg_values::{Kind, NoMemory, Refusal, Row, Value, copy_value, kind_of};
use refusals::{out_of_range, wrong_kind};
use std::alloc::Global;
use value_rules::{CoerceFault, coerce};

fn kind_at(columns: &[Column], place: usize) -> Kind
    ensures { result ≡ rows.kind_at columns.now place }
{
    match columns.get(place) {
        Some(column) => column.kind,
        None => Kind::Text,
    }
}

// The value that a column of the kind gets.
fn assign(alloc: Global, kind: Kind, value: Value) -> Result<Value, Refusal>
    ensures { IsAnswer result (rows.or_refused value kind (assigned value kind)) }
{
    let given = kind_of(&value);
    match coerce(value, kind) {
        Ok(value) => Ok(value),
        Err((_, CoerceFault::Range)) => Err(Refusal::Sql(out_of_range(alloc))),
        Err((_, CoerceFault::Kinds)) => Err(Refusal::Sql(wrong_kind(alloc, given, kind)?)),
    }
}

fn set_value(
    alloc: Global,
    columns: &[Column],
    setting: &Setting,
    row: &Row,
) -> Result<Value, Refusal>
    ensures { IsAnswer result (rows.set_value columns.now row.now (setting_meant setting.now)) }
{
    let binding = Binding::new(&[]).with(0, row);
    let value = scalar_value(alloc, &setting.value, &binding, &RowTables::none(), 0)?;
    assign(alloc, kind_at(columns, setting.column), value)
}

fn set_at(values: &mut Vec<Value>, place: usize, value: Value)
    ensures { values.new.items ≡ slice_set values.old.items place value }
{
    if place < values.len() {
        values[place] = value;
    }
}

fn values_of(alloc: Global, row: &Row) -> Result<Vec<Value>, NoMemory>
    ensures { IfOk result (λ values. values.items ≡ row.now) }
{
    let mut values = Vec::new(alloc);
    for value in row.as_slice() {
        values.push(copy_value(alloc, value)?)?;
    }
    Ok(values)
}

fn row_of(alloc: Global, values: Vec<Value>) -> Result<Row, NoMemory>
    ensures { IfOk result (λ row. row ≡ values.items) }
{
    let mut row = Row::new(alloc);
    for value in values {
        row.push(value)?;
    }
    Ok(row)
}

/// The row with the settings' values in their columns, each computed from the row as it was, or the first
/// fault. The columns are those of the table that the settings speak of.
pub fn new_row(
    alloc: Global,
    columns: &[Column],
    settings: &[Setting],
    row: &Row,
) -> Result<Row, Refusal>
    ensures is { IsAnswer result (rows.new_row columns.now (map setting_meant settings.now) row.now) }
    ensures length { IfOk result (λ new. length new ≡ length row.now) }
    ensures columns { IfOk result (λ new. IsRowOf columns.now row.now → IsRowOf columns.now new) }
{
    let mut values = values_of(alloc, row)?;
    for setting in settings {
        let value = set_value(alloc, columns, setting, row)?;
        set_at(&mut values, setting.column, value);
    }
    Ok(row_of(alloc, values)?)
}
