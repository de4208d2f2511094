ghost use Rattle.std.specs.Prelude.{◌≡◌, ℕ, ◌<◌, ◌++◌, ◌∷◌, [], true, length, map, get_or, IfOk, OnOk};
ghost use Rattle.row_change.specs.FullRows as full_rows;

use pg_values::{NoMemory, Row, Value, copy_value};
use std::alloc::Global;

// The value that is given for a column.
fn value_for(
    alloc: Global,
    named: &[usize],
    values: &[Value],
    column: usize,
) -> Result<Value, NoMemory>
    ensures { IfOk result (λ v. v ≡ full_rows.value_for named.now values.now column) }
{
    let mut rest = values;
    for place in named {
        match rest.split_first() {
            None => return Ok(Value::Null),
            Some((value, others)) => {
                if *place == column {
                    return copy_value(alloc, value);
                }
                rest = others;
            }
        }
    }
    Ok(Value::Null)
}

pub fn add_value(row: &mut Row, value: Value) -> Result<(), NoMemory>
    ensures { OnOk result (row.new ≡ row.old ++ value ∷ []) }
{
    row.push(value)?;
    Ok(())
}

#[tactic(auto, using(crate::proofs::Steps::full_row_more))]
fn fill_row(alloc: Global, width: usize, named: &[usize], values: &Row) -> Result<Row, NoMemory>
    ensures { IfOk result (λ row. row ≡ full_rows.full_row width named.now values.now) }
{
    let mut row = Row::with_room(alloc, width)?;
    for column in 0..width {
        let value = value_for(alloc, named, values.as_slice(), column)?;
        add_value(&mut row, value)?;
    }
    Ok(row)
}

fn are_in_order(named: &[usize]) -> bool
    ensures { result ≡ true → (k : ℕ) → k < length named.now → get_or named.now k 0 ≡ k }
{
    for place in 0..named.len() {
        if named[place] != place {
            return false;
        }
    }
    true
}

// All columns are named in their order, and each has its value.
#[tactic(auto, using(crate::proofs::Ordered::in_order))]
fn is_full(width: usize, named: &[usize], values: &Row) -> bool
    ensures { result ≡ true → full_rows.full_row width named.now values.now ≡ values.now }
{
    if named.len() != width {
        return false;
    }
    if values.len() != width {
        return false;
    }
    are_in_order(named)
}

/// Whether each of the rows has a value for each column, in their order.
pub fn are_full(width: usize, named: &[usize], rows: &[Row]) -> bool
    ensures { result ≡ true → map (full_rows.full_row width named.now) rows.now ≡ rows.now }
{
    for row in rows {
        if !is_full(width, named, row) {
            return false;
        }
    }
    true
}

/// The row of a table of so many columns from the values for the named ones, which it is itself where all are
/// named in their order. Columns that are not named are null.
pub fn full_row(alloc: Global, width: usize, named: &[usize], values: Row) -> Result<Row, NoMemory>
    ensures { IfOk result (λ row. row ≡ full_rows.full_row width named.now values) }
{
    if is_full(width, named, &values) {
        return Ok(values);
    }
    fill_row(alloc, width, named, &values)
}
