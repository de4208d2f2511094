//! The key of a row at a level.

ghost use Rattle.std.specs.Prelude.{◌≡◌, IfOk, map, slice_index_or};
ghost use Rattle.pg_values.specs.declared.value.Value.TheVariants.{Null};
ghost use Rattle.bound_forms.specs.Points.{picked};
ghost use Rattle.row_router.specs.Trees.{key_of};
ghost use Rattle.row_change.specs.Placing as placing;

use crate::full_rows::add_value;
use bound_forms::{KeyColumn, Level};
use history::TableShape;
use pg_values::{NoMemory, Row, Value, copy_value};
use row_router::Place;
use std::alloc::Global;

fn value_at(alloc: Global, row: &[Value], place: usize) -> Result<Value, NoMemory>
    ensures { IfOk result (λ v. v ≡ slice_index_or row.now place Null) }
{
    match row.get(place) {
        None => Ok(Value::Null),
        Some(value) => copy_value(alloc, value),
    }
}

// The values of a row in these columns.
fn picked_key(alloc: Global, columns: &[KeyColumn], row: &[Value]) -> Result<Row, NoMemory>
    ensures { IfOk result (λ key. key ≡ picked row.now (map (λ c. c.position) columns.now)) }
{
    let mut key = Row::new(alloc);
    for column in columns {
        let value = value_at(alloc, row, column.position)?;
        add_value(&mut key, value)?;
    }
    Ok(key)
}

fn level_key(alloc: Global, level: &Level, row: &[Value]) -> Result<Row, NoMemory>
    ensures { IfOk result (λ key. key ≡ key_of level.now row.now) }
{
    picked_key(alloc, level.columns.as_slice(), row)
}

/// The key that the parent of a table asks of a row; none where it has no parent.
pub fn key_above(alloc: Global, place: &Option<Place>, row: &[Value]) -> Result<Row, NoMemory>
    ensures { IfOk result (λ key. key ≡ placing.key_above place.now row.now) }
{
    match place {
        None => Ok(Row::new(alloc)),
        Some(place) => level_key(alloc, &place.level, row),
    }
}

/// The key that a table asks of a row; none where it has no partitions.
pub fn key_in(alloc: Global, shape: &TableShape, row: &[Value]) -> Result<Row, NoMemory>
    ensures { IfOk result (λ key. key ≡ placing.key_in shape.now row.now) }
{
    match shape {
        TableShape::Leaf(_) => Ok(Row::new(alloc)),
        TableShape::Level(level) => level_key(alloc, level, row),
    }
}
