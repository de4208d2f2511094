ghost use Rattle.std.specs.Prelude.{◌≡◌, ℤ, pos, IfOk};
ghost use Rattle.pg_values.specs.Refusals.{IsAnswer};
ghost use Rattle.cond_logic.specs.Scalars.{scalar_tree};
ghost use Rattle.cond_logic.specs.Tuples.{place, value_in};
ghost use Rattle.cond_logic.specs.Tables.{table};
ghost use Rattle.cond_logic.specs.Values as values;

use crate::faults::arith_fault;
use crate::{Binding, ColumnId, RowTables, Scalar};
use pg_values::{NoMemory, Refusal, Value, copy_value};
use std::alloc::Global;
use value_rules::{Arith, arith};

/// The value of a column. A row or a column that is not there counts as null.
pub fn column_value(
    alloc: Global,
    binding: &Binding<'_>,
    column: ColumnId,
) -> Result<Value, NoMemory>
    ensures { IfOk result (λ v. v ≡ value_in (place binding.now.rows column.item) column.position) }
{
    match binding.row(column.item) {
        Some(row) => match row.as_slice().get(column.position) {
            Some(value) => copy_value(alloc, value),
            None => Ok(Value::Null),
        },
        None => Ok(Value::Null),
    }
}

/// The name of the table in which the row of that item lies, as a text; null where there is no row.
pub fn table_value(alloc: Global, tables: &RowTables<'_>, item: u32) -> Result<Value, NoMemory>
    ensures { IfOk result (λ v. v ≡ values.as_text (table tables.now item)) }
{
    match tables.table(item) {
        Some(leaf) => Ok(Value::Text(leaf.name.copy(alloc)?)),
        None => Ok(Value::Null),
    }
}

/// The place of that table in the order in which tables were made, as a bigint; null where there is no
/// row.
pub fn table_number(tables: &RowTables<'_>, item: u32) -> Value
    ensures { result ≡ values.as_number (table tables.now item) }
{
    match tables.table(item) {
        Some(leaf) => Value::Int8(leaf.id.number as i64),
        None => Value::Null,
    }
}

fn work_out(alloc: Global, op: Arith, a: &Value, b: &Value) -> Result<Value, Refusal>
    ensures { IsAnswer result (values.worked_out op a.now b.now) }
{
    match arith(op, a, b) {
        Ok(value) => Ok(value),
        Err(fault) => Err(Refusal::Sql(arith_fault(alloc, a, op, b, fault)?)),
    }
}

fn is_session(sessions: u32, n: i64) -> bool
    ensures { result ≡ values.is_session sessions n }
{
    1 <= n && n <= sessions as i64
}

fn answered(sessions: u32, number: &Value) -> Value
    ensures { result ≡ values.answered sessions number.now }
{
    match number {
        Value::Null => Value::Null,
        Value::Int4(n) => Value::Truth(is_session(sessions, *n as i64)),
        Value::Int8(n) => Value::Truth(is_session(sessions, *n)),
        Value::Text(_) => Value::Truth(false),
        Value::Day(_) => Value::Truth(false),
        Value::Truth(_) => Value::Truth(false),
    }
}

/// What an expression is worth for the rows of a binding, which lie in these tables, where there are
/// sessions with the numbers from 1 to `sessions`; or the first fault in it. No session is cancelled.
pub fn scalar_value(
    alloc: Global,
    scalar: &Scalar,
    binding: &Binding<'_>,
    tables: &RowTables<'_>,
    sessions: u32,
) -> Result<Value, Refusal>
    ensures { IsAnswer result (values.value_for sessions binding.now.rows tables.now (scalar_tree scalar.now)) }
{
    match scalar {
        Scalar::Column(column) => Ok(column_value(alloc, binding, *column)?),
        Scalar::Lit(value) => Ok(copy_value(alloc, value)?),
        Scalar::TableName(item) => Ok(table_value(alloc, tables, *item)?),
        Scalar::Arith(op, left, right) => {
            let a = scalar_value(alloc, left, binding, tables, sessions)?;
            let b = scalar_value(alloc, right, binding, tables, sessions)?;
            work_out(alloc, *op, &a, &b)
        }
        Scalar::Cancel(number) => {
            let number = scalar_value(alloc, number, binding, tables, sessions)?;
            Ok(answered(sessions, &number))
        }
    }
}
