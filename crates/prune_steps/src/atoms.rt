//! What an operand, a value and an operator are to the key columns of a level.

ghost use Rattle.std.specs.Prelude.{◌≡◌, ◌==◌, slice_get};
ghost use Rattle.std.specs.List.{position as place_among};
ghost use Rattle.cond_logic.specs.Tuples.{lent};
ghost use Rattle.prune_steps.specs.Atoms as spec;

use bound_forms::Level;
use cond_logic::CompareOp;
use pg_values::{Kind, Value};

pub(crate) fn place_of(level: &Level, position: usize) -> Option<usize>
    ensures { result ≡ place_among (λ k. k.position == position) level.now.columns }
{
    let columns = level.columns.as_slice();
    columns.iter().position(|k| k.position == position)
}

pub(crate) fn is_null(value: Option<&Value>) -> bool
    ensures { result ≡ spec.known_null (lent value.entry) }
{
    match value {
        Some(value) => matches!(value, Value::Null),
        None => false,
    }
}

fn compares_with(kind: Kind, value: &Value) -> bool
    ensures { result ≡ spec.compares_with kind value.now }
{
    match (kind, value) {
        (Kind::Int4, Value::Int4(_)) => true,
        (Kind::Int4, Value::Int8(_)) => true,
        (Kind::Int8, Value::Int4(_)) => true,
        (Kind::Int8, Value::Int8(_)) => true,
        (Kind::Text, Value::Text(_)) => true,
        (Kind::Day, Value::Day(_)) => true,
        (Kind::Truth, Value::Truth(_)) => true,
        _ => false,
    }
}

pub(crate) fn turned(op: CompareOp) -> CompareOp
    ensures { result ≡ spec.turned op }
{
    match op {
        CompareOp::Eq => CompareOp::Eq,
        CompareOp::Ne => CompareOp::Ne,
        CompareOp::Lt => CompareOp::Gt,
        CompareOp::Le => CompareOp::Ge,
        CompareOp::Gt => CompareOp::Lt,
        CompareOp::Ge => CompareOp::Le,
    }
}

// Whether the value can be compared with those of the key column of this number.
pub(crate) fn suits(level: &Level, j: usize, value: &Value) -> bool
    ensures { result ≡ spec.suits (slice_get level.now.columns j) value.now }
{
    match level.columns.as_slice().get(j) {
        Some(column) => compares_with(column.kind, value),
        None => false,
    }
}
