ghost use Rattle.std.specs.Prelude.{◌≡◌};
ghost use Rattle.value_rules.specs.Assignment.{is_text_kind, is_date_kind, is_truth_kind, IsAssigned};
ghost use Rattle.pg_values.specs.declared.value.Kind.TheVariants.{Int4 as KInt4};
ghost use Rattle.pg_values.specs.declared.value.Value.TheVariants.{Int4, Int8};

use crate::range::fitted;
use pg_values::{Kind, Value};

/// The kinds do not go together, or the number does not fit the kind.
#[derive(Clone, Copy, Debug, PartialEq, Eq)]
pub enum CoerceFault {
    Kinds,
    Range,
}

fn coerce_integer(n: i32, to: Kind) -> Result<Value, (Value, CoerceFault)>
    ensures { IsAssigned (Int4 n) to result }
{
    match to {
        Kind::Int4 => Ok(Value::Int4(n)),
        Kind::Int8 => Ok(Value::Int8(n as i64)),
        Kind::Text => Err((Value::Int4(n), CoerceFault::Kinds)),
        Kind::Day => Err((Value::Int4(n), CoerceFault::Kinds)),
        Kind::Truth => Err((Value::Int4(n), CoerceFault::Kinds)),
    }
}

fn narrowed(n: i64) -> Result<Value, (Value, CoerceFault)>
    ensures { IsAssigned (Int8 n) KInt4 result }
{
    match fitted(false, n as i128) {
        Some(value) => Ok(value),
        None => Err((Value::Int8(n), CoerceFault::Range)),
    }
}

fn coerce_bigint(n: i64, to: Kind) -> Result<Value, (Value, CoerceFault)>
    ensures { IsAssigned (Int8 n) to result }
{
    match to {
        Kind::Int4 => narrowed(n),
        Kind::Int8 => Ok(Value::Int8(n)),
        Kind::Text => Err((Value::Int8(n), CoerceFault::Kinds)),
        Kind::Day => Err((Value::Int8(n), CoerceFault::Kinds)),
        Kind::Truth => Err((Value::Int8(n), CoerceFault::Kinds)),
    }
}

fn is_text_kind(kind: Kind) -> bool
    ensures { result ≡ is_text_kind kind }
{
    matches!(kind, Kind::Text)
}

fn is_date_kind(kind: Kind) -> bool
    ensures { result ≡ is_date_kind kind }
{
    matches!(kind, Kind::Day)
}

fn is_truth_kind(kind: Kind) -> bool
    ensures { result ≡ is_truth_kind kind }
{
    matches!(kind, Kind::Truth)
}

/// The value that a column of the kind gets from this one, or the fault and the value as it was.
/// It takes no memory.
pub fn coerce(v: Value, to: Kind) -> Result<Value, (Value, CoerceFault)>
    ensures { IsAssigned v to result }
{
    match v {
        Value::Null => Ok(Value::Null),
        Value::Int4(n) => coerce_integer(n, to),
        Value::Int8(n) => coerce_bigint(n, to),
        Value::Text(text) => {
            if is_text_kind(to) {
                Ok(Value::Text(text))
            } else {
                Err((Value::Text(text), CoerceFault::Kinds))
            }
        }
        Value::Day(day) => {
            if is_date_kind(to) {
                Ok(Value::Day(day))
            } else {
                Err((Value::Day(day), CoerceFault::Kinds))
            }
        }
        Value::Truth(truth) => {
            if is_truth_kind(to) {
                Ok(Value::Truth(truth))
            } else {
                Err((Value::Truth(truth), CoerceFault::Kinds))
            }
        }
    }
}
