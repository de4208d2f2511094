ghost use Rattle.std.specs.Prelude.{◌≡◌, ◌*ℤ◌};
ghost use Rattle.value_rules.specs.Ranges.{or_fault};
ghost use Rattle.value_rules.specs.Ranges as ranges;
ghost use Rattle.value_rules.specs.Arithmetic.{number, whole, moved, moved_by, apart, refused, with_integer, with_bigint, with_date, computed};
ghost use Rattle.value_rules.specs.declared.operators.ArithFault.TheVariants.{OutOfRange, DateRange};

use crate::operators::{Arith, ArithFault};
use crate::range::{dated, fitted};
use pg_values::Value;

fn product(m: i64, n: i64) -> i128
    ensures { result ≡ m *ℤ n }
{
    m as i128 * n as i128
}

fn number(op: Arith, m: i64, n: i64) -> Result<i128, ArithFault>
    ensures { result ≡ number op m n }
{
    match op {
        Arith::Add => Ok(m as i128 + n as i128),
        Arith::Sub => Ok(m as i128 - n as i128),
        Arith::Mul => Ok(product(m, n)),
        Arith::Div => {
            if n == 0 {
                Err(ArithFault::ZeroDivisor)
            } else {
                Ok(m as i128 / n as i128)
            }
        }
        Arith::Rem => {
            if n == 0 {
                Err(ArithFault::ZeroDivisor)
            } else {
                Ok(m as i128 % n as i128)
            }
        }
    }
}

fn ranged(wide: bool, z: i128) -> Result<Value, ArithFault>
    ensures { result ≡ or_fault OutOfRange (ranges.fitted wide z) }
{
    match fitted(wide, z) {
        Some(value) => Ok(value),
        None => Err(ArithFault::OutOfRange),
    }
}

fn whole(wide: bool, op: Arith, m: i64, n: i64) -> Result<Value, ArithFault>
    ensures { result ≡ whole wide (number op m n) }
{
    match number(op, m, n) {
        Ok(z) => ranged(wide, z),
        Err(fault) => Err(fault),
    }
}

fn day(z: i64) -> Result<Value, ArithFault>
    ensures { result ≡ or_fault DateRange (ranges.dated z) }
{
    match dated(z) {
        Some(value) => Ok(value),
        None => Err(ArithFault::DateRange),
    }
}

fn moved(op: Arith, d: i32, n: i32) -> Result<Value, ArithFault>
    ensures { result ≡ moved op d n }
{
    match op {
        Arith::Add => day(d as i64 + n as i64),
        Arith::Sub => day(d as i64 - n as i64),
        Arith::Mul => Err(ArithFault::NoOperator),
        Arith::Div => Err(ArithFault::NoOperator),
        Arith::Rem => Err(ArithFault::NoOperator),
    }
}

fn moved_by(op: Arith, n: i32, d: i32) -> Result<Value, ArithFault>
    ensures { result ≡ moved_by op n d }
{
    match op {
        Arith::Add => day(d as i64 + n as i64),
        Arith::Sub => Err(ArithFault::NoOperator),
        Arith::Mul => Err(ArithFault::NoOperator),
        Arith::Div => Err(ArithFault::NoOperator),
        Arith::Rem => Err(ArithFault::NoOperator),
    }
}

fn apart(op: Arith, d: i32, e: i32) -> Result<Value, ArithFault>
    ensures { result ≡ apart op d e }
{
    match op {
        Arith::Add => Err(ArithFault::NoOperator),
        Arith::Sub => ranged(false, d as i128 - e as i128),
        Arith::Mul => Err(ArithFault::NoOperator),
        Arith::Div => Err(ArithFault::NoOperator),
        Arith::Rem => Err(ArithFault::NoOperator),
    }
}

fn refused(b: &Value) -> Result<Value, ArithFault>
    ensures { result ≡ refused b.now }
{
    match b {
        Value::Null => Ok(Value::Null),
        Value::Int4(_) => Err(ArithFault::NoOperator),
        Value::Int8(_) => Err(ArithFault::NoOperator),
        Value::Text(_) => Err(ArithFault::NoOperator),
        Value::Day(_) => Err(ArithFault::NoOperator),
        Value::Truth(_) => Err(ArithFault::NoOperator),
    }
}

fn with_integer(op: Arith, m: i32, b: &Value) -> Result<Value, ArithFault>
    ensures { result ≡ with_integer op m b.now }
{
    match b {
        Value::Null => Ok(Value::Null),
        Value::Int4(n) => whole(false, op, m as i64, *n as i64),
        Value::Int8(n) => whole(true, op, m as i64, *n),
        Value::Text(_) => Err(ArithFault::NoOperator),
        Value::Day(d) => moved_by(op, m, *d),
        Value::Truth(_) => Err(ArithFault::NoOperator),
    }
}

fn with_bigint(op: Arith, m: i64, b: &Value) -> Result<Value, ArithFault>
    ensures { result ≡ with_bigint op m b.now }
{
    match b {
        Value::Null => Ok(Value::Null),
        Value::Int4(n) => whole(true, op, m, *n as i64),
        Value::Int8(n) => whole(true, op, m, *n),
        Value::Text(_) => Err(ArithFault::NoOperator),
        Value::Day(_) => Err(ArithFault::NoOperator),
        Value::Truth(_) => Err(ArithFault::NoOperator),
    }
}

fn with_date(op: Arith, d: i32, b: &Value) -> Result<Value, ArithFault>
    ensures { result ≡ with_date op d b.now }
{
    match b {
        Value::Null => Ok(Value::Null),
        Value::Int4(n) => moved(op, d, *n),
        Value::Int8(_) => Err(ArithFault::NoOperator),
        Value::Text(_) => Err(ArithFault::NoOperator),
        Value::Day(e) => apart(op, d, *e),
        Value::Truth(_) => Err(ArithFault::NoOperator),
    }
}

/// The sum, difference, product, quotient or remainder of two values, and null where a side is
/// null. It takes no memory.
pub fn arith(op: Arith, a: &Value, b: &Value) -> Result<Value, ArithFault>
    ensures { result ≡ computed op a.now b.now }
{
    match a {
        Value::Null => Ok(Value::Null),
        Value::Int4(m) => with_integer(op, *m, b),
        Value::Int8(m) => with_bigint(op, *m, b),
        Value::Text(_) => refused(b),
        Value::Day(d) => with_date(op, *d, b),
        Value::Truth(_) => refused(b),
    }
}
