ghost use Rattle.std.specs.Prelude.{◌≡◌, true, false};
ghost use Rattle.value_rules.specs.Ranges.{fitted, dated};

use pg_values::Value;

fn integer(z: i128) -> Option<Value>
    ensures { result ≡ fitted false z }
{
    if z >= i32::MIN as i128 && z <= i32::MAX as i128 {
        Some(Value::Int4(z as i32))
    } else {
        None
    }
}

fn bigint(z: i128) -> Option<Value>
    ensures { result ≡ fitted true z }
{
    if z >= i64::MIN as i128 && z <= i64::MAX as i128 {
        Some(Value::Int8(z as i64))
    } else {
        None
    }
}

/// The number as a bigint where `wide`, else as an integer, where it fits.
pub fn fitted(wide: bool, z: i128) -> Option<Value>
    ensures { result ≡ fitted wide z }
{
    if wide { bigint(z) } else { integer(z) }
}

/// The day with this number, where a date has it.
pub fn dated(z: i64) -> Option<Value>
    ensures { result ≡ dated z }
{
    if z >= -719_162 && z <= 2_932_896 {
        Some(Value::Day(z as i32))
    } else {
        None
    }
}
