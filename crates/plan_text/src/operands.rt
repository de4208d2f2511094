//! Constants and the other operands of a condition.

ghost use Rattle.std.specs.Prelude.{◌≡◌, ◌++◌, OnOk};
ghost use Rattle.plan_text.specs.Conditions as conditions;

use crate::NamedItem;
use crate::names::write_column;
use cond_logic::Operand;
use pg_values::{NoMemory, Value, write_value};
use std::alloc::Global;

fn write_byte(b: u8, out: &mut Vec<u8>) -> Result<(), NoMemory>
    ensures { OnOk result (out.new.items ≡ out.old.items ++ conditions.doubled_byte b) }
{
    if b == b'\'' {
        out.push(b'\'')?;
    }
    out.push(b)?;
    Ok(())
}

fn write_doubled(text: &[u8], out: &mut Vec<u8>) -> Result<(), NoMemory>
    ensures { OnOk result (out.new.items ≡ out.old.items ++ conditions.doubled text.now) }
{
    for b in text {
        write_byte(*b, out)?;
    }
    Ok(())
}

fn write_quoted(text: &[u8], out: &mut Vec<u8>) -> Result<(), NoMemory>
    ensures { OnOk result (out.new.items ≡ out.old.items ++ conditions.quoted text.now) }
{
    out.push(b'\'')?;
    write_doubled(text, out)?;
    out.push(b'\'')?;
    Ok(())
}

fn write_constant(alloc: Global, value: &Value, out: &mut Vec<u8>) -> Result<(), NoMemory>
    ensures { OnOk result (out.new.items ≡ out.old.items ++ conditions.constant value.now) }
{
    match value {
        Value::Null => {
            out.extend_from_slice(b"NULL")?;
            Ok(())
        }
        Value::Int4(_) => write_value(alloc, value, out),
        Value::Int8(_) => write_value(alloc, value, out),
        Value::Text(text) => write_quoted(text.as_bytes(), out),
        Value::Day(_) => {
            let mut day = Vec::new(alloc);
            write_value(alloc, value, &mut day)?;
            write_quoted(&day, out)
        }
        Value::Truth(true) => {
            out.extend_from_slice(b"true")?;
            Ok(())
        }
        Value::Truth(false) => {
            out.extend_from_slice(b"false")?;
            Ok(())
        }
    }
}

// The first parameter is `$1`.
fn write_parameter(place: usize, out: &mut Vec<u8>) -> Result<(), NoMemory>
    ensures { OnOk result (out.new.items ≡ out.old.items ++ conditions.parameter place) }
{
    let mut digits = itoa::Buffer::new();
    out.push(b'$')?;
    out.extend_from_slice(digits.format(place as u128 + 1).as_bytes())?;
    Ok(())
}

pub(crate) fn write_operand(
    alloc: Global,
    items: &[NamedItem],
    operand: &Operand,
    out: &mut Vec<u8>,
) -> Result<(), NoMemory>
    ensures { OnOk result (out.new.items ≡ out.old.items ++ conditions.operand items.now operand.now) }
{
    match operand {
        Operand::Column(column) => write_column(items, *column, out),
        Operand::Lit(value) => write_constant(alloc, value, out),
        Operand::Param(place) => write_parameter(*place, out),
    }
}
