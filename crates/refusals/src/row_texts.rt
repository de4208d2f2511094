//! Rows and keys as refusals tell them.

ghost use Rattle.std.specs.Prelude.{◌≡◌, ◌++◌, codes, IfOk, OnOk};
ghost use Rattle.std.specs.List.{flat_map, join_by};
ghost use Rattle.refusals.specs.RowTexts as texts;

use pg_values::{NoMemory, Value, write_value};
use std::alloc::Global;

fn write_text(out: &mut Vec<u8>, text: &[u8]) -> Result<(), NoMemory>
    ensures { OnOk result (out.new.items ≡ out.old.items ++ text.now) }
{
    out.extend_from_slice(text)?;
    Ok(())
}

fn write_one(alloc: Global, value: &Value, out: &mut Vec<u8>) -> Result<(), NoMemory>
    ensures { OnOk result (out.new.items ≡ out.old.items ++ texts.value_text value.now) }
{
    match value {
        Value::Null => write_text(out, b"null"),
        other => write_value(alloc, other, out),
    }
}

fn write_next(alloc: Global, value: &Value, out: &mut Vec<u8>) -> Result<(), NoMemory>
    ensures { OnOk result (out.new.items ≡ out.old.items ++ (codes ", " ++ texts.value_text value.now)) }
{
    write_text(out, b", ")?;
    write_one(alloc, value, out)
}

fn write_rest(alloc: Global, values: &[Value], out: &mut Vec<u8>) -> Result<(), NoMemory>
    ensures { OnOk result (out.new.items ≡ out.old.items ++ flat_map (λ v. codes ", " ++ texts.value_text v) values.now) }
{
    for value in values {
        write_next(alloc, value, out)?;
    }
    Ok(())
}

fn write_joined(alloc: Global, values: &[Value], out: &mut Vec<u8>) -> Result<(), NoMemory>
    ensures { OnOk result (out.new.items ≡ out.old.items ++ join_by texts.value_text (codes ", ") values.now) }
{
    match values.split_first() {
        None => Ok(()),
        Some((value, others)) => {
            write_one(alloc, value, out)?;
            write_rest(alloc, others, out)
        }
    }
}

/// The values in parentheses, joined by `, `.
pub(crate) fn row_text(alloc: Global, values: &[Value]) -> Result<Vec<u8>, NoMemory>
    ensures { IfOk result (λ text. text.items ≡ texts.row_text values.now) }
{
    let mut text = Vec::new(alloc);
    write_text(&mut text, b"(")?;
    write_joined(alloc, values, &mut text)?;
    write_text(&mut text, b")")?;
    Ok(text)
}
