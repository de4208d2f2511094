ghost use Rattle.std.specs.Prelude.{◌≡◌, ◌++◌, OnOk, replicate, codes};
ghost use Rattle.std.specs.List.{flat_map};
ghost use Rattle.out_text.specs.Table.{aligned, cell_value, names_line, printed_cell, printed_name, row_line, between};
ghost use Rattle.out_text.specs.Table as spec;

use crate::Column;
use crate::width::{char_count, spell_cell};
use pg_values::{NoMemory, PgText, Row, Value};
use std::alloc::Global;

fn write_many(byte: u8, count: usize, out: &mut Vec<u8>) -> Result<(), NoMemory>
    ensures { OnOk result (out.new.items ≡ out.old.items ++ replicate count byte) }
{
    for _ in 0..count {
        out.push(byte)?;
    }
    Ok(())
}

// Writes a text in its column.
fn write_aligned(column: &Column, text: &[u8], out: &mut Vec<u8>) -> Result<(), NoMemory>
    ensures { OnOk result (out.new.items ≡ out.old.items ++ aligned column.now text.now) }
{
    let spaces = column.width.saturating_sub(char_count(text));
    if column.is_right {
        write_many(b' ', spaces, out)?;
        out.extend_from_slice(text)?;
        return Ok(());
    }
    out.extend_from_slice(text)?;
    if column.is_last {
        return Ok(());
    }
    write_many(b' ', spaces, out)
}

fn is_null(value: &Value) -> bool
    ensures { result ≡ spec.is_null value.now }
{
    matches!(value, Value::Null)
}

fn is_null_at(place: usize, row: &Row) -> bool
    ensures { result ≡ spec.is_null (cell_value place row.now) }
{
    match row.as_slice().get(place) {
        Some(value) => is_null(value),
        None => true,
    }
}

fn write_cell(
    alloc: Global,
    column: &Column,
    row: &Row,
    scratch: &mut Vec<u8>,
    out: &mut Vec<u8>,
) -> Result<(), NoMemory>
    ensures { OnOk result (out.new.items ≡ out.old.items ++ printed_cell row.now column.now) }
{
    if column.is_last && is_null_at(column.place, row) {
        return Ok(());
    }
    spell_cell(alloc, column.place, row, scratch)?;
    write_aligned(column, scratch, out)
}

fn write_name(column: &Column, names: &[PgText], out: &mut Vec<u8>) -> Result<(), NoMemory>
    ensures { OnOk result (out.new.items ≡ out.old.items ++ printed_name names.now column.now) }
{
    match names.get(column.place) {
        Some(name) => write_aligned(column, name.as_bytes(), out),
        None => write_aligned(column, b"", out),
    }
}

// Writes what stands before column i: nothing before the first.
fn write_between(i: usize, byte: u8, out: &mut Vec<u8>) -> Result<(), NoMemory>
    ensures { OnOk result (out.new.items ≡ out.old.items ++ between i byte) }
{
    if i > 0 {
        out.push(byte)?;
    }
    Ok(())
}

#[tactic(auto, using(crate::proofs::TableLaws::joined))]
pub(crate) fn write_names(
    columns: &[Column],
    names: &[PgText],
    out: &mut Vec<u8>,
) -> Result<(), NoMemory>
    ensures { OnOk result (out.new.items ≡ out.old.items ++ names_line names.now columns.now) }
{
    for (i, column) in columns.iter().enumerate() {
        write_between(i, b'|', out)?;
        write_name(column, names, out)?;
    }
    out.push(b'\n')?;
    Ok(())
}

#[tactic(auto, using(crate::proofs::TableLaws::joined))]
pub(crate) fn write_rule(columns: &[Column], out: &mut Vec<u8>) -> Result<(), NoMemory>
    ensures { OnOk result (out.new.items ≡ out.old.items ++ spec.rule columns.now) }
{
    for (i, column) in columns.iter().enumerate() {
        write_between(i, b'+', out)?;
        write_many(b'-', column.width, out)?;
    }
    out.push(b'\n')?;
    Ok(())
}

#[tactic(auto, using(crate::proofs::TableLaws::joined))]
pub(crate) fn write_row(
    alloc: Global,
    columns: &[Column],
    row: &Row,
    scratch: &mut Vec<u8>,
    out: &mut Vec<u8>,
) -> Result<(), NoMemory>
    ensures { OnOk result (out.new.items ≡ out.old.items ++ row_line columns.now row.now) }
{
    for (i, column) in columns.iter().enumerate() {
        write_between(i, b'|', out)?;
        write_cell(alloc, column, row, scratch, out)?;
    }
    out.push(b'\n')?;
    Ok(())
}
