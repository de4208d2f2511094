ghost use Rattle.std.specs.Prelude.{◌≡◌, ◌++◌, OnOk, OnErr, IfOk, length, codes};
ghost use Rattle.std.specs.List.{flat_map};
ghost use Rattle.out_text.specs.Table.{count_line, printed_table, row_line};

use crate::Column;
use crate::column::columns_of;
use crate::line::{write_names, write_row, write_rule};
use pg_values::{Answer, NoMemory, Row};
use std::alloc::Global;

fn write_rows(
    alloc: Global,
    columns: &[Column],
    rows: &[Row],
    out: &mut Vec<u8>,
) -> Result<(), NoMemory>
    ensures { OnOk result (out.new.items ≡ out.old.items ++ flat_map (row_line columns.now) rows.now) }
{
    let mut scratch = Vec::new(alloc);
    for row in rows {
        write_row(alloc, columns, row, &mut scratch, out)?;
    }
    Ok(())
}

fn write_count(count: usize, out: &mut Vec<u8>) -> Result<(), NoMemory>
    ensures { OnOk result (out.new.items ≡ out.old.items ++ count_line count) }
{
    let mut digits = itoa::Buffer::new();
    out.extend_from_slice(b"(")?;
    out.extend_from_slice(digits.format(count).as_bytes())?;
    if count == 1 {
        out.extend_from_slice(b" row)\n")?;
        return Ok(());
    }
    out.extend_from_slice(b" rows)\n")?;
    Ok(())
}

fn table_text(alloc: Global, a: &Answer) -> Result<Vec<u8>, NoMemory>
    ensures { IfOk result (λ text. text.items ≡ printed_table a.now.names a.now.kinds a.now.rows) }
{
    let columns = columns_of(alloc, a)?;
    let mut text = Vec::new(alloc);
    write_names(&columns, a.names.as_slice(), &mut text)?;
    write_rule(&columns, &mut text)?;
    write_rows(alloc, &columns, a.rows.as_slice(), &mut text)?;
    write_count(a.rows.len(), &mut text)?;
    text.push(b'\n')?;
    Ok(text)
}

/// Appends the table of an answer to `out`, all of it or nothing.
pub fn write_table(alloc: Global, a: &Answer, out: &mut Vec<u8>) -> Result<(), NoMemory>
    ensures ok { OnOk result (out.new.items ≡ out.old.items ++ printed_table a.now.names a.now.kinds a.now.rows) }
    ensures err { OnErr result (out.new.items ≡ out.old.items) }
{
    let text = table_text(alloc, a)?;
    out.extend_from_slice(&text)?;
    Ok(())
}
