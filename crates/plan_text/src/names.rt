//! The names of items and of their columns.

ghost use Rattle.std.specs.Prelude.{◌≡◌, ◌++◌, OnOk, slice_get};
ghost use Rattle.plan_text.specs.Names as names;

use crate::NamedItem;
use cond_logic::ColumnId;
use pg_values::NoMemory;

fn item_name(items: &[NamedItem], number: u32) -> &[u8]
    ensures { result.now ≡ names.item_name items.now number }
{
    match items.get(number as usize) {
        Some(item) => item.name.as_bytes(),
        None => b"",
    }
}

fn bare_name(items: &[NamedItem], column: ColumnId) -> &[u8]
    ensures { result.now ≡ names.bare_name items.now column }
{
    match items.get(column.item as usize) {
        Some(item) => match item.columns.as_slice().get(column.position) {
            Some(name) => name.as_bytes(),
            None => b"",
        },
        None => b"",
    }
}

fn is_alias(items: &[NamedItem], number: u32) -> bool
    ensures { result ≡ names.is_alias_in (slice_get items.now number) }
{
    match items.get(number as usize) {
        Some(item) => item.is_alias,
        None => false,
    }
}

fn write_qualifier(items: &[NamedItem], number: u32, out: &mut Vec<u8>) -> Result<(), NoMemory>
    ensures { OnOk result (out.new.items ≡ out.old.items ++ names.qualifier items.now number) }
{
    if items.len() > 1 {
        out.extend_from_slice(item_name(items, number))?;
        out.push(b'.')?;
    }
    Ok(())
}

/// Appends the name of a column, with that of its item before it where there is more than one item.
pub(crate) fn write_column(
    items: &[NamedItem],
    column: ColumnId,
    out: &mut Vec<u8>,
) -> Result<(), NoMemory>
    ensures { OnOk result (out.new.items ≡ out.old.items ++ names.column_name items.now column) }
{
    write_qualifier(items, column.item, out)?;
    out.extend_from_slice(bare_name(items, column))?;
    Ok(())
}

/// Appends the alias of an item, where it has one.
pub(crate) fn write_alias(
    items: &[NamedItem],
    number: u32,
    out: &mut Vec<u8>,
) -> Result<(), NoMemory>
    ensures { OnOk result (out.new.items ≡ out.old.items ++ names.alias_behind items.now number) }
{
    if is_alias(items, number) {
        out.push(b' ')?;
        out.extend_from_slice(item_name(items, number))?;
    }
    Ok(())
}
