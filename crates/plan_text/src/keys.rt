//! The keys of ORDER BY.

ghost use Rattle.std.specs.Prelude.{◌≡◌, ◌++◌, OnOk, map};
ghost use Rattle.cond_logic.specs.Asked.{output_tree};
ghost use Rattle.plan_text.specs.Keys as keys;

use crate::NamedItem;
use crate::names::write_column;
use cond_logic::{Output, Scalar, SortBy, SortKey};
use pg_values::NoMemory;

fn write_text(text: &[u8], out: &mut Vec<u8>) -> Result<(), NoMemory>
    ensures { OnOk result (out.new.items ≡ out.old.items ++ text.now) }
{
    out.extend_from_slice(text)?;
    Ok(())
}

fn write_output(items: &[NamedItem], output: &Output, out: &mut Vec<u8>) -> Result<(), NoMemory>
    ensures { OnOk result (out.new.items ≡ out.old.items ++ keys.output items.now (output_tree output.now).name (output_tree output.now).value) }
{
    match &output.value {
        Scalar::Column(column) => write_column(items, *column, out),
        Scalar::TableName(_) => write_text(b"tableoid", out),
        Scalar::Lit(_) => write_text(output.name.as_bytes(), out),
        Scalar::Arith(_, _, _) => write_text(output.name.as_bytes(), out),
        Scalar::Cancel(_) => write_text(output.name.as_bytes(), out),
    }
}

fn write_sorted_by(
    items: &[NamedItem],
    outputs: &[Output],
    by: SortBy,
    out: &mut Vec<u8>,
) -> Result<(), NoMemory>
    ensures { OnOk result (out.new.items ≡ out.old.items ++ keys.sorted_by items.now (map output_tree outputs.now) by) }
{
    match by {
        SortBy::Output(place) => match outputs.get(place) {
            Some(output) => write_output(items, output, out),
            None => Ok(()),
        },
        SortBy::Column(column) => write_column(items, column, out),
        SortBy::TableName(_) => write_text(b"tableoid", out),
    }
}

fn direction(key: SortKey) -> &'static [u8]
    ensures { result.now ≡ keys.direction key }
{
    match (key.descending, key.nulls_first) {
        (true, true) => b" DESC",
        (true, false) => b" DESC NULLS LAST",
        (false, true) => b" NULLS FIRST",
        (false, false) => b"",
    }
}

fn write_key(
    items: &[NamedItem],
    outputs: &[Output],
    key: SortKey,
    out: &mut Vec<u8>,
) -> Result<(), NoMemory>
    ensures { OnOk result (out.new.items ≡ out.old.items ++ keys.key items.now (map output_tree outputs.now) key) }
{
    write_sorted_by(items, outputs, key.by, out)?;
    write_text(direction(key), out)
}

fn write_further(
    items: &[NamedItem],
    outputs: &[Output],
    order: &[SortKey],
    out: &mut Vec<u8>,
) -> Result<(), NoMemory>
    ensures { OnOk result (out.new.items ≡ out.old.items ++ keys.further items.now (map output_tree outputs.now) order.now) }
{
    for key in order {
        out.extend_from_slice(b", ")?;
        write_key(items, outputs, *key, out)?;
    }
    Ok(())
}

/// Appends the keys, joined by commas.
pub(crate) fn write_keys(
    items: &[NamedItem],
    outputs: &[Output],
    order: &[SortKey],
    out: &mut Vec<u8>,
) -> Result<(), NoMemory>
    ensures { OnOk result (out.new.items ≡ out.old.items ++ keys.keys items.now (map output_tree outputs.now) order.now) }
{
    match order.split_first() {
        None => Ok(()),
        Some((first, others)) => {
            write_key(items, outputs, *first, out)?;
            write_further(items, outputs, others, out)
        }
    }
}
