ghost use Rattle.std.specs.Prelude.{◌≡◌, ◌++◌, OnOk, IfOk};
ghost use Rattle.out_text.specs.Table.{cell_text, name_text};
ghost use Rattle.out_text.specs.Table as spec;

use pg_values::{NoMemory, PgText, Row, write_value};
use std::alloc::Global;

// The characters of a text in UTF-8.
pub(crate) fn char_count(text: &[u8]) -> usize
    ensures { result ≡ spec.char_count text.now }
{
    text.iter().filter(|b| **b < 128 || **b >= 192).count()
}

// Puts the text of a cell into the scratch buffer, in place of what stood there.
pub(crate) fn spell_cell(
    alloc: Global,
    place: usize,
    row: &Row,
    scratch: &mut Vec<u8>,
) -> Result<(), NoMemory>
    ensures { OnOk result (scratch.new.items ≡ cell_text place row.now) }
{
    scratch.clear();
    match row.as_slice().get(place) {
        Some(value) => write_value(alloc, value, scratch),
        None => Ok(()),
    }
}

pub(crate) fn name_width(place: usize, names: &[PgText]) -> usize
    ensures { result ≡ spec.char_count (name_text place names.now) }
{
    match names.get(place) {
        Some(name) => char_count(name.as_bytes()),
        None => 0,
    }
}

pub(crate) fn column_width(
    alloc: Global,
    place: usize,
    names: &[PgText],
    rows: &[Row],
) -> Result<usize, NoMemory>
    ensures { IfOk result (λ width. width ≡ spec.column_width place names.now rows.now) }
{
    let mut scratch = Vec::new(alloc);
    let mut width = name_width(place, names);
    for row in rows {
        spell_cell(alloc, place, row, &mut scratch)?;
        width = width.max(char_count(&scratch));
    }
    Ok(width)
}
