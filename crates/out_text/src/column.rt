ghost use Rattle.std.specs.Prelude.{◌≡◌, ◌<◌, IfOk, length};
ghost use Rattle.out_text.specs.Table.{kind_at};
ghost use Rattle.out_text.specs.Table as spec;

use crate::width::column_width;
use pg_values::{Answer, Kind, NoMemory, PgText, Row};
use std::alloc::Global;

/// How a column of a table is printed.
#[derive(Clone, Copy, Debug)]
pub struct Column {
    /// Where the column stands, from 0.
    pub place: usize,
    /// In characters.
    pub width: usize,
    /// Whether its texts stand at the right of the width.
    pub is_right: bool,
    pub is_last: bool,
}

fn is_integer(kind: Kind) -> bool
    ensures { result ≡ spec.is_integer kind }
{
    match kind {
        Kind::Int4 | Kind::Int8 => true,
        Kind::Text | Kind::Day | Kind::Truth => false,
    }
}

fn is_right_at(place: usize, kinds: &[Kind]) -> bool
    ensures { result ≡ spec.is_integer (kind_at place kinds.now) }
{
    match kinds.get(place) {
        Some(kind) => is_integer(*kind),
        None => false,
    }
}

fn column_at(
    alloc: Global,
    names: &[PgText],
    kinds: &[Kind],
    rows: &[Row],
    place: usize,
) -> Result<Column, NoMemory>
    requires { place < length names.now }
    ensures { IfOk result (λ column. column ≡ spec.column_at names.now kinds.now rows.now place) }
{
    Ok(Column {
        place,
        width: column_width(alloc, place, names, rows)?,
        is_right: is_right_at(place, kinds),
        is_last: place + 1 == names.len(),
    })
}

// The columns of an answer, in order.
#[tactic(auto, using(crate::proofs::TableLaws::columns))]
pub(crate) fn columns_of(alloc: Global, a: &Answer) -> Result<Vec<Column>, NoMemory>
    ensures { IfOk result (λ columns. columns.items ≡ spec.columns_of a.now.names a.now.kinds a.now.rows) }
{
    let names = a.names.as_slice();
    let kinds = a.kinds.as_slice();
    let rows = a.rows.as_slice();
    let mut columns = Vec::with_capacity(alloc, names.len())?;
    for place in 0..names.len() {
        columns.push(column_at(alloc, names, kinds, rows, place)?)?;
    }
    Ok(columns)
}
