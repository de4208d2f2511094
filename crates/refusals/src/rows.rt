//! Rows that a table does not take (class 23).

ghost use Rattle.std.specs.Prelude.{◌≡◌, IfOk};
ghost use Rattle.refusals.specs.Refusals as refusals;

use crate::row_texts::row_text;
use crate::told::{of_four, of_three, of_two};
use pg_values::{Fault, NoMemory, Row};
use std::alloc::Global;

/// `column <c> of <leaf> is null`
pub fn null_column(alloc: Global, column: &[u8], leaf: &[u8]) -> Result<Fault, NoMemory>
    ensures { IfOk result (λ f. f ≡ refusals.null_column column.now leaf.now) }
{
    of_two(alloc, *b"23502", column, leaf)
}

/// `no partition of <t> accepts <key>`
pub fn no_partition(alloc: Global, table: &[u8], key: &Row) -> Result<Fault, NoMemory>
    ensures { IfOk result (λ f. f ≡ refusals.no_partition table.now key.now) }
{
    let key = row_text(alloc, key.as_slice())?;
    of_three(
        alloc,
        *b"23514",
        b"no partition of <t> accepts <key>",
        table,
        &key,
    )
}

/// `<t> does not accept <key>`
pub fn does_not_accept(alloc: Global, table: &[u8], key: &Row) -> Result<Fault, NoMemory>
    ensures { IfOk result (λ f. f ≡ refusals.does_not_accept table.now key.now) }
{
    let key = row_text(alloc, key.as_slice())?;
    of_three(alloc, *b"23514", b"<t> does not accept <key>", table, &key)
}

/// `<t> has the row <row> outside its new bounds`
pub fn outside_new_bounds(alloc: Global, table: &[u8], row: &Row) -> Result<Fault, NoMemory>
    ensures { IfOk result (λ f. f ≡ refusals.outside_new_bounds table.now row.now) }
{
    let row = row_text(alloc, row.as_slice())?;
    of_three(
        alloc,
        *b"23514",
        b"<t> has the row <row> outside its new bounds",
        table,
        &row,
    )
}

/// `default <d> has the row <row> for <p>`
pub fn default_has_row(
    alloc: Global,
    default: &[u8],
    row: &Row,
    partition: &[u8],
) -> Result<Fault, NoMemory>
    ensures { IfOk result (λ f. f ≡ refusals.default_has_row default.now row.now partition.now) }
{
    let row = row_text(alloc, row.as_slice())?;
    of_four(
        alloc,
        *b"23514",
        b"default <d> has the row <row> for <p>",
        default,
        &row,
        partition,
    )
}

/// `<t> has a kept CHECK that refuses <row>`
pub fn kept_check(alloc: Global, table: &[u8], row: &Row) -> Result<Fault, NoMemory>
    ensures { IfOk result (λ f. f ≡ refusals.kept_check table.now row.now) }
{
    let row = row_text(alloc, row.as_slice())?;
    of_three(
        alloc,
        *b"23514",
        b"<t> has a kept CHECK that refuses <row>",
        table,
        &row,
    )
}
