ghost use Rattle.std.specs.Prelude.{◌≡◌, Err};
ghost use Rattle.pg_values.specs.Refusals.{IsAnswer, or_first};
ghost use Rattle.refusals.specs.Refusals as refusals;
ghost use Rattle.alter_table.specs.Columns as spec;

use ddl_steps::same_kind;
use history::Column;
use pg_values::{NoMemory, Refusal};
use refusals::column_does_not_match;
use std::alloc::Global;

// Whether the column is one for the parent's.
fn matches(parent: &Column, own: &Column) -> bool
    ensures { result ≡ spec.matches parent.now own.now }
{
    parent.name.as_bytes() == own.name.as_bytes()
        && same_kind(parent.kind, own.kind)
        && (!parent.not_null || own.not_null)
}

// Why the table is refused for that column.
fn unmatched(alloc: Global, column: &Column, table: &[u8]) -> Refusal
    ensures { IsAnswer {T = Unit {0}} (Err result) (Err (refusals.column_does_not_match column.now.name table.now)) }
{
    match column_does_not_match(alloc, column.name.as_bytes(), table) {
        Ok(fault) => Refusal::Sql(fault),
        Err(NoMemory) => Refusal::NoMemory,
    }
}

/// The table of that name has the parent's columns and no others: 42804 for the first that does not match.
pub(crate) fn check_columns(
    alloc: Global,
    table: &[u8],
    parent: &[Column],
    own: &[Column],
) -> Result<(), Refusal>
    ensures { IsAnswer result (or_first (spec.column_faults table.now parent.now own.now) tt) }
{
    let mut left = own;
    for column in parent {
        match left.split_first() {
            None => return Err(unmatched(alloc, column, table)),
            Some((first, others)) => {
                if !matches(column, first) {
                    return Err(unmatched(alloc, column, table));
                }
                left = others;
            }
        }
    }
    match left.split_first() {
        None => Ok(()),
        Some((first, _)) => Err(unmatched(alloc, first, table)),
    }
}
