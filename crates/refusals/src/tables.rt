//! Tables that are missing, there already, or not what is wanted (class 42 and 55).

ghost use Rattle.std.specs.Prelude.{◌≡◌, IfOk};
ghost use Rattle.refusals.specs.Refusals as refusals;

use crate::told::{of_one, of_three, of_two};
use pg_values::{Fault, NoMemory};
use std::alloc::Global;

/// `column <c> of <t> does not match`
pub fn column_does_not_match(alloc: Global, column: &[u8], table: &[u8]) -> Result<Fault, NoMemory>
    ensures { IfOk result (λ f. f ≡ refusals.column_does_not_match column.now table.now) }
{
    of_three(
        alloc,
        *b"42804",
        b"column <c> of <t> does not match",
        column,
        table,
    )
}

/// `<t> is not partitioned`
pub fn not_partitioned(alloc: Global, table: &[u8]) -> Result<Fault, NoMemory>
    ensures { IfOk result (λ f. f ≡ refusals.not_partitioned table.now) }
{
    of_two(alloc, *b"42809", b"<t> is not partitioned", table)
}

/// `<t> is already a partition`
pub fn already_a_partition(alloc: Global, table: &[u8]) -> Result<Fault, NoMemory>
    ensures { IfOk result (λ f. f ≡ refusals.already_a_partition table.now) }
{
    of_two(alloc, *b"42809", b"<t> is already a partition", table)
}

/// `no table <t>`
pub fn no_table(alloc: Global, table: &[u8]) -> Result<Fault, NoMemory>
    ensures { IfOk result (λ f. f ≡ refusals.no_table table.now) }
{
    of_two(alloc, *b"42P01", b"no table <t>", table)
}

/// `<p> is not a partition of <t>`
pub fn not_a_partition(alloc: Global, partition: &[u8], parent: &[u8]) -> Result<Fault, NoMemory>
    ensures { IfOk result (λ f. f ≡ refusals.not_a_partition partition.now parent.now) }
{
    of_three(
        alloc,
        *b"42P01",
        b"<p> is not a partition of <t>",
        partition,
        parent,
    )
}

/// `table <t> is there`
pub fn table_is_there(alloc: Global, table: &[u8]) -> Result<Fault, NoMemory>
    ensures { IfOk result (λ f. f ≡ refusals.table_is_there table.now) }
{
    of_one(alloc, *b"42P07", table)
}

/// `<t> is above <p>`
pub fn is_above(alloc: Global, table: &[u8], parent: &[u8]) -> Result<Fault, NoMemory>
    ensures { IfOk result (λ f. f ≡ refusals.is_above table.now parent.now) }
{
    of_three(alloc, *b"42P17", b"<t> is above <p>", table, parent)
}

/// `<t> has the default partition <d>`
pub fn has_default_partition(alloc: Global, table: &[u8], default: &[u8]) -> Result<Fault, NoMemory>
    ensures { IfOk result (λ f. f ≡ refusals.has_default_partition table.now default.now) }
{
    of_three(
        alloc,
        *b"55000",
        b"<t> has the default partition <d>",
        table,
        default,
    )
}

/// `partition <p> of <t> is pending`
pub fn partition_is_pending(
    alloc: Global,
    partition: &[u8],
    table: &[u8],
) -> Result<Fault, NoMemory>
    ensures { IfOk result (λ f. f ≡ refusals.partition_is_pending partition.now table.now) }
{
    of_three(
        alloc,
        *b"55000",
        b"partition <p> of <t> is pending",
        partition,
        table,
    )
}

/// `<p> is not the pending partition of <t>`
pub fn not_the_pending_partition(
    alloc: Global,
    partition: &[u8],
    table: &[u8],
) -> Result<Fault, NoMemory>
    ensures { IfOk result (λ f. f ≡ refusals.not_the_pending_partition partition.now table.now) }
{
    of_three(
        alloc,
        *b"55000",
        b"<p> is not the pending partition of <t>",
        partition,
        table,
    )
}
