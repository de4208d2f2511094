//! The forms of statements, and the names and kinds in them (class 26 and 42).

ghost use Rattle.std.specs.Prelude.{◌≡◌, IfOk};
ghost use Rattle.refusals.specs.Refusals as refusals;

use crate::kinds::kind_word;
use crate::told::{digits, of_four, of_one, of_three, of_two};
use pg_values::{Fault, Kind, NoMemory};
use std::alloc::Global;

/// `no prepared statement <n>`
pub fn no_prepared_statement(alloc: Global, name: &[u8]) -> Result<Fault, NoMemory>
    ensures { IfOk result (λ f. f ≡ refusals.no_prepared_statement name.now) }
{
    of_one(alloc, *b"26000", name)
}

/// `syntax error at byte <n>`
pub fn syntax_error(alloc: Global, at: u64) -> Result<Fault, NoMemory>
    ensures { IfOk result (λ f. f ≡ refusals.syntax_error at) }
{
    let at = digits(alloc, at)?;
    of_two(alloc, *b"42601", b"syntax error at byte <n>", at.as_bytes())
}

/// `<n> values for <m>`
pub fn wrong_count(alloc: Global, given: u64, wanted: u64) -> Result<Fault, NoMemory>
    ensures { IfOk result (λ f. f ≡ refusals.wrong_count given wanted) }
{
    let given = digits(alloc, given)?;
    let wanted = digits(alloc, wanted)?;
    of_three(
        alloc,
        *b"42601",
        b"<n> values for <m>",
        given.as_bytes(),
        wanted.as_bytes(),
    )
}

/// `column <c> is set twice`
pub fn set_twice(alloc: Global, column: &[u8]) -> Result<Fault, NoMemory>
    ensures { IfOk result (λ f. f ≡ refusals.set_twice column.now) }
{
    of_two(alloc, *b"42601", b"column <c> is set twice", column)
}

/// `column <c> is there twice`
pub fn column_twice(alloc: Global, column: &[u8]) -> Result<Fault, NoMemory>
    ensures { IfOk result (λ f. f ≡ refusals.column_twice column.now) }
{
    of_one(alloc, *b"42701", column)
}

/// `column <c> is ambiguous`
pub fn ambiguous(alloc: Global, column: &[u8]) -> Result<Fault, NoMemory>
    ensures { IfOk result (λ f. f ≡ refusals.ambiguous column.now) }
{
    of_one(alloc, *b"42702", column)
}

/// `no column <c>`
pub fn no_column(alloc: Global, column: &[u8]) -> Result<Fault, NoMemory>
    ensures { IfOk result (λ f. f ≡ refusals.no_column column.now) }
{
    of_one(alloc, *b"42703", column)
}

/// `no type <x>`
pub fn no_type(alloc: Global, name: &[u8]) -> Result<Fault, NoMemory>
    ensures { IfOk result (λ f. f ≡ refusals.no_type name.now) }
{
    of_two(alloc, *b"42704", b"no type <x>", name)
}

/// `no setting <x>`
pub fn no_setting(alloc: Global, name: &[u8]) -> Result<Fault, NoMemory>
    ensures { IfOk result (λ f. f ≡ refusals.no_setting name.now) }
{
    of_two(alloc, *b"42704", b"no setting <x>", name)
}

/// `table name <a> is used twice`
pub fn name_twice(alloc: Global, name: &[u8]) -> Result<Fault, NoMemory>
    ensures { IfOk result (λ f. f ≡ refusals.name_twice name.now) }
{
    of_one(alloc, *b"42712", name)
}

/// `<kind> where <kind> is wanted`
pub fn wrong_kind(alloc: Global, given: Kind, wanted: Kind) -> Result<Fault, NoMemory>
    ensures { IfOk result (λ f. f ≡ refusals.wrong_kind given wanted) }
{
    of_three(
        alloc,
        *b"42804",
        b"<kind> where <kind> is wanted",
        kind_word(given),
        kind_word(wanted),
    )
}

/// `no operator <kind> <op> <kind>`
pub fn no_operator(
    alloc: Global,
    left: Kind,
    operator: &[u8],
    right: Kind,
) -> Result<Fault, NoMemory>
    ensures { IfOk result (λ f. f ≡ refusals.no_operator left operator.now right) }
{
    of_four(
        alloc,
        *b"42883",
        b"no operator <kind> <op> <kind>",
        kind_word(left),
        operator,
        kind_word(right),
    )
}

/// `no function <f>`
pub fn no_function(alloc: Global, function: &[u8]) -> Result<Fault, NoMemory>
    ensures { IfOk result (λ f. f ≡ refusals.no_function function.now) }
{
    of_two(alloc, *b"42883", b"no function <f>", function)
}

/// `no parameter <n>`
pub fn no_parameter(alloc: Global, number: u64) -> Result<Fault, NoMemory>
    ensures { IfOk result (λ f. f ≡ refusals.no_parameter number) }
{
    let number = digits(alloc, number)?;
    of_one(alloc, *b"42P02", number.as_bytes())
}

/// `prepared statement <n> is there`
pub fn prepared_statement_is_there(alloc: Global, name: &[u8]) -> Result<Fault, NoMemory>
    ensures { IfOk result (λ f. f ≡ refusals.prepared_statement_is_there name.now) }
{
    of_one(alloc, *b"42P05", name)
}

/// `no output column <n>`
pub fn no_output(alloc: Global, number: u64) -> Result<Fault, NoMemory>
    ensures { IfOk result (λ f. f ≡ refusals.no_output number) }
{
    let number = digits(alloc, number)?;
    of_one(alloc, *b"42P10", number.as_bytes())
}
