ghost use Rattle.pg_values.specs.Refusals.{IsAnswer};
ghost use Rattle.sql_ast.specs.Queries.{maybe_tree};
ghost use Rattle.expression_binder.specs.Firsts.{or_first};
ghost use Rattle.sql_binder.specs.Counts as counts;

use expression_binder::{Names, bind_constant, check_counting, check_operand, typed_of};
use pg_values::{Fault, Kind, Refusal, Value};
use sql_ast::Expr;
use std::alloc::Global;

/// The first fault of names and kinds in the operand of LIMIT or OFFSET.
pub(crate) fn check_count_of(
    alloc: Global,
    names: &Names<'_>,
    count: &Option<Expr>,
) -> Result<(), Refusal>
    ensures { IsAnswer result (or_first (counts.count_faults names.now (maybe_tree count.now)) tt) }
{
    match count {
        None => Ok(()),
        Some(e) => {
            check_operand(alloc, names, e)?;
            check_counting(alloc, typed_of(names, e).given)
        }
    }
}

fn counted(n: i64, negative: Fault) -> Result<Option<u64>, Refusal>
    ensures { IsAnswer result (counts.counted negative n) }
{
    match u64::try_from(n) {
        Ok(n) => Ok(Some(n)),
        Err(_) => Err(Refusal::Sql(negative)),
    }
}

fn count_in(value: Value, negative: Fault) -> Result<Option<u64>, Refusal>
    ensures { IsAnswer result (counts.count_in negative value) }
{
    match value {
        Value::Int4(n) => counted(i64::from(n), negative),
        Value::Int8(n) => counted(n, negative),
        Value::Null => Ok(None),
        Value::Text(_) => Ok(None),
        Value::Day(_) => Ok(None),
        Value::Truth(_) => Ok(None),
    }
}

/// The number of rows where there is one and it is not null, or the first fault of its constants, or
/// `negative`.
pub(crate) fn bind_count(
    alloc: Global,
    names: &Names<'_>,
    count: &Option<Expr>,
    negative: Fault,
) -> Result<Option<u64>, Refusal>
    ensures { IsAnswer result (counts.count negative names.now (maybe_tree count.now)) }
{
    match count {
        None => Ok(None),
        Some(e) => {
            let value = bind_constant(alloc, names, Kind::Int8, e)?;
            count_in(value, negative)
        }
    }
}
