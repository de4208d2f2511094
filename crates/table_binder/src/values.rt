ghost use Rattle.std.specs.Prelude.{◌≡◌, ◌++◌, map, IfOk};
ghost use Rattle.pg_values.specs.Refusals.{IsAnswer};
ghost use Rattle.sql_ast.specs.Expressions.{tree, listed};
ghost use Rattle.expression_binder.specs.Firsts.{or_first};
ghost use Rattle.expression_binder.specs.Operands as operands;
ghost use Rattle.table_binder.specs.Values as spec;

use crate::RawValue;
use expression_binder::{
    Names, Typed, bind_constant, check_joined, check_own, condition_names, kind_alone,
    nothing_more, typed_of, zero_typed,
};
use pg_values::{Fault, NoMemory, Refusal, Value};
use refusals::left_out;
use sql_ast::{Expr, Leaf, Operator};
use std::alloc::Global;

fn no_names() -> Names<'static>
    ensures { result ≡ spec.no_names }
{
    condition_names(&[], &[], 0)
}

// `$<n> is not in this profile`
fn left_out_parameter(alloc: Global, n: u64) -> Result<Fault, NoMemory>
    ensures { IfOk result (λ f. f ≡ spec.parameter_left_out n) }
{
    let name = format!(in alloc; "${n}")?;
    left_out(alloc, name.as_bytes())
}

// A leaf names neither a column nor a parameter.
fn check_name(alloc: Global, leaf: &Leaf) -> Result<(), Refusal>
    ensures { IsAnswer result (or_first (spec.name_faults leaf.now) tt) }
{
    match leaf {
        Leaf::Parameter(n) => Err(Refusal::Sql(left_out_parameter(alloc, *n)?)),
        Leaf::Column(name) => Err(Refusal::Sql(left_out(alloc, name.as_bytes())?)),
        Leaf::ColumnOf(_, name) => Err(Refusal::Sql(left_out(alloc, name.as_bytes())?)),
        Leaf::Number(_) => Ok(()),
        Leaf::Text(_) => Ok(()),
        Leaf::Date(_) => Ok(()),
        Leaf::Null => Ok(()),
        Leaf::Truth(_) => Ok(()),
        Leaf::TableName => Ok(()),
        Leaf::TableNameOf(_) => Ok(()),
    }
}

#[cycle(check)]
fn check_values(alloc: Global, parts: &[Expr]) -> Result<(), Refusal>
    ensures { IsAnswer result (or_first (spec.values_faults (listed (map tree parts.now))) tt) }
{
    for part in parts {
        check_value(alloc, part)?;
    }
    Ok(())
}

#[cycle(check)]
fn check_both(alloc: Global, x: &Expr, y: &Expr) -> Result<(), Refusal>
    ensures { IsAnswer result (or_first (spec.value_faults (tree x.now) ++ spec.value_faults (tree y.now)) tt) }
{
    check_value(alloc, x)?;
    check_value(alloc, y)
}

// The first fault of the parts of an expression, a name that stands there among them.
#[cycle(check)]
fn check_inner(alloc: Global, e: &Expr) -> Result<(), Refusal>
    ensures { IsAnswer result (or_first (spec.inner_faults (tree e.now)) tt) }
{
    match e {
        Expr::Leaf(leaf) => check_name(alloc, leaf),
        Expr::Call(_, arguments) => check_values(alloc, arguments.as_slice()),
        Expr::CallOfAll(_) => Ok(()),
        Expr::Negated(x) => check_value(alloc, x),
        Expr::Binary(_, x, y) => check_both(alloc, x, y),
        Expr::In(_, x, list) => {
            check_value(alloc, x)?;
            check_values(alloc, list.as_slice())
        }
        Expr::Between(_, x, from, to) => {
            check_value(alloc, x)?;
            check_both(alloc, from, to)
        }
        Expr::IsNull(_, x) => check_value(alloc, x),
        Expr::Not(x) => check_value(alloc, x),
        Expr::And(list) => check_values(alloc, list.as_slice()),
        Expr::Or(list) => check_values(alloc, list.as_slice()),
    }
}

// The first fault of names and kinds, else the kind, for which each part is gone over once.
#[cycle(check)]
fn check_typed(alloc: Global, e: &Expr) -> Result<Typed, Refusal>
    ensures { IsAnswer result (or_first (spec.value_faults (tree e.now)) (operands.typed spec.no_names (tree e.now))) }
{
    match e {
        Expr::Negated(x) => {
            let right = check_typed(alloc, x)?;
            check_joined(
                alloc,
                nothing_more(),
                Operator::Subtract,
                zero_typed(),
                right,
            )
        }
        Expr::Binary(operator, x, y) => {
            let left = check_typed(alloc, x)?;
            let right = check_typed(alloc, y)?;
            check_joined(alloc, nothing_more(), *operator, left, right)
        }
        _ => {
            let names = no_names();
            check_inner(alloc, e)?;
            check_own(alloc, &names, e)?;
            Ok(typed_of(&names, e))
        }
    }
}

// The first fault of names and kinds: 0A000 for what has no place in a bound, 42883.
#[cycle(check)]
fn check_value(alloc: Global, e: &Expr) -> Result<(), Refusal>
    ensures { IsAnswer result (or_first (spec.value_faults (tree e.now)) tt) }
{
    check_typed(alloc, e)?;
    Ok(())
}

// The value of the expression, or its first fault.
fn compute(alloc: Global, e: &Expr) -> Result<Value, Refusal>
    ensures { IsAnswer result (spec.computed (tree e.now)) }
{
    let typed = check_typed(alloc, e)?;
    bind_constant(alloc, &no_names(), kind_alone(typed.given), e)
}

fn given_or_faulty(alloc: Global, e: &Expr) -> Result<RawValue, NoMemory>
    ensures { IfOk result (λ raw. raw ≡ spec.given_or_faulty (spec.computed (tree e.now))) }
{
    match compute(alloc, e) {
        Ok(value) => Ok(RawValue::Given(value)),
        Err(Refusal::Sql(fault)) => Ok(RawValue::Faulty(fault)),
        Err(Refusal::NoMemory) => Err(NoMemory),
    }
}

/// An expression of a bound: a string literal by itself, a value, or a fault.
pub(crate) fn raw_value(alloc: Global, e: &Expr) -> Result<RawValue, NoMemory>
    ensures { IfOk result (λ raw. raw ≡ spec.raw_value (tree e.now)) }
{
    match e {
        Expr::Leaf(Leaf::Text(text)) => Ok(RawValue::Literal(text.copy(alloc)?)),
        _ => given_or_faulty(alloc, e),
    }
}
