ghost use Rattle.std.specs.Prelude.{◌≡◌, ◌++◌, map};
ghost use Rattle.pg_values.specs.Refusals.{IsAnswer};
ghost use Rattle.sql_ast.specs.Expressions.{tree, listed};
ghost use Rattle.expression_binder.specs.Conditions as conditions;
ghost use Rattle.expression_binder.specs.Firsts.{or_first};
ghost use Rattle.expression_binder.specs.Operands as operands;
ghost use Rattle.expression_binder.specs.Kinds as kinds;
ghost use Rattle.sql_ast.specs.Expressions as trees;

use crate::kinds::{check_comparison, check_truth, is_arithmetic};
use crate::operands::{check_operand, check_operands, typed_of};
use crate::{Given, Names};
use pg_values::Refusal;
use sql_ast::{Expr, Operator};
use std::alloc::Global;

/// The comparison of IN, or of NOT IN.
pub(crate) fn in_op(is_not: bool) -> Operator
    ensures { result ≡ conditions.in_op is_not }
{
    if is_not {
        Operator::NotEqual
    } else {
        Operator::Equal
    }
}

/// The first comparison of BETWEEN, or of NOT BETWEEN.
pub(crate) fn from_op(is_not: bool) -> Operator
    ensures { result ≡ conditions.from_op is_not }
{
    if is_not {
        Operator::Less
    } else {
        Operator::GreaterEqual
    }
}

/// The second one.
pub(crate) fn to_op(is_not: bool) -> Operator
    ensures { result ≡ conditions.to_op is_not }
{
    if is_not {
        Operator::Greater
    } else {
        Operator::LessEqual
    }
}

fn check_alone(alloc: Global, names: &Names<'_>, e: &Expr) -> Result<(), Refusal>
    ensures { IsAnswer result (or_first (conditions.alone_faults names.now (tree e.now)) tt) }
{
    check_operand(alloc, names, e)?;
    check_truth(alloc, typed_of(names, e).given)
}

fn check_sides(
    alloc: Global,
    names: &Names<'_>,
    operator: Operator,
    x: &Expr,
    y: &Expr,
) -> Result<(), Refusal>
    ensures { IsAnswer result (or_first (operands.operand_faults names.now (tree x.now) ++ (operands.operand_faults names.now (tree y.now) ++ kinds.comparison_faults operator (operands.typed names.now (tree x.now)).given (operands.typed names.now (tree y.now)).given)) tt) }
{
    check_operand(alloc, names, x)?;
    check_operand(alloc, names, y)?;
    let left = typed_of(names, x).given;
    let right = typed_of(names, y).given;
    check_comparison(alloc, operator, left, right)
}

fn check_each(
    alloc: Global,
    names: &Names<'_>,
    operator: Operator,
    left: Given,
    list: &[Expr],
) -> Result<(), Refusal>
    ensures { IsAnswer result (or_first (conditions.list_faults operator left (operands.all_typed names.now (listed (map tree list.now)))) tt) }
{
    for e in list {
        check_comparison(alloc, operator, left, typed_of(names, e).given)?;
    }
    Ok(())
}

fn check_in(
    alloc: Global,
    names: &Names<'_>,
    is_not: bool,
    x: &Expr,
    list: &[Expr],
) -> Result<(), Refusal>
    ensures { IsAnswer result (or_first (conditions.cond_faults names.now (trees.in_list is_not (tree x.now) (listed (map tree list.now)))) tt) }
{
    check_operand(alloc, names, x)?;
    check_operands(alloc, names, list)?;
    check_each(alloc, names, in_op(is_not), typed_of(names, x).given, list)
}

fn check_end(
    alloc: Global,
    names: &Names<'_>,
    operator: Operator,
    x: &Expr,
    end: &Expr,
) -> Result<(), Refusal>
    ensures { IsAnswer result (or_first (conditions.end_faults names.now operator (tree x.now) (tree end.now)) tt) }
{
    check_operand(alloc, names, end)?;
    let left = typed_of(names, x).given;
    check_comparison(alloc, operator, left, typed_of(names, end).given)
}

fn check_range(
    alloc: Global,
    names: &Names<'_>,
    is_not: bool,
    x: &Expr,
    from: &Expr,
    to: &Expr,
) -> Result<(), Refusal>
    ensures { IsAnswer result (or_first (conditions.range_faults names.now is_not (tree x.now) (tree from.now) (tree to.now)) tt) }
{
    check_end(alloc, names, from_op(is_not), x, from)?;
    check_end(alloc, names, to_op(is_not), x, to)
}

fn check_between(
    alloc: Global,
    names: &Names<'_>,
    is_not: bool,
    x: &Expr,
    from: &Expr,
    to: &Expr,
) -> Result<(), Refusal>
    ensures { IsAnswer result (or_first (conditions.cond_faults names.now (trees.between is_not (tree x.now) (tree from.now) (tree to.now))) tt) }
{
    check_operand(alloc, names, x)?;
    check_range(alloc, names, is_not, x, from, to)
}

#[cycle(check)]
fn check_parts(alloc: Global, names: &Names<'_>, parts: &[Expr]) -> Result<(), Refusal>
    ensures { IsAnswer result (or_first (conditions.part_faults names.now (listed (map tree parts.now))) tt) }
{
    for part in parts {
        check_condition(alloc, names, part)?;
    }
    Ok(())
}

/// The first fault of names and kinds in a condition: those of operands, or 42804 for a part that is no
/// condition.
#[cycle(check)]
pub fn check_condition(alloc: Global, names: &Names<'_>, e: &Expr) -> Result<(), Refusal>
    ensures { IsAnswer result (or_first (conditions.cond_faults names.now (tree e.now)) tt) }
{
    match e {
        Expr::Leaf(_) => check_alone(alloc, names, e),
        Expr::Call(_, _) => check_alone(alloc, names, e),
        Expr::CallOfAll(_) => check_operand(alloc, names, e),
        Expr::Negated(_) => check_alone(alloc, names, e),
        Expr::Binary(operator, x, y) => {
            if is_arithmetic(*operator) {
                check_alone(alloc, names, e)
            } else {
                check_sides(alloc, names, *operator, x, y)
            }
        }
        Expr::In(is_not, x, list) => check_in(alloc, names, *is_not, x, list.as_slice()),
        Expr::Between(is_not, x, from, to) => check_between(alloc, names, *is_not, x, from, to),
        Expr::IsNull(_, x) => check_operand(alloc, names, x),
        Expr::Not(x) => check_condition(alloc, names, x),
        Expr::And(list) => check_parts(alloc, names, list.as_slice()),
        Expr::Or(list) => check_parts(alloc, names, list.as_slice()),
    }
}
