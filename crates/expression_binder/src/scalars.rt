ghost use Rattle.std.specs.Prelude.{◌≡◌, map, IfOk};
ghost use Rattle.pg_values.specs.Refusals.{IsAnswer};
ghost use Rattle.value_rules.specs.Assignment.{assigned};
ghost use Rattle.pg_values.specs.declared.value.Kind.TheVariants.{Text as KText};
ghost use Rattle.pg_values.specs.declared.value.Value.TheVariants.{Null as VNull};
ghost use Rattle.sql_ast.specs.Expressions as trees;
ghost use Rattle.sql_ast.specs.Expressions.{tree, listed};
ghost use Rattle.cond_logic.specs.Scalars.{scalar_tree};
ghost use Rattle.cond_logic.specs.Scalars as scalars;
ghost use Rattle.expression_binder.specs.Constants as constants;
ghost use Rattle.expression_binder.specs.Firsts.{IsAnswerBy};
ghost use Rattle.expression_binder.specs.Kinds as kinds;
ghost use Rattle.expression_binder.specs.Operands as operands;
ghost use Rattle.expression_binder.specs.declared.typed.Given.TheVariants.{Nothing as GNothing};

use crate::constants::{leaf_scalar, number_value, operate};
use crate::kinds::{fixed, joined, kind_beside};
use crate::operands::{call_typed, is_pid, leaf_typed, typed_of, zero_typed};
use crate::{Given, Names, Typed};
use cond_logic::Scalar;
use pg_values::{Kind, NoMemory, Refusal, Value};
use refusals::{out_of_range, wrong_kind};
use sql_ast::{Expr, Leaf, Operator};
use std::alloc::Global;
use value_rules::{CoerceFault, coerce};

fn cancel(alloc: Global, x: Scalar) -> Result<Scalar, NoMemory>
    ensures { IfOk result (λ made. scalar_tree made ≡ scalars.cancels (scalar_tree x)) }
{
    Ok(Scalar::Cancel(Box::new(alloc, x)?))
}

#[cycle(bind)]
fn first_argument(alloc: Global, names: &Names<'_>, arguments: &[Expr]) -> Result<Scalar, Refusal>
    ensures { IsAnswerBy scalar_tree result (constants.first_argument names.now (listed (map tree arguments.now))) }
{
    match arguments.first() {
        None => Ok(Scalar::Lit(Value::Null)),
        Some(argument) => bind_scalar(alloc, names, Kind::Int4, argument),
    }
}

// What a call is worth.
#[cycle(bind)]
fn bind_call(
    alloc: Global,
    names: &Names<'_>,
    function: &[u8],
    arguments: &[Expr],
) -> Result<Scalar, Refusal>
    ensures { IsAnswerBy scalar_tree result (constants.scalar names.now KText (trees.call function.now (listed (map tree arguments.now)))) }
{
    if is_pid(function) {
        return Ok(Scalar::Lit(number_value(alloc, names.session() as u64)?));
    }
    let argument = first_argument(alloc, names, arguments)?;
    Ok(cancel(alloc, argument)?)
}

// An operand beside another one, and its kind. Only a string literal takes the kind of its place.
#[cycle(bind)]
fn bind_beside(
    alloc: Global,
    names: &Names<'_>,
    operator: Operator,
    other: Given,
    e: &Expr,
) -> Result<(Scalar, Typed), Refusal>
    ensures worth { IsAnswerBy (λ p. scalar_tree p.0) result (constants.scalar names.now (kinds.kind_beside operator other (operands.typed names.now (tree e.now)).given) (tree e.now)) }
    ensures kind { IfOk result (λ p. p.1 ≡ operands.typed names.now (tree e.now)) }
{
    bind_typed(alloc, names, kind_beside(operator, other, Given::Quoted), e)
}

// A leaf beside what stands on its right, whose kind a string literal takes. That is bound first, though a fault of
// the leaf comes before its own.
#[cycle(bind)]
fn bind_leaf_beside(
    alloc: Global,
    names: &Names<'_>,
    operator: Operator,
    leaf: &Leaf,
    y: &Expr,
) -> Result<(Scalar, Typed), Refusal>
    ensures worth { IsAnswerBy (λ p. scalar_tree p.0) result (constants.scalar names.now KText (trees.binary operator (trees.leaf leaf.now) (tree y.now))) }
    ensures kind { IfOk result (λ p. p.1 ≡ operands.typed names.now (trees.binary operator (trees.leaf leaf.now) (tree y.now))) }
{
    let left = leaf_typed(names, leaf);
    match bind_beside(alloc, names, operator, left.given, y) {
        Ok((y, right)) => {
            let kind = kind_beside(operator, right.given, left.given);
            let x = leaf_scalar(alloc, names, kind, leaf)?;
            let made = operate(alloc, operator, x, y)?;
            Ok((made, joined(operator, left, right)))
        }
        Err(Refusal::Sql(fault)) => {
            let kind = kind_beside(operator, typed_of(names, y).given, left.given);
            leaf_scalar(alloc, names, kind, leaf)?;
            Err(Refusal::Sql(fault))
        }
        Err(Refusal::NoMemory) => Err(Refusal::NoMemory),
    }
}

// Both sides of an operator, the left one in a place of any kind: only a leaf takes that.
#[cycle(bind)]
fn bind_sides(
    alloc: Global,
    names: &Names<'_>,
    operator: Operator,
    x: &Expr,
    y: &Expr,
) -> Result<(Scalar, Typed), Refusal>
    ensures worth { IsAnswerBy (λ p. scalar_tree p.0) result (constants.with_left operator (constants.scalar names.now KText (tree x.now)) (constants.scalar names.now (kinds.kind_beside operator (operands.typed names.now (tree x.now)).given (operands.typed names.now (tree y.now)).given) (tree y.now))) }
    ensures kind { IfOk result (λ p. p.1 ≡ kinds.joined operator (operands.typed names.now (tree x.now)) (operands.typed names.now (tree y.now))) }
{
    let (x, left) = bind_typed(alloc, names, Kind::Text, x)?;
    let (y, right) = bind_beside(alloc, names, operator, left.given, y)?;
    let made = operate(alloc, operator, x, y)?;
    Ok((made, joined(operator, left, right)))
}

#[cycle(bind)]
fn bind_binary(
    alloc: Global,
    names: &Names<'_>,
    operator: Operator,
    x: &Expr,
    y: &Expr,
) -> Result<(Scalar, Typed), Refusal>
    ensures worth { IsAnswerBy (λ p. scalar_tree p.0) result (constants.scalar names.now KText (trees.binary operator (tree x.now) (tree y.now))) }
    ensures kind { IfOk result (λ p. p.1 ≡ operands.typed names.now (trees.binary operator (tree x.now) (tree y.now))) }
{
    match x {
        Expr::Leaf(leaf) => bind_leaf_beside(alloc, names, operator, leaf, y),
        _ => bind_sides(alloc, names, operator, x, y),
    }
}

fn nothing() -> (Scalar, Typed)
    ensures worth { scalar_tree result.0 ≡ scalars.literal VNull }
    ensures kind { result.1 ≡ kinds.fixed GNothing }
{
    (Scalar::Lit(Value::Null), fixed(Given::Nothing))
}

// What an operand is worth in a place of the kind, and its own kind: each part is gone over once.
#[cycle(bind)]
fn bind_typed(
    alloc: Global,
    names: &Names<'_>,
    kind: Kind,
    e: &Expr,
) -> Result<(Scalar, Typed), Refusal>
    ensures worth { IsAnswerBy (λ p. scalar_tree p.0) result (constants.scalar names.now kind (tree e.now)) }
    ensures kind { IfOk result (λ p. p.1 ≡ operands.typed names.now (tree e.now)) }
{
    match e {
        Expr::Leaf(leaf) => {
            let x = leaf_scalar(alloc, names, kind, leaf)?;
            Ok((x, leaf_typed(names, leaf)))
        }
        Expr::Call(function, arguments) => {
            let x = bind_call(alloc, names, function.as_bytes(), arguments.as_slice())?;
            Ok((x, call_typed(function.as_bytes())))
        }
        Expr::Negated(x) => {
            let zero = zero_typed();
            let (x, right) = bind_beside(alloc, names, Operator::Subtract, zero.given, x)?;
            let made = operate(alloc, Operator::Subtract, Scalar::Lit(Value::Int4(0)), x)?;
            Ok((made, joined(Operator::Subtract, zero, right)))
        }
        Expr::Binary(operator, x, y) => bind_binary(alloc, names, *operator, x, y),
        Expr::CallOfAll(_) => Ok(nothing()),
        Expr::In(_, _, _) => Ok(nothing()),
        Expr::Between(_, _, _, _) => Ok(nothing()),
        Expr::IsNull(_, _) => Ok(nothing()),
        Expr::Not(_) => Ok(nothing()),
        Expr::And(_) => Ok(nothing()),
        Expr::Or(_) => Ok(nothing()),
    }
}

/// What an operand is worth in a place of the kind, or the first fault of its constants: 22P02, 22003,
/// 22007, 22008 or 22012.
#[cycle(bind)]
pub fn bind_scalar(
    alloc: Global,
    names: &Names<'_>,
    kind: Kind,
    e: &Expr,
) -> Result<Scalar, Refusal>
    ensures { IsAnswerBy scalar_tree result (constants.scalar names.now kind (tree e.now)) }
{
    let (x, _) = bind_typed(alloc, names, kind, e)?;
    Ok(x)
}

fn literal_in(x: Scalar) -> Value
    ensures { result ≡ constants.literal_in (scalar_tree x) }
{
    match x {
        Scalar::Lit(value) => value,
        _ => Value::Null,
    }
}

/// The value of a constant expression in a place of the kind.
pub fn bind_constant(
    alloc: Global,
    names: &Names<'_>,
    kind: Kind,
    e: &Expr,
) -> Result<Value, Refusal>
    ensures { IsAnswer result (constants.constant names.now kind (tree e.now)) }
{
    let x = bind_scalar(alloc, names, kind, e)?;
    Ok(literal_in(x))
}

/// The value that a column of the kind gets: 22003 where a bigint does not fit an integer.
pub fn store(alloc: Global, kind: Kind, value: Value) -> Result<Value, Refusal>
    ensures { IsAnswer result (constants.or_coerced kind (assigned value kind)) }
{
    match coerce(value, kind) {
        Ok(value) => Ok(value),
        Err((_, CoerceFault::Range)) => Err(Refusal::Sql(out_of_range(alloc))),
        Err((_, CoerceFault::Kinds)) => Err(Refusal::Sql(wrong_kind(alloc, Kind::Text, kind)?)),
    }
}
