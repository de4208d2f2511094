ghost use Rattle.std.specs.Prelude.{◌≡◌, ◌++◌, ◌∷◌, [], map, Ok, IfOk, IfSome, OnOk};
ghost use Rattle.pg_values.specs.Refusals.{IsAnswer};
ghost use Rattle.pg_values.specs.declared.value.Kind.TheVariants.{Truth as KTruth};
ghost use Rattle.sql_ast.specs.Expressions as trees;
ghost use Rattle.sql_ast.specs.Expressions.{tree, listed};
ghost use Rattle.cond_logic.specs.Scalars.{scalar_tree};
ghost use Rattle.cond_logic.specs.Trees as conds;
ghost use Rattle.cond_logic.specs.Trees.{cond_tree};
ghost use Rattle.expression_binder.specs.Firsts.{or_first, fault_in, IsAnswerBy};
ghost use Rattle.expression_binder.specs.Meanings as meanings;
ghost use Rattle.expression_binder.specs.Operands as operands;
ghost use Rattle.expression_binder.specs.Scopes as scopes;
ghost use Rattle.expression_binder.specs.Meanings.{constant_faults, constants_faults, meaning};

use crate::conditions::{from_op, in_op, to_op};
use crate::kinds::{kind_alone, side_kind};
use crate::naming::param;
use crate::operands::typed_of;
use crate::scalars::bind_scalar;
use crate::{Given, Names};
use cond_logic::{CompareOp, Cond, CondList, Operand, Scalar, Truth3};
use pg_values::{Kind, NoMemory, Refusal, Value, copy_value};
use sql_ast::{Expr, Leaf, Operator};
use std::alloc::Global;

fn as_operand(x: Scalar) -> Operand
    ensures { result ≡ meanings.as_operand (scalar_tree x) }
{
    match x {
        Scalar::Column(column) => Operand::Column(column),
        Scalar::Lit(value) => Operand::Lit(value),
        _ => Operand::Lit(Value::Null),
    }
}

fn param_operand(names: &Names<'_>, n: u64) -> Operand
    ensures { result ≡ meanings.param_operand n (scopes.param names.now.params n) }
{
    match param(names, n) {
        None => Operand::Lit(Value::Null),
        Some(_) => Operand::Param(n.saturating_sub(1) as usize),
    }
}

fn bind_operand(alloc: Global, names: &Names<'_>, kind: Kind, e: &Expr) -> Result<Operand, Refusal>
    ensures { IsAnswer result (meanings.operand names.now kind (tree e.now)) }
{
    if let Expr::Leaf(Leaf::Parameter(n)) = e {
        return Ok(param_operand(names, *n));
    }
    Ok(as_operand(bind_scalar(alloc, names, kind, e)?))
}

// One side of a comparison, of the kind that the other side gives it.
fn bind_side(alloc: Global, names: &Names<'_>, other: &Expr, own: &Expr) -> Result<Operand, Refusal>
    ensures { IsAnswer result (meanings.side names.now (tree other.now) (tree own.now)) }
{
    let kind = side_kind(typed_of(names, other).given, typed_of(names, own).given);
    bind_operand(alloc, names, kind, own)
}

fn compare_op(operator: Operator) -> CompareOp
    ensures { result ≡ meanings.compare_op operator }
{
    match operator {
        Operator::Equal => CompareOp::Eq,
        Operator::NotEqual => CompareOp::Ne,
        Operator::Less => CompareOp::Lt,
        Operator::LessEqual => CompareOp::Le,
        Operator::Greater => CompareOp::Gt,
        Operator::GreaterEqual => CompareOp::Ge,
        _ => CompareOp::Eq,
    }
}

#[tactic(auto, unfolding(crate::specs::Meanings::side_faults))]
fn bind_comparison(
    alloc: Global,
    names: &Names<'_>,
    operator: Operator,
    x: &Expr,
    y: &Expr,
) -> Result<Cond, Refusal>
    ensures { IsAnswerBy cond_tree result (or_first (meanings.side_faults names.now (tree x.now) (tree y.now)) (meanings.comparison names.now operator (tree x.now) (tree y.now))) }
{
    let left = bind_side(alloc, names, y, x)?;
    let right = bind_side(alloc, names, x, y)?;
    Ok(Cond::Compare(compare_op(operator), left, right))
}

fn add(conds: &mut Vec<Cond>, cond: Cond) -> Result<(), NoMemory>
    ensures { OnOk result (conds.new.items ≡ conds.old.items ++ cond ∷ []) }
{
    conds.push(cond)?;
    Ok(())
}

// A copy of an operand, which shares its text.
fn copy_operand(alloc: Global, x: &Operand) -> Result<Operand, NoMemory>
    ensures { IfOk result (λ copy. copy ≡ x.now) }
{
    match x {
        Operand::Column(column) => Ok(Operand::Column(*column)),
        Operand::Param(n) => Ok(Operand::Param(*n)),
        Operand::Lit(value) => Ok(Operand::Lit(copy_value(alloc, value)?)),
    }
}

// The left side of IN as a value of the list gave it its kind.
#[derive(Drop)]
struct LeftSide {
    kind: Kind,
    operand: Operand,
}

// The left side for a value that gives it the kind. It is bound anew only where the last value gave it another.
fn bind_left(
    alloc: Global,
    names: &Names<'_>,
    kind: Kind,
    x: &Expr,
    last: Option<LeftSide>,
) -> Result<LeftSide, Refusal>
    requires { IfSome last (λ l. meanings.operand names.now l.kind (tree x.now) ≡ Ok l.operand) }
    ensures kind { IfOk result (λ l. l.kind ≡ kind) }
    ensures bound { IsAnswerBy (λ l. l.operand) result (meanings.operand names.now kind (tree x.now)) }
{
    if let Some(left) = last {
        if left.kind == kind {
            return Ok(left);
        }
    }
    let operand = bind_operand(alloc, names, kind, x)?;
    Ok(LeftSide { kind, operand })
}

// The comparison of the left side, for which `given` stands, with one value of the list.
#[tactic(auto, unfolding(crate::specs::Meanings::side_faults))]
fn bind_beside(
    alloc: Global,
    names: &Names<'_>,
    operator: Operator,
    x: &Expr,
    given: Given,
    last: Option<LeftSide>,
    e: &Expr,
) -> Result<(Cond, LeftSide), Refusal>
    requires given { given ≡ (operands.typed names.now (tree x.now)).given }
    requires last { IfSome last (λ l. meanings.operand names.now l.kind (tree x.now) ≡ Ok l.operand) }
    ensures answer { IsAnswerBy (λ p. cond_tree p.0) result (or_first (meanings.side_faults names.now (tree x.now) (tree e.now)) (meanings.comparison names.now operator (tree x.now) (tree e.now))) }
    ensures left { IfOk result (λ p. meanings.operand names.now p.1.kind (tree x.now) ≡ Ok p.1.operand) }
{
    let own = typed_of(names, e).given;
    let left = bind_left(alloc, names, side_kind(own, given), x, last)?;
    let right = bind_operand(alloc, names, side_kind(given, own), e)?;
    let copy = copy_operand(alloc, &left.operand)?;
    Ok((Cond::Compare(compare_op(operator), copy, right), left))
}

fn bind_each(
    alloc: Global,
    names: &Names<'_>,
    operator: Operator,
    x: &Expr,
    list: &[Expr],
) -> Result<Vec<Cond>, Refusal>
    ensures { IsAnswerBy (λ v. map cond_tree v.items) result (or_first (meanings.each_side_faults names.now (tree x.now) (listed (map tree list.now))) (meanings.comparisons names.now operator (tree x.now) (listed (map tree list.now)))) }
{
    let given = typed_of(names, x).given;
    let mut conds = Vec::new(alloc);
    let mut last = None;
    for e in list {
        let (cond, left) = bind_beside(alloc, names, operator, x, given, last, e)?;
        add(&mut conds, cond)?;
        last = Some(left);
    }
    Ok(conds)
}

// All conditions of a list, or any of them; one condition is itself.
fn joined(is_all: bool, conds: Vec<Cond>) -> Cond
    ensures { cond_tree result ≡ meanings.in_meaning is_all (map cond_tree conds.items) }
{
    let mut conds = conds;
    if conds.len() == 1 {
        if let Some(cond) = conds.pop() {
            return cond;
        }
    }
    if is_all {
        Cond::And(CondList::from_vec(conds))
    } else {
        Cond::Or(CondList::from_vec(conds))
    }
}

fn bind_in(
    alloc: Global,
    names: &Names<'_>,
    is_not: bool,
    x: &Expr,
    list: &[Expr],
) -> Result<Cond, Refusal>
    ensures { IsAnswerBy cond_tree result (or_first (constant_faults names.now (trees.in_list is_not (tree x.now) (listed (map tree list.now)))) (meaning names.now (trees.in_list is_not (tree x.now) (listed (map tree list.now))))) }
{
    let conds = bind_each(alloc, names, in_op(is_not), x, list)?;
    Ok(joined(is_not, conds))
}

fn two(alloc: Global, first: Cond, second: Cond) -> Result<Vec<Cond>, NoMemory>
    ensures { IfOk result (λ v. v.items ≡ first ∷ second ∷ []) }
{
    let mut conds = Vec::new(alloc);
    conds.push(first)?;
    conds.push(second)?;
    Ok(conds)
}

fn bind_between(
    alloc: Global,
    names: &Names<'_>,
    is_not: bool,
    x: &Expr,
    from: &Expr,
    to: &Expr,
) -> Result<Cond, Refusal>
    ensures { IsAnswerBy cond_tree result (or_first (constant_faults names.now (trees.between is_not (tree x.now) (tree from.now) (tree to.now))) (meaning names.now (trees.between is_not (tree x.now) (tree from.now) (tree to.now)))) }
{
    let first = bind_comparison(alloc, names, from_op(is_not), x, from)?;
    let second = bind_comparison(alloc, names, to_op(is_not), x, to)?;
    let conds = two(alloc, first, second)?;
    Ok(joined(!is_not, conds))
}

fn is_true(x: Operand) -> Cond
    ensures { cond_tree result ≡ meanings.is_true x }
{
    Cond::Compare(CompareOp::Eq, x, Operand::Lit(Value::Truth(true)))
}

fn bind_leaf(alloc: Global, names: &Names<'_>, e: &Expr, leaf: &Leaf) -> Result<Cond, Refusal>
    requires { tree e.now ≡ trees.leaf leaf.now }
    ensures { IsAnswerBy cond_tree result (or_first (constant_faults names.now (trees.leaf leaf.now)) (meaning names.now (trees.leaf leaf.now))) }
{
    match leaf {
        Leaf::Truth(true) => Ok(Cond::Const(Truth3::Yes)),
        Leaf::Truth(false) => Ok(Cond::Const(Truth3::No)),
        _ => {
            let x = bind_operand(alloc, names, Kind::Truth, e)?;
            Ok(is_true(x))
        }
    }
}

fn invert(alloc: Global, cond: Cond) -> Result<Cond, NoMemory>
    ensures { IfOk result (λ made. cond_tree made ≡ conds.inverted (cond_tree cond)) }
{
    Ok(Cond::Not(Box::new(alloc, cond)?))
}

fn bind_null(alloc: Global, names: &Names<'_>, is_not: bool, x: &Expr) -> Result<Cond, Refusal>
    ensures { IsAnswerBy cond_tree result (or_first (constant_faults names.now (trees.is_null is_not (tree x.now))) (meaning names.now (trees.is_null is_not (tree x.now)))) }
{
    let kind = kind_alone(typed_of(names, x).given);
    let cond = Cond::IsNull(bind_operand(alloc, names, kind, x)?);
    if is_not {
        Ok(invert(alloc, cond)?)
    } else {
        Ok(cond)
    }
}

#[cycle(bind)]
fn bind_parts(alloc: Global, names: &Names<'_>, parts: &[Expr]) -> Result<Vec<Cond>, Refusal>
    ensures { IsAnswerBy (λ v. map cond_tree v.items) result (or_first (constants_faults names.now (listed (map tree parts.now))) (meanings.meanings names.now (listed (map tree parts.now)))) }
{
    let mut conds = Vec::new(alloc);
    for part in parts {
        let cond = bind_condition(alloc, names, part)?;
        add(&mut conds, cond)?;
    }
    Ok(conds)
}

/// The condition that is meant, by places and values, or the first fault of its constants.
#[cycle(bind)]
pub fn bind_condition(alloc: Global, names: &Names<'_>, e: &Expr) -> Result<Cond, Refusal>
    ensures { IsAnswerBy cond_tree result (or_first (constant_faults names.now (tree e.now)) (meaning names.now (tree e.now))) }
{
    match e {
        Expr::Leaf(leaf) => bind_leaf(alloc, names, e, leaf),
        Expr::Binary(operator, x, y) => bind_comparison(alloc, names, *operator, x, y),
        Expr::In(is_not, x, list) => bind_in(alloc, names, *is_not, x, list.as_slice()),
        Expr::Between(is_not, x, from, to) => bind_between(alloc, names, *is_not, x, from, to),
        Expr::IsNull(is_not, x) => bind_null(alloc, names, *is_not, x),
        Expr::Not(x) => {
            let cond = bind_condition(alloc, names, x)?;
            Ok(invert(alloc, cond)?)
        }
        Expr::And(list) => {
            let conds = bind_parts(alloc, names, list.as_slice())?;
            Ok(Cond::And(CondList::from_vec(conds)))
        }
        Expr::Or(list) => {
            let conds = bind_parts(alloc, names, list.as_slice())?;
            Ok(Cond::Or(CondList::from_vec(conds)))
        }
        Expr::Negated(_) => Ok(Cond::Const(Truth3::No)),
        Expr::Call(_, _) => Ok(Cond::Const(Truth3::No)),
        Expr::CallOfAll(_) => Ok(Cond::Const(Truth3::No)),
    }
}
