ghost use Rattle.std.specs.Prelude.{◌≡◌, ◌<◌, ◌≤◌, ◌+◌, ◌⊎◌, MatchResult, ℕ, [], length, max};
ghost use Rattle.grammar.specs.declared.refused.Refused.TheVariants as refusals;
ghost use Rattle.sql_expressions.specs.Levels as levels;
ghost use Rattle.sql_ast.specs.Expressions as trees_of;
ghost use Rattle.sql_expressions.specs.Views as views;

use crate::signs::Joint;
use grammar::Refused;
use pg_values::PgText;
use sql_ast::{Expr, ExprList, Leaf, Operator};
use std::alloc::Global;
use std::mem::replace;

/// An expression, and how many operators, calls and pairs of parentheses stand over its deepest leaf.
#[derive(Debug, Drop)]
pub(crate) struct Deep {
    pub(crate) expr: Expr,
    pub(crate) depth: u8,
}

/// Expressions, and the depth of the deepest.
#[derive(Debug, Drop)]
pub(crate) struct Parts {
    pub(crate) items: Vec<Expr>,
    pub(crate) depth: u8,
}

/// An expression without operands.
pub(crate) fn flat(leaf: Leaf) -> Deep
    ensures { (views.deep result ≡ levels.flat leaf) × (result.depth ≡ 0) }
{
    Deep {
        expr: Expr::Leaf(leaf),
        depth: 0,
    }
}

/// What stands where an expression is to be read.
pub(crate) fn unread() -> Deep {
    flat(Leaf::Null)
}

/// What stands there, and none in its place.
fn taken(left: &mut Deep) -> Deep
    ensures { result ≡ left.old }
{
    replace(left, unread())
}

/// Lets an expression go. Where a function does that by itself, it takes more of the stack.
#[inline(never)]
pub(crate) fn discard(_deep: Deep) {}

/// Lets expressions go.
#[inline(never)]
pub(crate) fn discard_parts(_parts: Parts) {}

fn boxed(alloc: Global, deep: Deep) -> Result<(Box<Expr>, u8), Refused>
    ensures { MatchResult result (λ x. (trees_of.tree x.0.value ≡ trees_of.tree deep.expr) × (x.1 ≡ deep.depth)) (λ e. e ≡ refusals.NoMemory) }
{
    Ok((Box::new(alloc, deep.expr)?, deep.depth))
}

#[inline(never)]
pub(crate) fn negate(alloc: Global, left: &mut Deep) -> Result<(), Refused>
    requires { left.old.depth < 255 }
    ensures { MatchResult result (λ _. views.deep left.new ≡ levels.under trees_of.negated (views.deep left.old)) (λ e. e ≡ refusals.NoMemory) }
{
    let (expr, depth) = boxed(alloc, taken(left))?;
    *left = Deep {
        expr: Expr::Negated(expr),
        depth: depth + 1,
    };
    Ok(())
}

#[inline(never)]
pub(crate) fn invert(alloc: Global, left: &mut Deep) -> Result<(), Refused>
    requires { left.old.depth < 255 }
    ensures { MatchResult result (λ _. views.deep left.new ≡ levels.under trees_of.inverted (views.deep left.old)) (λ e. e ≡ refusals.NoMemory) }
{
    let (expr, depth) = boxed(alloc, taken(left))?;
    *left = Deep {
        expr: Expr::Not(expr),
        depth: depth + 1,
    };
    Ok(())
}

#[inline(never)]
pub(crate) fn ask_null(alloc: Global, is_not: bool, left: &mut Deep) -> Result<(), Refused>
    requires { left.old.depth < 255 }
    ensures { MatchResult result (λ _. views.deep left.new ≡ levels.under (trees_of.is_null is_not) (views.deep left.old)) (λ e. e ≡ refusals.NoMemory) }
{
    let (expr, depth) = boxed(alloc, taken(left))?;
    *left = Deep {
        expr: Expr::IsNull(is_not, expr),
        depth: depth + 1,
    };
    Ok(())
}

#[inline(never)]
pub(crate) fn join(
    alloc: Global,
    operator: Operator,
    left: &mut Deep,
    right: Deep,
) -> Result<(), Refused>
    requires { (left.old.depth < 255) × (right.depth < 255) }
    ensures { MatchResult result (λ _. views.deep left.new ≡ levels.joined operator (views.deep left.old) (views.deep right)) (λ e. e ≡ refusals.NoMemory) }
{
    let depth = left.depth.max(right.depth) + 1;
    let (operand, _) = boxed(alloc, taken(left))?;
    let (right, _) = boxed(alloc, right)?;
    *left = Deep {
        expr: Expr::Binary(operator, operand, right),
        depth,
    };
    Ok(())
}

#[inline(never)]
pub(crate) fn in_list(
    alloc: Global,
    is_not: bool,
    left: &mut Deep,
    list: Parts,
) -> Result<(), Refused>
    requires { (left.old.depth < 255) × (list.depth < 255) }
    ensures { MatchResult result (λ _. views.deep left.new ≡ levels.in_value is_not (views.deep left.old) (views.parts list)) (λ e. e ≡ refusals.NoMemory) }
{
    let depth = left.depth.max(list.depth) + 1;
    let (operand, _) = boxed(alloc, taken(left))?;
    *left = Deep {
        expr: Expr::In(is_not, operand, ExprList::from_vec(list.items)),
        depth,
    };
    Ok(())
}

#[inline(never)]
pub(crate) fn between(
    alloc: Global,
    is_not: bool,
    left: &mut Deep,
    from: Deep,
    to: Deep,
) -> Result<(), Refused>
    requires { (left.old.depth < 255) × (from.depth < 255) × (to.depth < 255) }
    ensures { MatchResult result (λ _. views.deep left.new ≡ levels.between_value is_not (views.deep left.old) (views.deep from, views.deep to)) (λ e. e ≡ refusals.NoMemory) }
{
    let depth = left.depth.max(from.depth.max(to.depth)) + 1;
    let (operand, _) = boxed(alloc, taken(left))?;
    let (from, _) = boxed(alloc, from)?;
    let (to, _) = boxed(alloc, to)?;
    *left = Deep {
        expr: Expr::Between(is_not, operand, from, to),
        depth,
    };
    Ok(())
}

pub(crate) fn no_parts(alloc: Global) -> Parts
    ensures { views.parts result ≡ ([], 0) }
{
    Parts {
        items: Vec::new(alloc),
        depth: 0,
    }
}

/// A single part: what stands there.
#[inline(never)]
pub(crate) fn only_part(alloc: Global, left: &mut Deep) -> Result<Parts, Refused>
    ensures { MatchResult result (λ p. (views.parts p ≡ levels.only_part (views.deep left.old)) × (p.depth ≡ left.old.depth) × (length p.items.items ≡ 1)) (λ e. e ≡ refusals.NoMemory) }
{
    let deep = taken(left);
    let mut items = Vec::new(alloc);
    items.push(deep.expr)?;
    Ok(Parts {
        items,
        depth: deep.depth,
    })
}

/// None at all.
#[inline(never)]
pub(crate) fn set_none(alloc: Global, parts: &mut Parts)
    ensures { (views.parts parts.new ≡ ([], 0)) × (parts.new.depth ≡ 0) }
{
    *parts = no_parts(alloc);
}

/// One alone.
#[inline(never)]
pub(crate) fn set_only(alloc: Global, parts: &mut Parts, deep: Deep) -> Result<(), Refused>
    ensures { MatchResult result (λ _. (views.parts parts.new ≡ levels.only_part (views.deep deep)) × (parts.new.depth ≡ deep.depth)) (λ e. e ≡ refusals.NoMemory) }
{
    let mut items = Vec::new(alloc);
    items.push(deep.expr)?;
    *parts = Parts {
        items,
        depth: deep.depth,
    };
    Ok(())
}

/// One more at the end.
#[inline(never)]
pub(crate) fn add(parts: &mut Parts, next: Deep) -> Result<(), Refused>
    ensures { MatchResult result (λ _. (views.parts parts.new ≡ views.added (views.parts parts.old) (views.deep next)) × (parts.new.depth ≡ max parts.old.depth next.depth)) (λ e. e ≡ refusals.NoMemory) }
{
    parts.items.push(next.expr)?;
    parts.depth = parts.depth.max(next.depth);
    Ok(())
}

/// A call with its arguments.
#[inline(never)]
pub(crate) fn set_call(left: &mut Deep, function: PgText, list: Parts)
    requires { list.depth < 255 }
    ensures { (views.deep left.new ≡ levels.call_value function (views.parts list)) × (left.new.depth ≡ list.depth + 1) }
{
    *left = Deep {
        expr: Expr::Call(function, ExprList::from_vec(list.items)),
        depth: list.depth + 1,
    };
}

/// A chain of parts; one part is itself.
fn node_of(joint: Joint, mut parts: Parts) -> Deep
    requires { (parts.depth < 255) ⊎ (length parts.items.items ≡ 1) }
    ensures value { views.deep result ≡ views.joint_value joint (views.parts parts) }
    ensures within { (n : ℕ) → views.Fits n parts → result.depth ≤ n }
{
    if parts.items.len() == 1 {
        if let Some(expr) = parts.items.pop() {
            return Deep {
                expr,
                depth: parts.depth,
            };
        }
    }
    let list = ExprList::from_vec(parts.items);
    Deep {
        expr: match joint {
            Joint::Or => Expr::Or(list),
            Joint::And => Expr::And(list),
        },
        depth: parts.depth + 1,
    }
}

/// A chain of parts in the place of the first.
#[inline(never)]
pub(crate) fn set_node(joint: Joint, left: &mut Deep, parts: Parts)
    requires { (parts.depth < 255) ⊎ (length parts.items.items ≡ 1) }
    ensures value { views.deep left.new ≡ views.joint_value joint (views.parts parts) }
    ensures within { (n : ℕ) → views.Fits n parts → left.new.depth ≤ n }
{
    *left = node_of(joint, parts);
}
