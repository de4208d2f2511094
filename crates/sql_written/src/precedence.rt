ghost use Rattle.std.specs.Prelude.{◌≡◌};
ghost use Rattle.sql_ast.specs.Expressions.{tree};
ghost use Rattle.sql_written.specs.Precedence as levels;

use sql_ast::{Expr, Operator};

// How tightly the levels bind, from the loosest.
pub(crate) const DISJUNCTION: u8 = 0;

pub(crate) const CONJUNCTION: u8 = 1;

pub(crate) const NEGATION: u8 = 2;

pub(crate) const NULLITY: u8 = 3;

const COMPARISON: u8 = 4;

const TEST: u8 = 5;

pub(crate) const SUM: u8 = 6;

const PRODUCT: u8 = 7;

pub(crate) const UNARY: u8 = 8;

fn rank_of_operator(operator: Operator) -> u8
    ensures { result ≡ levels.rank (levels.level_of_operator operator) }
{
    match operator {
        Operator::Add | Operator::Subtract => SUM,
        Operator::Multiply | Operator::Divide | Operator::Remainder => PRODUCT,
        _ => COMPARISON,
    }
}

/// How tightly the operator of an expression binds its operands.
pub(crate) fn rank_of(e: &Expr) -> u8
    ensures { result ≡ levels.rank (levels.level_of (tree e.now)) }
{
    match e {
        Expr::Leaf(_) | Expr::Call(_, _) | Expr::CallOfAll(_) | Expr::Negated(_) => UNARY,
        Expr::Binary(operator, _, _) => rank_of_operator(*operator),
        Expr::In(_, _, _) | Expr::Between(_, _, _, _) => TEST,
        Expr::IsNull(_, _) => NULLITY,
        Expr::Not(_) => NEGATION,
        Expr::And(_) => CONJUNCTION,
        Expr::Or(_) => DISJUNCTION,
    }
}

/// How tightly an expression must bind that stands on the left of an operator without parentheses.
pub(crate) fn left_rank(operator: Operator) -> u8
    ensures { result ≡ levels.rank (levels.left_place operator) }
{
    match operator {
        Operator::Add | Operator::Subtract => SUM,
        Operator::Multiply | Operator::Divide | Operator::Remainder => PRODUCT,
        _ => TEST,
    }
}

/// The same on its right.
pub(crate) fn right_rank(operator: Operator) -> u8
    ensures { result ≡ levels.rank (levels.right_place operator) }
{
    match operator {
        Operator::Add | Operator::Subtract => PRODUCT,
        Operator::Multiply | Operator::Divide | Operator::Remainder => UNARY,
        _ => TEST,
    }
}
