ghost use Rattle.std.specs.Prelude.{◌≡◌, map};
ghost use Rattle.sql_ast.specs.Expressions.{tree, listed};
ghost use Rattle.prepared_statements.specs.ParameterPlaces as places;

use crate::arithmetic::own_kind;
use expression_binder::{Given, Names, given_made, typed_of};
use pg_values::Kind;
use sql_ast::{Expr, Leaf, Operator};

fn param_given(givens: &[Given], n: u64) -> Given
    ensures { result ≡ places.param_given givens.now n }
{
    if n == 0 {
        return Given::Nothing;
    }
    match usize::try_from(n - 1) {
        Ok(place) => match givens.get(place) {
            Some(given) => *given,
            None => Given::Nothing,
        },
        Err(_) => Given::Nothing,
    }
}

/// The kind that an operand has before its place is looked at.
pub(crate) fn given_of(names: &Names<'_>, givens: &[Given], e: &Expr) -> Given
    ensures { result ≡ places.given names.now givens.now (tree e.now) }
{
    match e {
        Expr::Leaf(leaf) => match leaf {
            Leaf::Parameter(n) => param_given(givens, *n),
            _ => typed_of(names, e).given,
        },
        Expr::Negated(x) => given_made(
            Operator::Subtract,
            Given::Of(Kind::Int4),
            given_of(names, givens, x),
        ),
        Expr::Binary(operator, x, y) => given_made(
            *operator,
            given_of(names, givens, x),
            given_of(names, givens, y),
        ),
        Expr::Call(_, _) => typed_of(names, e).given,
        Expr::CallOfAll(_) => Given::Nothing,
        Expr::In(_, _, _) => Given::Nothing,
        Expr::Between(_, _, _, _) => Given::Nothing,
        Expr::IsNull(_, _) => Given::Nothing,
        Expr::Not(_) => Given::Nothing,
        Expr::And(_) => Given::Nothing,
        Expr::Or(_) => Given::Nothing,
    }
}

/// The first of the kinds that the operands have by themselves.
pub(crate) fn kind_of_any(names: &Names<'_>, givens: &[Given], list: &[Expr]) -> Option<Kind>
    ensures { result ≡ places.kind_of_any names.now givens.now (listed (map tree list.now)) }
{
    for e in list {
        if let Some(kind) = own_kind(given_of(names, givens, e)) {
            return Some(kind);
        }
    }
    None
}
