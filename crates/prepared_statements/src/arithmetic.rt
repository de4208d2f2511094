ghost use Rattle.std.specs.Prelude.{◌≡◌};
ghost use Rattle.prepared_statements.specs.ParameterPlaces as places;

use expression_binder::{Given, is_arithmetic, kind_made};
use pg_values::Kind;
use sql_ast::Operator;

/// The kind that an operand has by itself.
pub(crate) fn own_kind(given: Given) -> Option<Kind>
    ensures { result ≡ places.own_kind given }
{
    match given {
        Given::Of(kind) => Some(kind),
        Given::Quoted => None,
        Given::Nothing => None,
    }
}

fn listed_kind(operator: Operator, kind: Kind) -> Option<Kind>
    ensures { result ≡ places.listed_kind operator kind }
{
    if kind_made(operator, kind, kind).is_some() {
        Some(kind)
    } else {
        None
    }
}

fn arithmetic_kind(operator: Operator, other: Given) -> Option<Kind>
    ensures { result ≡ places.arithmetic_kind operator other }
{
    match other {
        Given::Of(kind) => listed_kind(operator, kind),
        Given::Quoted => None,
        Given::Nothing => None,
    }
}

/// The kind that a string literal has beside an operand.
pub(crate) fn beside(operator: Operator, other: Given) -> Option<Kind>
    ensures { result ≡ places.beside operator other }
{
    if is_arithmetic(operator) {
        arithmetic_kind(operator, other)
    } else {
        own_kind(other)
    }
}
