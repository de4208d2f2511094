ghost use Rattle.std.specs.Prelude.{◌≡◌, map};
ghost use Rattle.std.specs.Str.{bytes_eq};
ghost use Rattle.sql_ast.specs.Expressions.{tree, listed};
ghost use Rattle.prepared_statements.specs.Firsts.{noted};
ghost use Rattle.prepared_statements.specs.ParameterPlaces as places;

use crate::arithmetic::{beside, own_kind};
use crate::first_kinds::FirstKinds;
use crate::givens::{given_of, kind_of_any};
use expression_binder::{Given, Names};
use pg_values::Kind;
use sql_ast::{Expr, Leaf, Operator};

/// The first kind, else the second one.
pub(crate) fn either(first: Option<Kind>, second: Option<Kind>) -> Option<Kind>
    ensures { result ≡ places.either first second }
{
    match first {
        None => second,
        Some(kind) => Some(kind),
    }
}

#[tactic(auto, using(crate::proofs::Firsts::noted_none))]
fn note_leaf(firsts: &mut FirstKinds, kind: Kind, leaf: &Leaf)
    ensures { firsts.new ≡ noted firsts.old (places.leaf_places kind leaf.now) }
{
    match leaf {
        Leaf::Parameter(n) => firsts.note(*n, kind),
        _ => (),
    }
}

/// Notes the kind, where a parameter itself stands there.
#[tactic(auto, using(crate::proofs::Firsts::noted_none))]
pub(crate) fn note_at(firsts: &mut FirstKinds, kind: Option<Kind>, e: &Expr)
    ensures { firsts.new ≡ noted firsts.old (places.at kind (tree e.now)) }
{
    match kind {
        None => (),
        Some(kind) => match e {
            Expr::Leaf(leaf) => note_leaf(firsts, kind, leaf),
            Expr::Call(_, _) => (),
            Expr::CallOfAll(_) => (),
            Expr::Negated(_) => (),
            Expr::Binary(_, _, _) => (),
            Expr::In(_, _, _) => (),
            Expr::Between(_, _, _, _) => (),
            Expr::IsNull(_, _) => (),
            Expr::Not(_) => (),
            Expr::And(_) => (),
            Expr::Or(_) => (),
        },
    }
}

fn is_word(name: &[u8], word: &[u8]) -> bool
    ensures { result ≡ bytes_eq name.now word.now }
{
    name == word
}

fn argument_kind(function: &[u8]) -> Option<Kind>
    ensures { result ≡ places.argument_kind function.now }
{
    if is_word(function, b"pg_cancel_backend") {
        Some(Kind::Int4)
    } else {
        None
    }
}

/// Notes what the places in an operand give, which stands at a place of the kind.
#[cycle(place)]
#[tactic(auto, using(crate::proofs::Firsts::noted_both))]
pub(crate) fn note_part(
    firsts: &mut FirstKinds,
    names: &Names<'_>,
    givens: &[Given],
    kind: Option<Kind>,
    e: &Expr,
)
    ensures { firsts.new ≡ noted firsts.old (places.part names.now givens.now kind (tree e.now)) }
{
    note_at(firsts, kind, e);
    note_in(firsts, names, givens, e);
}

/// The same of a list of operands, each of which stands at a place of the kind.
#[cycle(place)]
pub(crate) fn note_parts(
    firsts: &mut FirstKinds,
    names: &Names<'_>,
    givens: &[Given],
    kind: Option<Kind>,
    parts: &[Expr],
)
    ensures { firsts.new ≡ noted firsts.old (places.part_places names.now givens.now kind (listed (map tree parts.now))) }
{
    for part in parts {
        note_part(firsts, names, givens, kind, part);
    }
}

/// Notes what the places in an expression give.
#[cycle(place)]
#[tactic(auto, using(crate::proofs::Firsts::noted_none))]
pub(crate) fn note_in(firsts: &mut FirstKinds, names: &Names<'_>, givens: &[Given], e: &Expr)
    ensures { firsts.new ≡ noted firsts.old (places.places names.now givens.now (tree e.now)) }
{
    match e {
        Expr::Leaf(_) => (),
        Expr::Call(function, arguments) => {
            let kind = argument_kind(function.as_bytes());
            note_parts(firsts, names, givens, kind, arguments.as_slice());
        }
        Expr::CallOfAll(_) => (),
        Expr::Negated(x) => {
            let kind = beside(Operator::Subtract, Given::Of(Kind::Int4));
            note_part(firsts, names, givens, kind, x);
        }
        Expr::Binary(operator, x, y) => {
            let left = beside(*operator, given_of(names, givens, y));
            let right = beside(*operator, given_of(names, givens, x));
            note_part(firsts, names, givens, left, x);
            note_part(firsts, names, givens, right, y);
        }
        Expr::In(_, x, list) => {
            let left = kind_of_any(names, givens, list.as_slice());
            let right = own_kind(given_of(names, givens, x));
            note_part(firsts, names, givens, left, x);
            note_parts(firsts, names, givens, right, list.as_slice());
        }
        Expr::Between(_, x, from, to) => {
            let ends = either(
                own_kind(given_of(names, givens, from)),
                own_kind(given_of(names, givens, to)),
            );
            let own = own_kind(given_of(names, givens, x));
            note_part(firsts, names, givens, ends, x);
            note_part(firsts, names, givens, own, from);
            note_part(firsts, names, givens, own, to);
        }
        Expr::IsNull(_, x) => note_in(firsts, names, givens, x),
        Expr::Not(x) => note_in(firsts, names, givens, x),
        Expr::And(list) => note_parts(firsts, names, givens, None, list.as_slice()),
        Expr::Or(list) => note_parts(firsts, names, givens, None, list.as_slice()),
    }
}
