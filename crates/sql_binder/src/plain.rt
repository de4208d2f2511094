//! Values that are plain: most values of an INSERT are a number, a string or null, and need no walk.

ghost use Rattle.std.specs.Prelude.{◌≡◌, ◌++◌, [], true, pos, Ok, IfSome};
ghost use Rattle.pg_values.specs.declared.value.Value.TheVariants.{Int4 as VInt4};
ghost use Rattle.sql_ast.specs.Expressions.{tree};
ghost use Rattle.expression_binder.specs.Constants as constants;
ghost use Rattle.expression_binder.specs.Kinds as kinds_spec;
ghost use Rattle.expression_binder.specs.Operands.{operand_faults, typed};
ghost use Rattle.expression_binder.specs.Scopes.{Scope};
ghost use Rattle.sql_binder.specs.Inserts as inserts;

use pg_values::{Kind, Value};
use sql_ast::{Expr, Leaf};

/// Whether the value is plain, so that it has no fault of names and kinds in a column of the kind.
#[tactic(auto, using(crate::proofs::WrittenOut::integer_fits, crate::proofs::WrittenOut::bigint_fits))]
pub(crate) fn is_plain(kind: Kind, e: &Expr) -> bool
    ensures { result ≡ true → (s : Scope) → operand_faults s (tree e.now) ++ kinds_spec.assigned_faults kind (typed s (tree e.now)).given ≡ [] }
{
    match (kind, e) {
        (Kind::Int4, Expr::Leaf(Leaf::Number(_))) => true,
        (Kind::Int8, Expr::Leaf(Leaf::Number(_))) => true,
        (_, Expr::Leaf(Leaf::Text(_))) => true,
        (_, Expr::Leaf(Leaf::Null)) => true,
        _ => false,
    }
}

fn integer(n: u64) -> Option<Value>
    ensures { IfSome result (λ v. (v ≡ VInt4 (pos n)) × (constants.number_value n ≡ Ok v)) }
{
    match i32::try_from(n) {
        Ok(n) => Some(Value::Int4(n)),
        Err(_) => None,
    }
}

/// What a column of the kind gets, where that is an integer as it is written, or null.
#[tactic(auto, using(crate::proofs::WrittenOut::integer_stored))]
pub(crate) fn plain_value(kind: Kind, e: &Expr) -> Option<Value>
    ensures { IfSome result (λ v. (s : Scope) → inserts.stored_value s kind (tree e.now) ≡ Ok v) }
{
    match (kind, e) {
        (Kind::Int4, Expr::Leaf(Leaf::Number(n))) => integer(*n),
        (_, Expr::Leaf(Leaf::Null)) => Some(Value::Null),
        _ => None,
    }
}
