//! Whether a parameter stands in a condition.

ghost use Rattle.std.specs.Prelude.{◌≡◌, map};
ghost use Rattle.std.specs.List.{list_any};
ghost use Rattle.cond_logic.specs.Trees.{cond_tree, listed};
ghost use Rattle.plan_tree.specs.Parameters as spec;
ghost use Rattle.plan_tree.specs.Parameters.{have_parameter, is_parameter};

use cond_logic::{Cond, Operand};

fn is_open(operand: &Operand) -> bool
    ensures { result ≡ is_parameter operand.now }
{
    match operand {
        Operand::Column(_) => false,
        Operand::Lit(_) => false,
        Operand::Param(_) => true,
    }
}

#[cycle(opening)]
fn some_has_parameter(conds: &[Cond]) -> bool
    ensures { result ≡ have_parameter (listed (map cond_tree conds.now)) }
{
    for cond in conds {
        if has_parameter(cond) {
            return true;
        }
    }
    false
}

/// Whether a parameter stands in the condition.
#[cycle(opening)]
pub(crate) fn has_parameter(cond: &Cond) -> bool
    ensures { result ≡ spec.has_parameter (cond_tree cond.now) }
{
    match cond {
        Cond::And(list) => some_has_parameter(list.as_slice()),
        Cond::Or(list) => some_has_parameter(list.as_slice()),
        Cond::Not(inner) => has_parameter(inner),
        Cond::Compare(_, x, y) => is_open(x) || is_open(y),
        Cond::IsNull(x) => is_open(x),
        Cond::Const(_) => false,
    }
}

/// Whether a parameter stands in one of them.
pub(crate) fn has_parameters(conds: &[Cond]) -> bool
    ensures { result ≡ list_any spec.has_parameter (map cond_tree conds.now) }
{
    for cond in conds {
        if has_parameter(cond) {
            return true;
        }
    }
    false
}
