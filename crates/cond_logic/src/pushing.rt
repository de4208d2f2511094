ghost use Rattle.std.specs.Prelude.{◌≡◌, IfOk};
ghost use Rattle.cond_logic.specs.Trees.{cond_tree, cond_trees};
ghost use Rattle.cond_logic.specs.Trees as trees;
ghost use Rattle.cond_logic.specs.Rewriting.{opposite_op, pushed_if, all_pushed_if, pushed};

use crate::{CompareOp, Cond, CondList, Operand};
use pg_values::NoMemory;
use std::alloc::Global;

impl CompareOp {
    /// The operator that passes exactly where this one fails.
    pub fn opposite(self) -> Self
        ensures { result ≡ opposite_op self }
    {
        match self {
            CompareOp::Eq => CompareOp::Ne,
            CompareOp::Ne => CompareOp::Eq,
            CompareOp::Lt => CompareOp::Ge,
            CompareOp::Le => CompareOp::Gt,
            CompareOp::Gt => CompareOp::Le,
            CompareOp::Ge => CompareOp::Lt,
        }
    }
}

#[cycle(pushing)]
fn push_list(alloc: Global, list: CondList, negated: bool) -> Result<CondList, NoMemory>
    ensures { IfOk result (λ p. cond_trees p ≡ all_pushed_if negated (cond_trees list)) }
{
    let mut pushed = Vec::new(alloc);
    for part in list.conds {
        pushed.push(push(alloc, part, negated)?)?;
    }
    Ok(CondList::from_vec(pushed))
}

fn null_test(alloc: Global, x: Operand, negated: bool) -> Result<Cond, NoMemory>
    ensures { IfOk result (λ p. cond_tree p ≡ pushed_if negated (trees.null_test x)) }
{
    if negated {
        let test = Box::new(alloc, Cond::IsNull(x))?;
        Ok(Cond::Not(test))
    } else {
        Ok(Cond::IsNull(x))
    }
}

// The condition, or its negation, with NOT over IS NULL alone.
#[cycle(pushing)]
fn push(alloc: Global, cond: Cond, negated: bool) -> Result<Cond, NoMemory>
    ensures { IfOk result (λ p. cond_tree p ≡ pushed_if negated (cond_tree cond)) }
{
    match cond {
        Cond::And(list) => {
            let list = push_list(alloc, list, negated)?;
            if negated {
                Ok(Cond::Or(list))
            } else {
                Ok(Cond::And(list))
            }
        }
        Cond::Or(list) => {
            let list = push_list(alloc, list, negated)?;
            if negated {
                Ok(Cond::And(list))
            } else {
                Ok(Cond::Or(list))
            }
        }
        Cond::Not(inner) => push(alloc, Box::into_inner(inner), !negated),
        Cond::Compare(op, x, y) => {
            if negated {
                Ok(Cond::Compare(op.opposite(), x, y))
            } else {
                Ok(Cond::Compare(op, x, y))
            }
        }
        Cond::IsNull(x) => null_test(alloc, x, negated),
        Cond::Const(known) => {
            if negated {
                Ok(Cond::Const(known.opposite()))
            } else {
                Ok(Cond::Const(known))
            }
        }
    }
}

/// The same condition with NOT over IS NULL alone. It has the same truth for every tuple
/// (`pushing_keeps_truth`). Fails only for want of memory.
pub fn push_not(alloc: Global, cond: Cond) -> Result<Cond, NoMemory>
    ensures { IfOk result (λ p. cond_tree p ≡ pushed (cond_tree cond)) }
{
    push(alloc, cond, false)
}
