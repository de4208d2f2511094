ghost use Rattle.std.specs.Prelude.{◌≡◌, IfOk, map};
ghost use Rattle.cond_logic.specs.Trees.{cond_tree, listed};
ghost use Rattle.cond_logic.specs.declared.cond.Operand.TheVariants as operands;
ghost use Rattle.cond_logic.specs.Rewriting.{given_or, operand_with, with_args, all_with_args};

use crate::{Cond, CondList, Operand};
use pg_values::{NoMemory, Value, copy_value};
use std::alloc::Global;

fn argument(alloc: Global, args: &[Value], place: usize) -> Result<Operand, NoMemory>
    ensures { IfOk result (λ x. x ≡ operand_with args.now (operands.Param place)) }
{
    match args.get(place) {
        Some(value) => Ok(Operand::Lit(copy_value(alloc, value)?)),
        None => Ok(Operand::Param(place)),
    }
}

fn bind_operand(alloc: Global, operand: &Operand, args: &[Value]) -> Result<Operand, NoMemory>
    ensures { IfOk result (λ x. x ≡ operand_with args.now operand.now) }
{
    match operand {
        Operand::Column(column) => Ok(Operand::Column(*column)),
        Operand::Lit(value) => Ok(Operand::Lit(copy_value(alloc, value)?)),
        Operand::Param(place) => argument(alloc, args, *place),
    }
}

#[cycle(binding)]
fn bind_all(alloc: Global, conds: &[Cond], args: &[Value]) -> Result<Vec<Cond>, NoMemory>
    ensures { IfOk result (λ bound. listed (map cond_tree bound.items) ≡ all_with_args args.now (listed (map cond_tree conds.now))) }
{
    let mut bound = Vec::new(alloc);
    for part in conds {
        bound.push(bind_params(alloc, part, args)?)?;
    }
    Ok(bound)
}

/// A copy of the condition with each argument that is given in its parameter's places. It has the same
/// truth for every tuple (`binding_keeps_truth`). Fails only for want of memory.
#[cycle(binding)]
pub fn bind_params(alloc: Global, cond: &Cond, args: &[Value]) -> Result<Cond, NoMemory>
    ensures { IfOk result (λ bound. cond_tree bound ≡ with_args args.now (cond_tree cond.now)) }
{
    match cond {
        Cond::And(list) => Ok(Cond::And(CondList::from_vec(bind_all(alloc, &list.conds, args)?))),
        Cond::Or(list) => Ok(Cond::Or(CondList::from_vec(bind_all(alloc, &list.conds, args)?))),
        Cond::Not(inner) => {
            let bound = bind_params(alloc, inner, args)?;
            Ok(Cond::Not(Box::new(alloc, bound)?))
        }
        Cond::Compare(op, x, y) => {
            let x = bind_operand(alloc, x, args)?;
            let y = bind_operand(alloc, y, args)?;
            Ok(Cond::Compare(*op, x, y))
        }
        Cond::IsNull(x) => Ok(Cond::IsNull(bind_operand(alloc, x, args)?)),
        Cond::Const(known) => Ok(Cond::Const(*known)),
    }
}
