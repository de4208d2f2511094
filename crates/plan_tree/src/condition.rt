ghost use Rattle.std.specs.Prelude.{◌≡◌, IfOk, map};
ghost use Rattle.cond_logic.specs.Trees.{cond_tree};
ghost use Rattle.plan_tree.specs.Conditions as conditions;

use cond_logic::{Cond, CondList, bind_params};
use pg_values::NoMemory;
use std::alloc::Global;

/// A copy of the condition.
pub fn copy_cond(alloc: Global, cond: &Cond) -> Result<Cond, NoMemory>
    ensures { IfOk result (λ c. cond_tree c ≡ cond_tree cond.now) }
{
    bind_params(alloc, cond, &[])
}

/// Copies of these.
pub(crate) fn copy_conds(alloc: Global, conds: &[Cond]) -> Result<Vec<Cond>, NoMemory>
    ensures { IfOk result (λ cs. map cond_tree cs.items ≡ map cond_tree conds.now) }
{
    let mut all = Vec::new(alloc);
    for cond in conds {
        all.push(copy_cond(alloc, cond)?)?;
    }
    Ok(all)
}

/// The condition that all of these hold.
pub fn all_hold(alloc: Global, conds: &[Cond]) -> Result<Cond, NoMemory>
    ensures { IfOk result (λ c. cond_tree c ≡ conditions.all_hold (map cond_tree conds.now)) }
{
    let all = copy_conds(alloc, conds)?;
    Ok(Cond::And(CondList::from_vec(all)))
}
