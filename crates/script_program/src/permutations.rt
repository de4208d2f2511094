ghost use Rattle.std.specs.Prelude.{◌≡◌, ◌+◌, ◌++◌, IfOk, OnOk, All, length};
ghost use Rattle.schedule.specs.Tasks.{AreKnown};
ghost use Rattle.script_program.specs.Steps as known_steps;
ghost use Rattle.script_program.specs.Tasks as spec;

use crate::step::Steps;
use crate::tasks::{
    push_control_setups, push_plain_if, push_rollbacks, push_setups, push_teardowns, push_uses,
};
use pg_values::NoMemory;
use schedule::{BlockKind, Permutation, Task};
use spec_reader::{Spec, StepUse};
use std::alloc::Global;

fn push_before<'s>(
    alloc: Global,
    script: &'s Spec,
    out: &mut Permutation<'s>,
) -> Result<(), NoMemory>
    ensures { OnOk result (out.new ≡ out.old ++ spec.before_steps script.now) }
{
    push_control_setups(alloc, script.setups.as_slice(), out)?;
    push_setups(alloc, script.sessions.as_slice(), out)
}

fn push_behind<'s>(
    alloc: Global,
    script: &'s Spec,
    out: &mut Permutation<'s>,
) -> Result<(), NoMemory>
    ensures { OnOk result (out.new ≡ out.old ++ spec.behind_steps script.now) }
{
    let sessions = script.sessions.as_slice();
    out.push(Task::Settle)?;
    push_teardowns(alloc, sessions, out)?;
    push_rollbacks(sessions.len() + 1, out)?;
    push_plain_if(
        alloc,
        BlockKind::ControlTeardown,
        0,
        b"control",
        &script.teardown,
        out,
    )
}

fn permutation_of<'s>(
    alloc: Global,
    script: &'s Spec,
    steps: &Steps<'s>,
    uses: &'s [StepUse],
) -> Result<Permutation<'s>, NoMemory>
    requires { steps.now ≡ known_steps.steps_of script.now.sessions }
    ensures { IfOk result (λ tasks. tasks ≡ spec.tasks_of script.now uses.now) }
{
    let mut tasks = Permutation::new(alloc);
    push_before(alloc, script, &mut tasks)?;
    push_uses(alloc, steps, uses, &mut tasks)?;
    push_behind(alloc, script, &mut tasks)?;
    Ok(tasks)
}

fn all_permutations<'s>(alloc: Global, script: &'s Spec) -> Result<Vec<Permutation<'s>>, NoMemory>
    ensures { IfOk result (λ all. all.items ≡ spec.permutations_of script.now) }
{
    let steps = Steps::new(alloc, script.sessions.as_slice())?;
    let mut all = Vec::new(alloc);
    for uses in script.permutations.as_slice() {
        all.push(permutation_of(alloc, script, &steps, uses.as_slice())?)?;
    }
    Ok(all)
}

/// The permutations of a script. All their tasks are those of its sessions.
pub fn permutations_of<'s>(
    alloc: Global,
    script: &'s Spec,
) -> Result<Vec<Permutation<'s>>, NoMemory>
    ensures tasks { IfOk result (λ all. all.items ≡ spec.permutations_of script.now) }
    ensures known { IfOk result (λ all. All (AreKnown (length script.now.sessions + 1)) all.items) }
{
    let all = all_permutations(alloc, script)?;
    Ok(all)
}
