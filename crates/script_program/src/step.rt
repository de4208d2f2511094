ghost use Rattle.std.specs.Prelude.{◌≡◌, ◌<◌, ◌++◌, [], ◌∷◌, length, OnOk, IfOk, IfSome};
ghost use Rattle.script_program.specs.Steps as spec;

use indexmap::IndexMap;
use pg_values::NoMemory;
use spec_reader::{SessionSpec, StepSpec};
use std::alloc::Global;
use std::marker::Model;

/// A step of a script.
#[derive(Drop)]
pub struct Step<'s> {
    session: usize,
    name: &'s [u8],
    text: &'s [u8],
}

impl<'s> Model for Step<'s> {
    ghost use Rattle.script_program.specs.Steps.{StepView};

    ghost Value = { StepView };

    ghost view = { λ t. record { session = t.session; name = t.name.now; text = t.text.now } };
}

impl<'s> Step<'s> {
    fn new(session: usize, step: &'s StepSpec) -> Self
        ensures { result ≡ spec.step_view session step.now }
    {
        Step {
            session,
            name: step.name.as_bytes(),
            text: step.block.as_bytes(),
        }
    }

    pub fn session(&self) -> usize
        ensures { result ≡ self.now.session }
    {
        self.session
    }

    pub fn name(&self) -> &'s [u8]
        ensures { result.now ≡ self.now.name }
    {
        self.name
    }

    pub fn text(&self) -> &'s [u8]
        ensures { result.now ≡ self.now.text }
    {
        self.text
    }
}

fn push_steps<'s>(
    session: usize,
    owner: &'s SessionSpec,
    out: &mut Vec<Step<'s>>,
) -> Result<(), NoMemory>
    ensures { OnOk result (out.new.items ≡ out.old.items ++ spec.steps_in session owner.now) }
{
    for step in owner.steps.as_slice() {
        out.push(Step::new(session, step))?;
    }
    Ok(())
}

// The steps of all sessions.
fn steps_of<'s>(alloc: Global, sessions: &'s [SessionSpec]) -> Result<Vec<Step<'s>>, NoMemory>
    ensures { IfOk result (λ all. all.items ≡ spec.steps_of sessions.now) }
{
    let mut all = Vec::new(alloc);
    for i in 0..sessions.len() {
        push_steps(i + 1, &sessions[i], &mut all)?;
    }
    Ok(all)
}

// The number of the first step of each name.
fn numbers_of<'s>(alloc: Global, steps: &[Step<'s>]) -> Result<IndexMap<&'s [u8], usize>, NoMemory>
    ensures { IfOk result (λ numbers. spec.AreNumbers numbers.entries steps.now) }
{
    let mut numbers = IndexMap::new(alloc);
    for i in (0..steps.len()).rev() {
        numbers.insert(steps[i].name(), i)?;
    }
    Ok(numbers)
}

/// The steps of a script, seen as their list. A step is found by its name in the time of one look-up.
#[derive(Drop)]
pub struct Steps<'s> {
    steps: Vec<Step<'s>>,
    numbers: IndexMap<&'s [u8], usize>,
}

impl<'s> Model for Steps<'s> {
    ghost use Rattle.std.specs.Prelude.{List};
    ghost use Rattle.script_program.specs.Steps.{StepView, AreNumbers};

    ghost Value = { List StepView };

    ghost view = { λ s. s.steps.items };

    ghost invariant = { λ s. AreNumbers s.numbers.entries s.steps.items };
}

impl<'s> Steps<'s> {
    /// The steps of all sessions.
    pub fn new(alloc: Global, sessions: &'s [SessionSpec]) -> Result<Self, NoMemory>
        ensures { IfOk result (λ all. all ≡ spec.steps_of sessions.now) }
    {
        let steps = steps_of(alloc, sessions)?;
        let numbers = numbers_of(alloc, &steps)?;
        Ok(Steps { steps, numbers })
    }

    /// The step of the number.
    pub fn step(&self, number: usize) -> &Step<'s>
        requires { number < length self.now }
        ensures { result.now ≡ spec.step_at self.now number }
    {
        &self.steps[number]
    }

    /// The number of the step that is called so.
    pub fn number_of(&self, name: &[u8]) -> Option<usize>
        ensures is { result ≡ spec.number_of name.now self.now }
        ensures known { IfSome result (λ k. k < length self.now) }
    {
        self.numbers.get(name).copied()
    }
}
