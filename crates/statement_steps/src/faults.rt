ghost use Rattle.std.specs.Prelude.{◌≡◌, IfOk, map};
ghost use Rattle.pg_values.specs.Lists.{listed};
ghost use Rattle.refusals.specs.Refusals as refusals;
ghost use Rattle.statement_steps.specs.Faults as faults;

use crate::Attempt;
use pg_values::{Args, Fault, NoMemory, PgText, SessionList};
use refusals::deadlock;

/// The name of a session by its number.
pub fn session_name(attempt: &Attempt<'_>, session: u32) -> Result<PgText, NoMemory>
    ensures { IfOk result (λ t. t ≡ faults.name_of attempt.now.names.now session) }
{
    match attempt.names.as_slice().get(session as usize) {
        Some(name) => name.copy(attempt.alloc),
        None => PgText::new(attempt.alloc),
    }
}

fn names_of(attempt: &Attempt<'_>, cycle: SessionList) -> Result<Args, NoMemory>
    ensures { IfOk result (λ args. args ≡ map (faults.name_of attempt.now.names.now) (listed cycle)) }
{
    let mut args = Args::new(attempt.alloc);
    for place in 0..65 {
        match cycle.at(place) {
            Some(session) => args.push(session_name(attempt, session)?)?,
            None => return Ok(args),
        }
    }
    Ok(args)
}

/// The deadlock of the sessions of a cycle, by their names.
pub(crate) fn deadlock_of(attempt: &Attempt<'_>, cycle: SessionList) -> Result<Fault, NoMemory>
    ensures { IfOk result (λ f. f ≡ refusals.deadlock (map (faults.name_of attempt.now.names.now) (listed cycle))) }
{
    Ok(deadlock(names_of(attempt, cycle)?))
}
