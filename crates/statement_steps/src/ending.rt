ghost use Rattle.std.specs.Prelude.{◌≡◌};
ghost use Rattle.statement_steps.specs.Ended as spec;

use crate::{RestOfDetach, Stop};

/// How a run of a statement ends that needs not wait.
#[derive(Clone, Copy, Debug)]
pub enum Ending {
    /// It is done.
    Done,
    /// What it did so far is to be committed, and it goes on there in another transaction.
    Commits(RestOfDetach),
}

/// It is done, unless it stops.
pub fn ended(done: Result<(), Stop>) -> Result<Ending, Stop>
    ensures { result ≡ spec.ended done }
{
    done?;
    Ok(Ending::Done)
}
