ghost use Rattle.std.specs.Prelude.{◌≡◌};
ghost use Rattle.statement_steps.specs.Steps as steps;

use crate::{Rest, Stop};

/// A statement that stands in the middle of its run goes on from there, whatever it has to wait for.
pub fn stopped_on(stop: Stop, rest: Option<Rest>) -> Stop
    ensures { result ≡ steps.stopped_on stop rest }
{
    match stop {
        Stop::Waits(_) => Stop::Waits(rest),
        Stop::Refused(fault) => Stop::Refused(fault),
        Stop::NoMemory => Stop::NoMemory,
    }
}
