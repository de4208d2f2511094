ghost use Rattle.std.specs.Prelude.{◌≡◌};
ghost use Rattle.statement_steps.specs.Faults.{stop_of};
ghost use Rattle.statement_steps.specs.declared.stop.Stop.TheVariants as stops;

use crate::Rest;
use pg_values::{Fault, NoMemory, Refusal};
use std::alloc::AllocFailed;

/// Why a statement does not go on.
#[derive(Drop)]
pub enum Stop {
    /// It has to wait. When its wait is over it goes on where it stood, or else begins anew.
    Waits(Option<Rest>),
    Refused(Fault),
    NoMemory,
}

impl From<NoMemory> for Stop {
    ghost from_gives = { λ _ s. s ≡ stops.NoMemory };

    fn from(_: NoMemory) -> Self {
        Stop::NoMemory
    }
}

impl<T: Drop> From<AllocFailed<T>> for Stop {
    ghost from_gives = { λ _ s. s ≡ stops.NoMemory };

    fn from(_: AllocFailed<T>) -> Self {
        Stop::NoMemory
    }
}

impl From<Refusal> for Stop {
    ghost from_gives = { λ r s. s ≡ stop_of r };

    fn from(refusal: Refusal) -> Self {
        match refusal {
            Refusal::Sql(fault) => Stop::Refused(fault),
            Refusal::NoMemory => Stop::NoMemory,
        }
    }
}
