use pg_values::{Fault, NoMemory};
use thiserror::Error;

/// How a run ended.
#[derive(Debug, Drop)]
pub enum RunEnd {
    /// All permutations were run.
    All,
    /// A setup of the session failed; 0 is the control session.
    SetupFailed { session: usize, fault: Fault },
    /// The teardown of the control session failed.
    TeardownFailed { fault: Fault },
}

/// Why a run was not written to its end.
#[derive(Clone, Copy, Debug, PartialEq, Eq, Error)]
pub enum RunRefused {
    #[error("a write failed")]
    Write,
    #[error("no memory was found")]
    NoMemory,
}

impl From<NoMemory> for RunRefused {
    ghost use Rattle.std.specs.Prelude.{◌≡◌};
    ghost use Rattle.schedule.specs.declared.run_end.RunRefused.TheVariants as refusals;

    ghost from_gives = { λ _ e. e ≡ refusals.NoMemory };

    fn from(_: NoMemory) -> Self {
        RunRefused::NoMemory
    }
}
