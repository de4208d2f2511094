use grammar::Refused;
use pg_values::{NoMemory, PgText, Which};
use std::alloc::{AllocError, AllocFailed};

/// Why a text is no script: the first of these that holds, and of one of them the first place in
/// the text.
#[derive(Debug, Drop)]
pub enum SpecFault {
    /// The text stops in this line to be the beginning of any script.
    BadToken { line: usize },
    Limit { which: Which },
    /// Two sessions, or two steps, are called so.
    DoubleName { name: PgText },
    NoPermutation,
    /// A permutation uses a step that is not there.
    UnknownStep { name: PgText },
    /// A marker names no step of another session, or is `notices`.
    UnknownMarker { name: PgText },
    NoMemory,
}

impl From<AllocError> for SpecFault {
    ghost use Rattle.std.specs.Prelude.{◌≡◌};
    ghost use Rattle.spec_reader.specs.declared.fault.SpecFault.TheVariants.{NoMemory};

    ghost from_gives = { λ _ e. e ≡ NoMemory };

    fn from(_: AllocError) -> Self {
        SpecFault::NoMemory
    }
}

impl<T: Drop> From<AllocFailed<T>> for SpecFault {
    ghost use Rattle.std.specs.Prelude.{◌≡◌};
    ghost use Rattle.spec_reader.specs.declared.fault.SpecFault.TheVariants.{NoMemory};

    ghost from_gives = { λ _ e. e ≡ NoMemory };

    fn from(_: AllocFailed<T>) -> Self {
        SpecFault::NoMemory
    }
}

impl From<NoMemory> for SpecFault {
    ghost use Rattle.std.specs.Prelude.{◌≡◌};
    ghost use Rattle.spec_reader.specs.declared.fault.SpecFault.TheVariants as faults;

    ghost from_gives = { λ _ e. e ≡ faults.NoMemory };

    fn from(_: NoMemory) -> Self {
        SpecFault::NoMemory
    }
}
