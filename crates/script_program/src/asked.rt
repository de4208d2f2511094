ghost use Rattle.std.specs.Prelude.{◌≡◌};

use pg_values::NoMemory;
use std::alloc::AllocError;
use thiserror::Error;

/// What is done with a script.
#[derive(Clone, Copy, Debug, PartialEq, Eq)]
pub enum Mode {
    /// The script of the input is run, and the run is printed.
    Run,
    /// The blocks of the script that the grammar refuses are told, and none is run.
    Check,
    /// A script is made from the seed and run, and what came of it is counted.
    Gen,
}

/// What the words of a call ask for.
#[derive(Clone, Copy, Debug)]
pub struct Asked {
    pub mode: Mode,
    /// The day that is handed in, counted from 1970-01-01.
    pub today: Option<i32>,
    /// Each statement on rows tells the leaves that it read.
    pub trail: bool,
    pub seed: u64,
}

/// Why words ask for nothing.
#[derive(Clone, Copy, Debug, PartialEq, Eq, Error)]
pub enum WordsRefused {
    #[error("the words are no call")]
    Usage,
    #[error("no memory was found")]
    NoMemory,
}

impl From<NoMemory> for WordsRefused {
    ghost use Rattle.script_program.specs.declared.asked.WordsRefused.TheVariants as refusals;

    ghost from_gives = { λ _ e. e ≡ refusals.NoMemory };

    fn from(_: NoMemory) -> Self {
        WordsRefused::NoMemory
    }
}

impl From<AllocError> for WordsRefused {
    ghost use Rattle.script_program.specs.declared.asked.WordsRefused.TheVariants as refusals;

    ghost from_gives = { λ _ e. e ≡ refusals.NoMemory };

    fn from(_: AllocError) -> Self {
        WordsRefused::NoMemory
    }
}
