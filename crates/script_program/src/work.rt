ghost use Rattle.std.specs.Prelude.{◌≡◌, map, string_bytes};
ghost use Rattle.script_program.specs.CommandLine.{IsRead};
ghost use Rattle.script_program.specs.Work as spec;

use crate::{Asked, Mode, WordsRefused, read_words};
use std::alloc::Global;

/// What a call does.
#[derive(Clone, Copy, Debug, PartialEq, Eq)]
pub enum Work {
    /// The script of its input is run, and the run is printed, with the trails of its statements or without them.
    Run { trail: bool },
    /// Its blocks are read, and those that are refused are told.
    Check,
    /// The script of a seed is run, and the run is counted. No input is read.
    Load { seed: u64 },
}

fn work_of(asked: Asked) -> Work
    ensures { result ≡ spec.work_of asked }
{
    match asked.mode {
        Mode::Run => Work::Run { trail: asked.trail },
        Mode::Check => Work::Check,
        Mode::Gen => Work::Load { seed: asked.seed },
    }
}

/// What the words behind the program's name ask to do, or Usage where that is nothing.
pub(crate) fn read_work(alloc: Global, words: &[String]) -> Result<Work, WordsRefused>
    ensures { IsRead (spec.work_by (map string_bytes words.now)) result }
{
    match read_words(alloc, words) {
        Ok(asked) => Ok(work_of(asked)),
        Err(refused) => Err(refused),
    }
}

/// Whether the input is read for it.
pub(crate) fn reads_input(work: Work) -> bool
    ensures { result ≡ spec.reads_input work }
{
    match work {
        Work::Run { .. } | Work::Check => true,
        Work::Load { .. } => false,
    }
}
