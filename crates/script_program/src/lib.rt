//! The program over any database: from words and the bytes of an input to what two outputs take.
//!
//! `run_program` judges the words, reads the input whole and reads the script. By what the words ask for
//! it runs the script over fresh databases, or reads its blocks alone and tells those that are refused; or
//! it reads no input, and runs the script of a seed and counts what comes of it.
//! The first cause that is found decides the answer, and a failed write ends the call in its place. Of the
//! database it knows that one is opened for a script, and why a text is no block (`Opener`).
//!
//! What it promises is one relation: `Answers` in `specs/Program.antt` says which outcome a call has by
//! its words and by what it read, where an outcome is the answer with the bytes on `out` and on `err`.
//! What words ask for stands in `specs/Work.antt`. What comes of a text stands apart: the run of a script
//! and how it ends in `specs/Texts.antt`, what is told of its blocks in `specs/Checks.antt`, and what is
//! counted of the script of a seed in `specs/Seeded.antt`. `Ends` in
//! `specs/Outcomes.antt` says what was written where a write failed or memory ran out before.
//!
//! The words behind the program's name are those of one simple command with four options, which `clap`
//! reads: `--mode`, `--today` and `--seed` take a value each, as two words or with `=`, and `--trail` takes
//! none. None of them may be given twice, and nothing else may stand there. What `clap` makes of a list of
//! words is a function that it states itself; `specs/CommandLine.antt` has the command, and what is read
//! from its matches (`read_words`).
//!
//! A permutation of a script names steps. Before them stand the setups, behind them the teardowns:
//! first of the control session, then of each session, at the end the other way round
//! (`specs/Tasks.antt`). Steps are known by their numbers over all sessions, so that markers are
//! compared by numbers (`specs/Steps.antt`). `run_script` runs a script over a database.
//!
//! The script of a seed (`gen_script`) puts a load on the program. It has one table of two columns with 32
//! partitions and 512 rows, and 8 sessions with 64 steps each, which are run in one permutation. What the rows
//! and the steps are, and in which order the steps come, is drawn: numbers come from a linear congruential
//! generator of 64 bits, whose first state is the seed. So each seed has one script. A text with numbers that
//! are drawn is seen as a function of the state, which gives the text and the state behind it (`Drawn` in
//! `specs/Draws.antt`). Such texts stand one behind another, and the whole script is one of them
//! (`specs/LoadScript.antt`).
#![tactic(auto)]

mod asked;
mod check;
mod command;
mod ended;
mod input;
mod laws;
mod line;
mod load;
mod load_lines;
mod load_permutation;
mod load_statements;
mod opener;
mod output;
mod permutations;
mod program;
mod script_run;
mod seeded;
mod step;
mod tasks;
mod whole;
mod words;
mod work;

pub use asked::{Asked, Mode, WordsRefused};
pub use ended::Ended;
pub use input::INPUT_LIMIT;
pub use laws::{
    calls_have_one_outcome, good_outcomes_are_outcomes, outcomes_are_no_faults, outcomes_begin_so,
    scripts_are_checked, scripts_are_run, seeds_are_counted,
};
pub use load_lines::gen_script;
pub use opener::Opener;
pub use permutations::permutations_of;
pub use program::run_program;
pub use whole::run_script;
pub use words::read_words;
pub use work::Work;
