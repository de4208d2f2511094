ghost use Rattle.std.specs.Prelude.{◌≡◌, ℕ, Bool, true, List, Some, map, string_bytes};
ghost use Rattle.spec_reader.specs.declared.spec.Spec.{Spec};
ghost use Rattle.script_program.specs.Lines.{usage_line};
ghost use Rattle.script_program.specs.Outcomes.{Ends, IsTold, refusal};
ghost use Rattle.script_program.specs.Program.{Calls, WorkBegins, WorkEnds};
ghost use Rattle.script_program.specs.Texts.{OpensEachAs};
ghost use Rattle.script_program.specs.Work as works;
ghost use Rattle.script_program.specs.Work.{work_by};

use crate::WordsRefused;
use crate::check::check_text;
use crate::ended::Ended;
use crate::input::{ReadRefused, read_whole};
use crate::opener::Opener;
use crate::output::answer;
use crate::script_run::run_text;
use crate::seeded::run_seed;
use crate::work::{Work, read_work, reads_input};
use pg_values::{Sink, Source};
use std::alloc::Global;

// Does that with a text; the load of a seed needs none.
fn do_work<O: Opener, K: Sink, E: Sink>(
    alloc: Global,
    work: Work,
    text: &[u8],
    out: &mut K,
    err: &mut E,
) -> Ended
    ensures { (opened : Bool → Spec → O.Db.State) → OpensEachAs O.opens O.Db.stands opened → Ends K.Sink E.Sink (WorkEnds O.Db.rules O.Db.good opened O.refused work text.now) (WorkBegins O.Db.rules O.Db.good opened O.refused work text.now) out.old out.new err.old err.new result }
{
    match work {
        Work::Run { trail } => run_text::<O, K, E>(alloc, trail, text, out, err),
        Work::Check => check_text::<O, K, E>(alloc, text, out, err),
        Work::Load { seed } => run_seed::<O, K, E>(alloc, seed, out, err),
    }
}

// Reads the whole of the input, and does that with it.
fn read_and_do<O: Opener, S: Source, K: Sink, E: Sink>(
    alloc: Global,
    work: Work,
    input: &mut S,
    out: &mut K,
    err: &mut E,
) -> Ended
    requires { works.reads_input work ≡ true }
    ensures { (opened : Bool → Spec → O.Db.State) → OpensEachAs O.opens O.Db.stands opened → (words : List (List ℕ)) → work_by words ≡ Some work →
        Calls S.Source K.Sink E.Sink (WorkEnds O.Db.rules O.Db.good opened O.refused) (WorkBegins O.Db.rules O.Db.good opened O.refused) words input.old input.new out.old out.new err.old err.new result }
{
    match read_whole(alloc, input) {
        Ok(text) => do_work::<O, K, E>(alloc, work, &text, out, err),
        Err(ReadRefused::TooLarge) => answer(err, b"input over 4194304 bytes\n", Ended::TooLarge),
        Err(ReadRefused::Fault) => answer(err, b"read failed\n", Ended::ReadFault),
        Err(ReadRefused::NoMemory) => Ended::NoMemory,
    }
}

// Does that, with the input if it is read.
fn do_asked<O: Opener, S: Source, K: Sink, E: Sink>(
    alloc: Global,
    work: Work,
    input: &mut S,
    out: &mut K,
    err: &mut E,
) -> Ended
    ensures { (opened : Bool → Spec → O.Db.State) → OpensEachAs O.opens O.Db.stands opened → (words : List (List ℕ)) → work_by words ≡ Some work →
        Calls S.Source K.Sink E.Sink (WorkEnds O.Db.rules O.Db.good opened O.refused) (WorkBegins O.Db.rules O.Db.good opened O.refused) words input.old input.new out.old out.new err.old err.new result }
{
    if reads_input(work) {
        read_and_do::<O, S, K, E>(alloc, work, input, out, err)
    } else {
        do_work::<O, K, E>(alloc, work, &[], out, err)
    }
}

// The words ask for nothing.
fn refuse_words<E: Sink>(err: &mut E) -> Ended
    ensures { IsTold E.Sink err.old err.new (refusal Ended.Usage usage_line) result }
{
    let line =
        b"usage: partscript [--mode run|check|gen|dump] [--today DATE] [--trail] [--seed N]\n";
    answer(err, line, Ended::Usage)
}

/// Judges the words behind the program's name, reads the whole of `input`, and does what the words ask for with the
/// script that it is: runs it over the databases that `O` opens, or tells which of its blocks are refused. Or it reads
/// no input, runs the script of a seed, and tells what is counted of the run. A run is written to `out` as it happens,
/// the one line of a refusal to `err`.
pub fn run_program<O: Opener, S: Source, K: Sink, E: Sink>(
    alloc: Global,
    words: &[String],
    input: &mut S,
    out: &mut K,
    err: &mut E,
) -> Ended
    ensures { (opened : Bool → Spec → O.Db.State) → OpensEachAs O.opens O.Db.stands opened → Calls S.Source K.Sink E.Sink (WorkEnds O.Db.rules O.Db.good opened O.refused) (WorkBegins O.Db.rules O.Db.good opened O.refused) (map string_bytes words.now) input.old input.new out.old out.new err.old err.new result }
{
    match read_work(alloc, words) {
        Ok(work) => do_asked::<O, S, K, E>(alloc, work, input, out, err),
        Err(WordsRefused::Usage) => refuse_words(err),
        Err(WordsRefused::NoMemory) => Ended::NoMemory,
    }
}
