//! The load of a seed: its script is run, and the run is counted.

ghost use Rattle.std.specs.Prelude.{◌≡◌, ◌+◌, ◌++◌, IfOk, OnOk, false, length};
ghost use Rattle.script_program.specs.LoadScript.{load};
ghost use Rattle.spec_reader.specs.declared.spec.Spec.{Spec};
ghost use Rattle.script_program.specs.Outcomes.{AtOnce, Ends};
ghost use Rattle.script_program.specs.Seeded as spec;
ghost use Rattle.script_program.specs.Seeded.{RunCounts, SeedEnds};
ghost use Rattle.script_program.specs.Texts.{OpensAs};

use crate::ended::Ended;
use crate::gen_script;
use crate::line::{fault_line, setup_line, teardown_line};
use crate::opener::Opener;
use crate::output::answer;
use crate::script_run::refuse;
use crate::whole::count_script;
use pg_values::{NoMemory, Sink};
use schedule::{Counts, Database, RunEnd, Tally};
use spec_reader::{Spec, read_spec};
use std::alloc::Global;

// ---- the summary

fn write_count(word: &[u8], count: u64, out: &mut Vec<u8>) -> Result<(), NoMemory>
    ensures { OnOk result (out.new.items ≡ out.old.items ++ spec.count_line word.now count) }
{
    let mut digits = itoa::Buffer::new();
    out.extend_from_slice(word)?;
    out.extend_from_slice(b" ")?;
    out.extend_from_slice(digits.format(count).as_bytes())?;
    out.extend_from_slice(b"\n")?;
    Ok(())
}

fn summary(alloc: Global, seed: u64, counts: Counts, tally: Tally) -> Result<Vec<u8>, NoMemory>
    ensures { IfOk result (λ text. text.items ≡ spec.summary seed counts tally) }
{
    let mut text = Vec::new(alloc);
    write_count(b"seed", seed, &mut text)?;
    write_count(b"steps", counts.steps, &mut text)?;
    write_count(b"waits", counts.waits, &mut text)?;
    write_count(b"errors", counts.errors, &mut text)?;
    write_count(b"rows", tally.rows, &mut text)?;
    write_count(b"reads", tally.reads, &mut text)?;
    Ok(text)
}

// ---- a run

// Tells what was counted of a run that ended so, or why it ended early.
fn tell<D: Database, K: Sink, E: Sink>(
    alloc: Global,
    script: &Spec,
    seed: u64,
    counts: Counts,
    tally: Tally,
    end: RunEnd,
    out: &mut K,
    err: &mut E,
) -> Ended
    ensures { Ends K.Sink E.Sink (λ o. o ≡ spec.told_of D.rules script.now seed counts tally end) (AtOnce (λ o. o ≡ spec.told_of D.rules script.now seed counts tally end)) out.old out.new err.old err.new result }
{
    match end {
        RunEnd::All => match summary(alloc, seed, counts, tally) {
            Ok(text) => answer(out, &text, Ended::Done),
            Err(NoMemory) => Ended::NoMemory,
        },
        RunEnd::SetupFailed { session, fault } => {
            let sessions = script.sessions.as_slice();
            refuse(err, setup_line::<D>(alloc, sessions, session, &fault))
        }
        RunEnd::TeardownFailed { fault } => refuse(err, teardown_line::<D>(alloc, &fault)),
    }
}

fn count_over<D: Database, K: Sink, E: Sink>(
    alloc: Global,
    db: D,
    script: &Spec,
    seed: u64,
    out: &mut K,
    err: &mut E,
) -> Ended
    requires { D.count db ≡ length script.now.sessions + 1 }
    ensures { (v : D.State) → D.stands db v → Ends K.Sink E.Sink (RunCounts D.rules D.good v script.now seed) (AtOnce (RunCounts D.rules D.good v script.now seed)) out.old out.new err.old err.new result }
{
    match count_script(alloc, db, script) {
        Ok(counted) => {
            let tally = counted.db.tally();
            let counts = counted.counts;
            tell::<D, K, E>(alloc, script, seed, counts, tally, counted.end, out, err)
        }
        Err(NoMemory) => Ended::NoMemory,
    }
}

// ---- a seed

fn load_text(alloc: Global, seed: u64) -> Result<Vec<u8>, NoMemory>
    ensures { IfOk result (λ text. text.items ≡ load seed) }
{
    let mut text = Vec::new(alloc);
    gen_script(alloc, seed, &mut text)?;
    Ok(text)
}

fn run_load<O: Opener, K: Sink, E: Sink>(
    alloc: Global,
    seed: u64,
    text: &[u8],
    out: &mut K,
    err: &mut E,
) -> Ended
    requires { text.now ≡ load seed }
    ensures { (opened : Spec → O.Db.State) → OpensAs (O.opens false) O.Db.stands opened → Ends K.Sink E.Sink (SeedEnds O.Db.rules O.Db.good opened seed) (AtOnce (SeedEnds O.Db.rules O.Db.good opened seed)) out.old out.new err.old err.new result }
{
    match read_spec(alloc, text) {
        Ok(script) => match O::open(alloc, &script, false) {
            Ok(db) => count_over(alloc, db, &script, seed, out, err),
            Err(NoMemory) => Ended::NoMemory,
        },
        Err(fault) => refuse(err, fault_line(alloc, &fault)),
    }
}

/// Runs the script of the seed, without trails, and tells what is counted of the run; or why the script is none, or
/// ends early.
pub(crate) fn run_seed<O: Opener, K: Sink, E: Sink>(
    alloc: Global,
    seed: u64,
    out: &mut K,
    err: &mut E,
) -> Ended
    ensures { (opened : Spec → O.Db.State) → OpensAs (O.opens false) O.Db.stands opened → Ends K.Sink E.Sink (SeedEnds O.Db.rules O.Db.good opened seed) (AtOnce (SeedEnds O.Db.rules O.Db.good opened seed)) out.old out.new err.old err.new result }
{
    match load_text(alloc, seed) {
        Ok(text) => run_load::<O, K, E>(alloc, seed, &text, out, err),
        Err(NoMemory) => Ended::NoMemory,
    }
}
