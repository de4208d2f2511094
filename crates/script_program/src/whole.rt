ghost use Rattle.std.specs.Prelude.{◌≡◌, ◌≢◌, ◌+◌, Err, IfOk, OnErr, length};
ghost use Rattle.pg_values.specs.Faults.{Rose};
ghost use Rattle.schedule.specs.Counts.{IsCounted};
ghost use Rattle.schedule.specs.Lines.{heading};
ghost use Rattle.schedule.specs.Printed.{IsPrinted, IsPartlyPrinted};
ghost use Rattle.schedule.specs.Run.{World, start};
ghost use Rattle.script_program.specs.Tasks as spec;

use crate::permutations::permutations_of;
use pg_values::{NoMemory, Sink};
use schedule::{Counted, Database, RunEnd, RunRefused, count, run};
use spec_reader::Spec;
use std::alloc::Global;

/// Runs a script over fresh databases like this one, which has the script's sessions and the control
/// session, and writes what it prints as it comes.
pub fn run_script<D: Database, K: Sink>(
    alloc: Global,
    db: D,
    script: &Spec,
    out: &mut K,
) -> Result<RunEnd, RunRefused>
    requires sessions { D.count db ≡ length script.now.sessions + 1 }
    ensures done { IfOk result (λ end. (v : D.State) → D.stands db v → IsPrinted D.rules D.good (start D.rules v (D.count db) (spec.permutations_of script.now)) (heading (D.count db)) end (K.taken out.old) (K.taken out.new)) }
    ensures cut { OnErr result ((v : D.State) → D.stands db v → IsPartlyPrinted D.rules D.good (start D.rules v (D.count db) (spec.permutations_of script.now)) (heading (D.count db)) (K.taken out.old) (K.taken out.new)) }
    ensures fault { result ≡ Err RunRefused.Write → Rose (K.faults out.old) (K.faults out.new) }
    ensures kept { result ≢ Err RunRefused.Write → K.faults out.new ≡ K.faults out.old }
{
    let permutations = permutations_of(alloc, script)?;
    run(alloc, db, &permutations, out)
}

/// Runs it so, and counts the run in place of printing it.
pub(crate) fn count_script<D: Database>(
    alloc: Global,
    db: D,
    script: &Spec,
) -> Result<Counted<D>, NoMemory>
    requires { D.count db ≡ length script.now.sessions + 1 }
    ensures { IfOk result (λ x. (v : D.State) → D.stands db v → (last : World D.State) × IsCounted D.rules D.good (start D.rules v (D.count db) (spec.permutations_of script.now)) x.end x.counts last × D.stands x.db last.db) }
{
    let permutations = permutations_of(alloc, script)?;
    count(alloc, db, &permutations)
}
