ghost use Rattle.std.specs.Prelude.{◌≡◌, ◌≢◌, ◌<◌, ◌++◌, ℕ, Ok, Err, OnOk, OnErr, option_copied};
ghost use Rattle.std.specs.Io.KnownBytes.{Appends};
ghost use Rattle.pg_values.specs.Faults.{Rose};
ghost use Rattle.schedule.specs.Blocks.{seat_at};
ghost use Rattle.schedule.specs.Lines as lines;
ghost use Rattle.schedule.specs.Printed.{AppendsPrefix, Writes, Begins};
ghost use Rattle.schedule.specs.Run.{World};
ghost use Rattle.schedule.specs.Stands.{Stands, IsOf};

use crate::database::Database;
use crate::engine::Engine;
use crate::event::Report;
use crate::line::{end_line, error_line, permutation_lines, teardown_of, waiting_line};
use crate::output::write_whole;
use crate::run_end::RunRefused;
use pg_values::{Failed, Sink};
use std::alloc::Global;

// Writes bytes, or ends the run.
pub(crate) fn put<K: Sink>(out: &mut K, bytes: &[u8]) -> Result<(), RunRefused>
    ensures ok { OnOk result (Appends (K.taken out.old) (K.taken out.new) bytes.now) }
    ensures err { OnErr result (AppendsPrefix (K.taken out.old) (K.taken out.new) bytes.now) }
    ensures fault { result ≡ Err RunRefused.Write → Rose (K.faults out.old) (K.faults out.new) }
    ensures kept { result ≢ Err RunRefused.Write → K.faults out.new ≡ K.faults out.old }
{
    match write_whole(out, bytes) {
        Ok(()) => Ok(()),
        Err(Failed) => Err(RunRefused::Write),
    }
}

// Writes two texts one after the other, so that neither is copied.
#[tactic(auto, using(crate::proofs::Pieces::first_cut, crate::proofs::Pieces::second_cut))]
fn put_both<K: Sink>(out: &mut K, one: &[u8], other: &[u8]) -> Result<(), RunRefused>
    ensures ok { OnOk result (Appends (K.taken out.old) (K.taken out.new) (one.now ++ other.now)) }
    ensures err { OnErr result (AppendsPrefix (K.taken out.old) (K.taken out.new) (one.now ++ other.now)) }
    ensures fault { result ≡ Err RunRefused.Write → Rose (K.faults out.old) (K.faults out.new) }
    ensures kept { result ≢ Err RunRefused.Write → K.faults out.new ≡ K.faults out.old }
{
    put(out, one)?;
    put(out, other)
}

#[tactic(auto, using(crate::proofs::Pieces::first_cut, crate::proofs::Pieces::second_cut))]
fn put_three<K: Sink>(out: &mut K, one: &[u8], other: &[u8], third: &[u8]) -> Result<(), RunRefused>
    ensures ok { OnOk result (Appends (K.taken out.old) (K.taken out.new) (one.now ++ other.now ++ third.now)) }
    ensures err { OnErr result (AppendsPrefix (K.taken out.old) (K.taken out.new) (one.now ++ other.now ++ third.now)) }
    ensures fault { result ≡ Err RunRefused.Write → Rose (K.faults out.old) (K.faults out.new) }
    ensures kept { result ≢ Err RunRefused.Write → K.faults out.new ≡ K.faults out.old }
{
    put_both(out, one, other)?;
    put(out, third)
}

impl<'e, 's, D: Database> Engine<'e, 's, D> {
    // Writes the names of the steps of the permutation.
    #[tactic(auto, using(crate::proofs::Pieces::nothing_yet))]
    fn write_opening<K: Sink>(&self, alloc: Global, out: &mut K) -> Result<(), RunRefused>
        ensures writes { OnOk result (Writes D.Database self.now Report.Opening (K.taken out.old) (K.taken out.new)) }
        ensures begins { OnErr result (Begins D.Database self.now Report.Opening (K.taken out.old) (K.taken out.new)) }
        ensures fault { result ≡ Err RunRefused.Write → Rose (K.faults out.old) (K.faults out.new) }
        ensures kept { result ≢ Err RunRefused.Write → K.faults out.new ≡ K.faults out.old }
    {
        let text = permutation_lines(alloc, self.tasks)?;
        put(out, &text)
    }

    // Writes the end of a step: its line, what it printed and its error.
    #[tactic(auto, using(crate::proofs::Pieces::nothing_yet))]
    fn write_end<K: Sink>(&self, alloc: Global, s: usize, out: &mut K) -> Result<(), RunRefused>
        requires { s < self.now.sessions }
        ensures writes { OnOk result (Writes D.Database self.now (Report.Ending s) (K.taken out.old) (K.taken out.new)) }
        ensures begins { OnErr result (Begins D.Database self.now (Report.Ending s) (K.taken out.old) (K.taken out.new)) }
        ensures fault { result ≡ Err RunRefused.Write → Rose (K.faults out.old) (K.faults out.new) }
        ensures kept { result ≢ Err RunRefused.Write → K.faults out.new ≡ K.faults out.old }
    {
        let head = end_line(alloc, &self.seats[s])?;
        let error = error_line::<D>(alloc, b"", self.db.fault(s))?;
        put_three(out, &head, self.db.report(s), &error)
    }

    // Writes the end of a session's teardown: what it printed and its error.
    #[tactic(auto, using(crate::proofs::Pieces::nothing_yet))]
    fn write_teardown<K: Sink>(
        &self,
        alloc: Global,
        s: usize,
        out: &mut K,
    ) -> Result<(), RunRefused>
        requires { s < self.now.sessions }
        ensures writes { OnOk result (Writes D.Database self.now (Report.TornDown s) (K.taken out.old) (K.taken out.new)) }
        ensures begins { OnErr result (Begins D.Database self.now (Report.TornDown s) (K.taken out.old) (K.taken out.new)) }
        ensures fault { result ≡ Err RunRefused.Write → Rose (K.faults out.old) (K.faults out.new) }
        ensures kept { result ≢ Err RunRefused.Write → K.faults out.new ≡ K.faults out.old }
    {
        let before = teardown_of(alloc, &self.seats[s])?;
        let error = error_line::<D>(alloc, &before, self.db.fault(s))?;
        put_both(out, self.db.report(s), &error)
    }

    /// Writes what is printed of a report. What a block has printed goes out as it lies there.
    #[tactic(auto, using(crate::proofs::Pieces::nothing_yet))]
    pub(crate) fn write<K: Sink>(
        &self,
        alloc: Global,
        report: Report,
        out: &mut K,
    ) -> Result<(), RunRefused>
        requires { IsOf self.now.sessions report }
        ensures writes { OnOk result (Writes D.Database self.now report (K.taken out.old) (K.taken out.new)) }
        ensures begins { OnErr result (Begins D.Database self.now report (K.taken out.old) (K.taken out.new)) }
        ensures fault { result ≡ Err RunRefused.Write → Rose (K.faults out.old) (K.faults out.new) }
        ensures kept { result ≢ Err RunRefused.Write → K.faults out.new ≡ K.faults out.old }
    {
        match report {
            Report::Nothing => Ok(()),
            Report::Opening => self.write_opening(alloc, out),
            Report::Waiting { session } => put(out, &waiting_line(alloc, &self.seats[session])?),
            Report::Ending { session } => self.write_end(alloc, session, out),
            Report::Output { session } => put(out, self.db.report(session)),
            Report::TornDown { session } => self.write_teardown(alloc, session, out),
        }
    }
}
