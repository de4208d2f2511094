ghost use Rattle.std.specs.Prelude.{◌≡◌, ◌≢◌, ◌<◌, ℕ, Err, All, IfOk, OnOk, OnErr};
ghost use Rattle.pg_values.specs.Faults.{Rose};
ghost use Rattle.schedule.specs.Lines.{heading};
ghost use Rattle.schedule.specs.Printed.{IsPrinted, IsPartlyPrinted, ArePrinted, ArePartlyPrinted, WritesOf, BeginsOf};
ghost use Rattle.schedule.specs.Run.{World, effect, start};
ghost use Rattle.schedule.specs.Stands.{Stands, Leaves, Reports, MayCome, IsOf};
ghost use Rattle.schedule.specs.Tasks.{AreKnown};
ghost use Rattle.schedule.specs.Weight.{Falls};

use crate::database::Database;
use crate::engine::Engine;
use crate::event::{Event, Report};
use crate::events::empty_seats;
use crate::line::heading;
use crate::run_end::{RunEnd, RunRefused};
use crate::task::Permutation;
use crate::write::put;
use pg_values::{NoMemory, Sink};
use std::alloc::Global;

impl<'e, 's, D: Database> Engine<'e, 's, D> {
    /// Before the first permutation.
    pub(crate) fn new(
        alloc: Global,
        db: D,
        permutations: &'e [Permutation<'s>],
    ) -> Result<Self, NoMemory>
        requires known { All (AreKnown (D.count db)) permutations.now }
        ensures { IfOk result (λ e. (v : D.State) → D.stands db v → Stands D.Database e (start D.rules v (D.count db) permutations.now)) }
    {
        let sessions = db.sessions();
        Ok(Engine {
            db,
            permutations,
            tasks: &[],
            seats: empty_seats(alloc, sessions)?,
            held: Vec::new(alloc),
            last: 0,
            turn: None,
            end: RunEnd::All,
            sessions,
        })
    }

    /// Makes what happens happen, and answers what is reported of it.
    pub(crate) fn apply(&mut self, alloc: Global, event: Event) -> Result<Report, NoMemory>
        requires { MayCome D.Database self.old event }
        ensures leaves { OnOk result (Leaves D.Database (λ w. effect D.rules w event) self.old self.new) }
        ensures report { IfOk result (Reports D.Database (λ w. effect D.rules w event) self.old) }
        ensures of { IfOk result (IsOf self.new.sessions) }
        ensures falls { OnOk result (Falls D.Database self.old self.new) }
    {
        match event {
            Event::Acts { session } => self.act(alloc, session),
            Event::Tells { session } => Ok(self.tell_held(session)),
            Event::Resumes { session } => {
                self.resume(session);
                Ok(Report::Nothing)
            }
            Event::Cancels { session } => {
                self.cancel(alloc, session);
                Ok(Report::Nothing)
            }
            Event::Launches => self.launch(alloc),
            Event::Settles => {
                self.settle();
                Ok(Report::Nothing)
            }
            Event::RollsBack { session } => {
                self.roll_back(session);
                Ok(Report::Nothing)
            }
            Event::Opens => self.open(alloc),
        }
    }

    // Makes what happens happen, and writes what is reported of it.
    fn event<K: Sink>(&mut self, alloc: Global, event: Event, out: &mut K) -> Result<(), RunRefused>
        requires { MayCome D.Database self.old event }
        ensures leaves { OnOk result (Leaves D.Database (λ w. effect D.rules w event) self.old self.new) }
        ensures writes { OnOk result (WritesOf D.Database (λ w. effect D.rules w event) self.old (K.taken out.old) (K.taken out.new)) }
        ensures begins { OnErr result (BeginsOf D.Database (λ w. effect D.rules w event) self.old self.new (K.taken out.old) (K.taken out.new)) }
        ensures fault { result ≡ Err RunRefused.Write → Rose (K.faults out.old) (K.faults out.new) }
        ensures kept { result ≢ Err RunRefused.Write → K.faults out.new ≡ K.faults out.old }
        ensures falls { OnOk result (Falls D.Database self.old self.new) }
    {
        let report = self.apply(alloc, event)?;
        self.write(alloc, report, out)
    }

    // Makes all happen that is left.
    fn run_to_end<K: Sink>(&mut self, alloc: Global, out: &mut K) -> Result<(), RunRefused>
        ensures done { OnOk result ((w : World D.State) → Stands D.Database self.old w → ArePrinted D.Database w self.new (K.taken out.old) (K.taken out.new)) }
        ensures cut { OnErr result ((w : World D.State) → Stands D.Database self.old w → ArePartlyPrinted D.rules D.good w (K.taken out.old) (K.taken out.new)) }
        ensures fault { result ≡ Err RunRefused.Write → Rose (K.faults out.old) (K.faults out.new) }
        ensures kept { result ≢ Err RunRefused.Write → K.faults out.new ≡ K.faults out.old }
    {
        while let Some(event) = self.next() {
            self.event(alloc, event, out)?;
        }
        Ok(())
    }

    fn into_end(self) -> RunEnd
        ensures { result ≡ self.entry.end }
    {
        self.end
    }
}

/// Runs the permutations over fresh databases like this one, and writes what they print as it comes.
/// A failed write ends the run, and so does a failed setup or a failed teardown of the control
/// session.
pub fn run<D: Database, K: Sink>(
    alloc: Global,
    db: D,
    permutations: &[Permutation<'_>],
    out: &mut K,
) -> Result<RunEnd, RunRefused>
    requires known { All (AreKnown (D.count db)) permutations.now }
    ensures done { IfOk result (λ end. (v : D.State) → D.stands db v → IsPrinted D.rules D.good (start D.rules v (D.count db) permutations.now) (heading (D.count db)) end (K.taken out.old) (K.taken out.new)) }
    ensures cut { OnErr result ((v : D.State) → D.stands db v → IsPartlyPrinted D.rules D.good (start D.rules v (D.count db) permutations.now) (heading (D.count db)) (K.taken out.old) (K.taken out.new)) }
    ensures fault { result ≡ Err RunRefused.Write → Rose (K.faults out.old) (K.faults out.new) }
    ensures kept { result ≢ Err RunRefused.Write → K.faults out.new ≡ K.faults out.old }
{
    let head = heading(alloc, db.sessions())?;
    let mut engine = Engine::new(alloc, db, permutations)?;
    put(out, &head)?;
    engine.run_to_end(alloc, out)?;
    Ok(engine.into_end())
}
