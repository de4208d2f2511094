ghost use Rattle.std.specs.Prelude.{◌≡◌, ◌<◌, ◌≤◌, ℕ, All, ◌+◌, ◌*◌, [], ◌∷◌, None, true, false, length, replicate, IfOk, OnOk};
ghost use Rattle.schedule.specs.Blocks.{no_seat, seat_at};
ghost use Rattle.schedule.specs.Lists.{is_in};
ghost use Rattle.schedule.specs.Run.{World, wait_report, tells, holds, waits, cancels, pauses, setup_end, teardown_end, ends, resumes, launches, others, opens, effect};
ghost use Rattle.schedule.specs.Stands.{Stands, Leaves, Reports, IsLaunch, IsOf};
ghost use Rattle.schedule.specs.Tasks.{AreKnown};
ghost use Rattle.schedule.specs.Weight.{Falls, Lowers, left, small, of_permutation};
ghost use Rattle.std.specs.List.{sum_by};
ghost use Rattle.schedule.specs.declared.block.BlockKind.{BlockKind};
ghost use Rattle.schedule.specs.declared.event.Event.{Event};

use crate::block::{Block, BlockKind};
use crate::database::{Database, Progress};
use crate::engine::Engine;
use crate::event::Report;
use crate::fault::copy_fault;
use crate::holding::{is_held_back, leave};
use crate::run_end::RunEnd;
use crate::seat::Seat;
use crate::task::{Permutation, Task};
use pg_values::NoMemory;
use std::alloc::Global;

// A step is reported as waiting, unless it was before.
fn wait_report(s: usize, seat: &Seat<'_>) -> Report
    ensures { result ≡ wait_report s seat.now }
{
    if seat.waited() {
        Report::Nothing
    } else {
        Report::Waiting { session: s }
    }
}

// The tasks behind the first.
fn others<'e, 's>(tasks: &'e [Task<'s>]) -> &'e [Task<'s>]
    ensures { result.now ≡ others tasks.now }
{
    &tasks[tasks.len().min(1)..]
}

impl<'e, 's, D: Database> Engine<'e, 's, D> {
    // The step's end is reported.
    fn tell(&mut self, s: usize) -> Report
        requires known { s < self.old.sessions }
        requires idle { self.old.turn ≡ None }
        ensures leaves { Leaves D.Database (λ w. tells w s (seat_at w.seats s)) self.old self.new }
        ensures report { Reports D.Database (λ w. tells w s (seat_at w.seats s)) self.old result }
        ensures of { IsOf self.new.sessions result }
        ensures left { left D.Database self.new ≡ left D.Database self.old }
        ensures small { small D.Database self.new ≤ small D.Database self.old }
        ensures shorter { is_in s self.old.held.items ≡ true → small D.Database self.new < small D.Database self.old }
    {
        leave(s, &mut self.held);
        self.seats[s].close();
        Report::Ending { session: s }
    }

    // An end that was held back is reported.
    pub(crate) fn tell_held(&mut self, s: usize) -> Report
        requires known { s < self.old.sessions }
        requires idle { self.old.turn ≡ None }
        requires held { is_in s self.old.held.items ≡ true }
        ensures leaves { Leaves D.Database (λ w. effect D.rules w (Event.Tells s)) self.old self.new }
        ensures report { Reports D.Database (λ w. effect D.rules w (Event.Tells s)) self.old result }
        ensures of { IsOf self.new.sessions result }
        ensures falls { Falls D.Database self.old self.new }
    {
        self.tell(s)
    }

    // The step's end is held back.
    fn hold(&mut self, s: usize) -> Result<Report, NoMemory>
        requires known { s < self.old.sessions }
        requires idle { self.old.turn ≡ None }
        ensures leaves { OnOk result (Leaves D.Database (λ w. holds w s (seat_at w.seats s)) self.old self.new) }
        ensures report { IfOk result (Reports D.Database (λ w. holds w s (seat_at w.seats s)) self.old) }
        ensures of { IfOk result (IsOf self.new.sessions) }
        ensures left { OnOk result (left D.Database self.new ≡ left D.Database self.old) }
        ensures small { OnOk result (small D.Database self.new ≤ small D.Database self.old + 1) }
    {
        let report = wait_report(s, &self.seats[s]);
        self.held.push(s)?;
        self.seats[s].wait();
        Ok(report)
    }

    // The step waits.
    fn wait(&mut self, s: usize) -> Report
        requires known { s < self.old.sessions }
        requires idle { self.old.turn ≡ None }
        ensures leaves { Leaves D.Database (λ w. waits w s (seat_at w.seats s)) self.old self.new }
        ensures report { Reports D.Database (λ w. waits w s (seat_at w.seats s)) self.old result }
        ensures of { IsOf self.new.sessions result }
        ensures left { left D.Database self.new ≡ left D.Database self.old }
        ensures small { small D.Database self.new ≤ small D.Database self.old + 1 }
    {
        let report = wait_report(s, &self.seats[s]);
        self.seats[s].wait();
        report
    }

    // A statement that waits is cancelled.
    pub(crate) fn cancel(&mut self, alloc: Global, s: usize)
        requires known { s < self.old.sessions }
        requires idle { self.old.turn ≡ None }
        requires waiting { D.waiting self.old.db s ≡ true }
        ensures leaves { Leaves D.Database (λ w. cancels D.rules w s) self.old self.new }
        ensures lowers { Lowers D.Database self.old self.new }
    {
        self.db.cancel(alloc, s);
        self.turn = Some(s);
    }

    // A statement would wait: only a step's may.
    fn pause(&mut self, alloc: Global, s: usize) -> Report
        requires known { s < self.old.sessions }
        requires idle { self.old.turn ≡ None }
        requires waiting { D.waiting self.old.db s ≡ true }
        ensures leaves { Leaves D.Database (λ w. pauses D.rules w s (seat_at w.seats s) (seat_at w.seats s).kind) self.old self.new }
        ensures report { Reports D.Database (λ w. pauses D.rules w s (seat_at w.seats s) (seat_at w.seats s).kind) self.old result }
        ensures of { IsOf self.new.sessions result }
        ensures left { left D.Database self.new ≡ left D.Database self.old }
        ensures small { small D.Database self.new ≤ small D.Database self.old + 1 }
    {
        match self.seats[s].kind() {
            BlockKind::Step => self.wait(s),
            BlockKind::Setup | BlockKind::Teardown | BlockKind::ControlTeardown => {
                self.cancel(alloc, s);
                Report::Nothing
            }
        }
    }

    // How a setup ends the run, if it has failed.
    fn setup_end(&self, alloc: Global, s: usize) -> Result<RunEnd, NoMemory>
        requires { s < self.now.sessions }
        ensures { IfOk result (λ end. (w : World D.State) → Stands D.Database self.now w → end ≡ setup_end s (D.rules.fault w.db s)) }
    {
        match self.db.fault(s) {
            None => Ok(RunEnd::All),
            Some(fault) => Ok(RunEnd::SetupFailed {
                session: s,
                fault: copy_fault(alloc, fault)?,
            }),
        }
    }

    // How the control session's teardown ends the run, if it has failed.
    fn teardown_end(&self, alloc: Global, s: usize) -> Result<RunEnd, NoMemory>
        requires { s < self.now.sessions }
        ensures { IfOk result (λ end. (w : World D.State) → Stands D.Database self.now w → end ≡ teardown_end (D.rules.fault w.db s)) }
    {
        match self.db.fault(s) {
            None => Ok(RunEnd::All),
            Some(fault) => Ok(RunEnd::TeardownFailed {
                fault: copy_fault(alloc, fault)?,
            }),
        }
    }

    // A step has ended.
    fn end_step(&mut self, s: usize) -> Result<Report, NoMemory>
        requires known { s < self.old.sessions }
        requires idle { self.old.turn ≡ None }
        ensures leaves { OnOk result (Leaves D.Database (λ w. ends D.rules w s (seat_at w.seats s) BlockKind.Step) self.old self.new) }
        ensures report { IfOk result (Reports D.Database (λ w. ends D.rules w s (seat_at w.seats s) BlockKind.Step) self.old) }
        ensures of { IfOk result (IsOf self.new.sessions) }
        ensures left { OnOk result (left D.Database self.new ≡ left D.Database self.old) }
        ensures small { OnOk result (small D.Database self.new ≤ small D.Database self.old + 1) }
    {
        if is_held_back(&self.seats, self.last, s) {
            self.hold(s)
        } else {
            Ok(self.tell(s))
        }
    }

    // A block has ended.
    fn end(&mut self, alloc: Global, s: usize) -> Result<Report, NoMemory>
        requires known { s < self.old.sessions }
        requires idle { self.old.turn ≡ None }
        ensures leaves { OnOk result (Leaves D.Database (λ w. ends D.rules w s (seat_at w.seats s) (seat_at w.seats s).kind) self.old self.new) }
        ensures report { IfOk result (Reports D.Database (λ w. ends D.rules w s (seat_at w.seats s) (seat_at w.seats s).kind) self.old) }
        ensures of { IfOk result (IsOf self.new.sessions) }
        ensures left { OnOk result (left D.Database self.new ≡ left D.Database self.old) }
        ensures small { OnOk result (small D.Database self.new ≤ small D.Database self.old + 1) }
    {
        match self.seats[s].kind() {
            BlockKind::Setup => {
                self.end = self.setup_end(alloc, s)?;
                Ok(Report::Output { session: s })
            }
            BlockKind::Step => self.end_step(s),
            BlockKind::Teardown => Ok(Report::TornDown { session: s }),
            BlockKind::ControlTeardown => {
                self.end = self.teardown_end(alloc, s)?;
                Ok(Report::Output { session: s })
            }
        }
    }

    // Who has the turn goes on.
    pub(crate) fn act(&mut self, alloc: Global, s: usize) -> Result<Report, NoMemory>
        requires turn { self.old.turn ≡ Some s }
        ensures leaves { OnOk result (Leaves D.Database (λ w. effect D.rules w (Event.Acts s)) self.old self.new) }
        ensures report { IfOk result (Reports D.Database (λ w. effect D.rules w (Event.Acts s)) self.old) }
        ensures of { IfOk result (IsOf self.new.sessions) }
        ensures falls { OnOk result (Falls D.Database self.old self.new) }
    {
        self.turn = None;
        match self.db.step(alloc, s)? {
            Progress::Goes => {
                self.turn = Some(s);
                Ok(Report::Nothing)
            }
            Progress::Waits => Ok(self.pause(alloc, s)),
            Progress::Ended => self.end(alloc, s),
        }
    }

    // A session goes on whose wait is over.
    pub(crate) fn resume(&mut self, s: usize)
        requires known { s < self.old.sessions }
        requires idle { self.old.turn ≡ None }
        requires due { D.due self.old.db s ≡ true }
        ensures leaves { Leaves D.Database (λ w. resumes D.rules w s) self.old self.new }
        ensures lowers { Lowers D.Database self.old self.new }
    {
        self.db.resume(s);
        self.turn = Some(s);
    }

    // The next block is launched.
    pub(crate) fn launch(&mut self, alloc: Global) -> Result<Report, NoMemory>
        requires idle { self.old.turn ≡ None }
        requires free { IsLaunch self.old.tasks.now (λ s. D.waiting self.old.db s ≡ false) }
        ensures leaves { OnOk result (Leaves D.Database (λ w. effect D.rules w Event.Launches) self.old self.new) }
        ensures report { IfOk result (Reports D.Database (λ w. effect D.rules w Event.Launches) self.old) }
        ensures of { IfOk result (IsOf self.new.sessions) }
        ensures falls { OnOk result (Falls D.Database self.old self.new) }
    {
        match self.tasks.split_first() {
            Some((Task::Launch { block }, others)) => self.launch_block(alloc, block, others),
            _ => Ok(Report::Nothing),
        }
    }

    fn launch_block(
        &mut self,
        alloc: Global,
        block: &'e Block<'s>,
        others: &'e [Task<'s>],
    ) -> Result<Report, NoMemory>
        requires known { block.now.session < self.old.sessions }
        requires others { AreKnown self.old.sessions others.now }
        requires idle { self.old.turn ≡ None }
        requires free { D.waiting self.old.db block.now.session ≡ false }
        ensures leaves { OnOk result (Leaves D.Database (λ w. launches D.rules w others.now block.now) self.old self.new) }
        ensures report { IfOk result (Reports D.Database (λ w. launches D.rules w others.now block.now) self.old) }
        ensures of { IfOk result (IsOf self.new.sessions) }
        ensures left { OnOk result (left D.Database self.new + length self.old.tasks.now ≡ left D.Database self.old + length others.now) }
        ensures small { OnOk result (small D.Database self.new ≤ small D.Database self.old + (3 * D.cost + 2)) }
    {
        let session = block.session();
        self.db.begin(alloc, session, block.kind(), block.text())?;
        self.tasks = others;
        self.seats[session] = Seat::new(block);
        self.last = session;
        self.turn = Some(session);
        if block.starred() {
            Ok(Report::Waiting { session })
        } else {
            Ok(Report::Nothing)
        }
    }

    // The steps have ended.
    pub(crate) fn settle(&mut self)
        requires idle { self.old.turn ≡ None }
        requires some { 0 < length self.old.tasks.now }
        ensures leaves { Leaves D.Database (λ w. effect D.rules w Event.Settles) self.old self.new }
        ensures falls { Falls D.Database self.old self.new }
    {
        self.tasks = others(self.tasks);
    }

    // What the session has open is rolled back.
    pub(crate) fn roll_back(&mut self, s: usize)
        requires known { s < self.old.sessions }
        requires idle { self.old.turn ≡ None }
        requires some { 0 < length self.old.tasks.now }
        ensures leaves { Leaves D.Database (λ w. effect D.rules w (Event.RollsBack s)) self.old self.new }
        ensures falls { Falls D.Database self.old self.new }
    {
        self.db.roll_back(s);
        self.tasks = others(self.tasks);
    }

    // The next permutation begins, with a fresh database.
    pub(crate) fn open(&mut self, alloc: Global) -> Result<Report, NoMemory>
        requires idle { self.old.turn ≡ None }
        requires done { self.old.tasks.now ≡ [] }
        requires some { 0 < length self.old.permutations.now }
        ensures leaves { OnOk result (Leaves D.Database (λ w. effect D.rules w Event.Opens) self.old self.new) }
        ensures report { IfOk result (Reports D.Database (λ w. effect D.rules w Event.Opens) self.old) }
        ensures of { IfOk result (IsOf self.new.sessions) }
        ensures falls { OnOk result (Falls D.Database self.old self.new) }
    {
        match self.permutations.split_first() {
            None => Ok(Report::Nothing),
            Some((permutation, others)) => self.open_first(alloc, permutation, others),
        }
    }

    fn open_first(
        &mut self,
        alloc: Global,
        permutation: &'e Permutation<'s>,
        others: &'e [Permutation<'s>],
    ) -> Result<Report, NoMemory>
        requires known { AreKnown self.old.sessions permutation.now }
        requires others { All (AreKnown self.old.sessions) others.now }
        requires idle { self.old.turn ≡ None }
        ensures leaves { OnOk result (Leaves D.Database (λ w. opens D.rules w (permutation.now ∷ others.now)) self.old self.new) }
        ensures report { IfOk result (Reports D.Database (λ w. opens D.rules w (permutation.now ∷ others.now)) self.old) }
        ensures of { IfOk result (IsOf self.new.sessions) }
        ensures left { OnOk result (left D.Database self.new ≡ length permutation.now + sum_by of_permutation others.now) }
        ensures small { OnOk result (small D.Database self.new ≤ 3 * D.cost) }
    {
        let seats = empty_seats(alloc, self.sessions)?;
        self.db = self.db.fresh(alloc)?;
        self.permutations = others;
        self.tasks = permutation.as_slice();
        self.seats = seats;
        self.held = Vec::new(alloc);
        self.last = 0;
        self.end = RunEnd::All;
        Ok(Report::Opening)
    }
}

// Nothing was launched.
pub(crate) fn empty_seats<'e>(alloc: Global, count: usize) -> Result<Vec<Seat<'e>>, NoMemory>
    ensures { IfOk result (λ seats. seats.items ≡ replicate count no_seat) }
{
    let mut seats = Vec::new(alloc);
    for _ in 0..count {
        seats.push(Seat::empty())?;
    }
    Ok(seats)
}
