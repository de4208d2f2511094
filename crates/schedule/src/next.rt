ghost use Rattle.std.specs.Prelude.{◌≡◌, ◌<◌, [], None, length, IfSome};
ghost use Rattle.schedule.specs.Lists.{is_in};
ghost use Rattle.schedule.specs.Run.{World, tellable, next_permutation, next_launch, next_settle, next_task, next_from, next};
ghost use Rattle.schedule.specs.Stands.{Stands, MayCome, IsLaunch};

use crate::database::Database;
use crate::engine::Engine;
use crate::event::Event;
use crate::holding::{is_in, tellable};
use crate::run_end::RunEnd;
use crate::task::Task;

impl<'e, 's, D: Database> Engine<'e, 's, D> {
    /// What happens next.
    pub(crate) fn next(&self) -> Option<Event>
        ensures is { (w : World D.State) → Stands D.Database self.now w → result ≡ next D.rules w }
        ensures may { IfSome result (MayCome D.Database self.now) }
    {
        match &self.end {
            RunEnd::All => match self.turn {
                Some(session) => Some(Event::Acts { session }),
                None => self.next_idle(),
            },
            RunEnd::SetupFailed { .. } | RunEnd::TeardownFailed { .. } => None,
        }
    }

    // What happens next where nobody has the turn.
    fn next_idle(&self) -> Option<Event>
        requires idle { self.now.turn ≡ None }
        ensures is { (w : World D.State) → Stands D.Database self.now w → result ≡ next_from D.rules w None (D.rules.interrupted w.db) (tellable w.tasks w.seats w.last w.held) (D.rules.ready w.db) }
        ensures may { IfSome result (MayCome D.Database self.now) }
    {
        match self.db.interrupted() {
            Some(session) => Some(Event::Resumes { session }),
            None => self.next_undisturbed(),
        }
    }

    // What happens next where no statement has cancelled another session's wait.
    fn next_undisturbed(&self) -> Option<Event>
        requires idle { self.now.turn ≡ None }
        ensures is { (w : World D.State) → Stands D.Database self.now w → result ≡ next_from D.rules w None None (tellable w.tasks w.seats w.last w.held) (D.rules.ready w.db) }
        ensures may { IfSome result (MayCome D.Database self.now) }
    {
        match tellable(self.tasks, &self.seats, self.last, &self.held) {
            Some(session) => Some(Event::Tells { session }),
            None => match self.db.ready() {
                Some(session) => Some(Event::Resumes { session }),
                None => self.next_task(),
            },
        }
    }

    // What happens next where nobody can go on.
    fn next_task(&self) -> Option<Event>
        requires idle { self.now.turn ≡ None }
        ensures is { (w : World D.State) → Stands D.Database self.now w → result ≡ next_task D.rules w w.tasks }
        ensures may { IfSome result (MayCome D.Database self.now) }
    {
        match self.tasks.split_first() {
            None => self.next_permutation(),
            Some((Task::Launch { block }, _)) => Some(self.next_launch(block.session())),
            Some((Task::Settle, _)) => Some(self.next_settle()),
            Some((Task::RollBack { session }, _)) => Some(Event::RollsBack { session: *session }),
        }
    }

    fn next_permutation(&self) -> Option<Event>
        requires idle { self.now.turn ≡ None }
        requires done { self.now.tasks.now ≡ [] }
        ensures is { result ≡ next_permutation self.now.permutations.now }
        ensures may { IfSome result (MayCome D.Database self.now) }
    {
        if self.permutations.is_empty() {
            None
        } else {
            Some(Event::Opens)
        }
    }

    // A launch comes after the end and the report of the session's own earlier step.
    fn next_launch(&self, s: usize) -> Event
        requires idle { self.now.turn ≡ None }
        requires known { s < self.now.sessions }
        requires launch { IsLaunch self.now.tasks.now (λ r. r ≡ s) }
        ensures is { (w : World D.State) → Stands D.Database self.now w → result ≡ next_launch (D.rules.waits w.db s) (is_in s w.held) s }
        ensures may { MayCome D.Database self.now result }
    {
        if self.db.waits(s) {
            Event::Cancels { session: s }
        } else if is_in(s, &self.held) {
            Event::Tells { session: s }
        } else {
            Event::Launches
        }
    }

    // At the end of the steps.
    fn next_settle(&self) -> Event
        requires idle { self.now.turn ≡ None }
        requires some { 0 < length self.now.tasks.now }
        ensures is { (w : World D.State) → Stands D.Database self.now w → result ≡ next_settle (D.rules.oldest w.db) }
        ensures may { MayCome D.Database self.now result }
    {
        match self.db.oldest() {
            Some(session) => Event::Cancels { session },
            None => Event::Settles,
        }
    }
}
