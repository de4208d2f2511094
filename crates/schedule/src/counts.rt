//! A run that is counted, and not printed.

ghost use Rattle.std.specs.Prelude.{◌≡◌, ℕ, None, All, IfOk, OnOk};
ghost use Rattle.schedule.specs.Counts.{AreCounted, IsCounted, is_error, is_launch, is_step_next, is_wait, none, plus_if, with_event};
ghost use Rattle.schedule.specs.Run.{World, effect, next, start};
ghost use Rattle.schedule.specs.Stands.{Stands, IsOf, Leaves, MayCome};
ghost use Rattle.schedule.specs.Tasks.{AreKnown};
ghost use Rattle.schedule.specs.Weight.{Falls};

use crate::block::BlockKind;
use crate::database::Database;
use crate::engine::Engine;
use crate::event::{Event, Report};
use crate::run_end::RunEnd;
use crate::task::{Permutation, Task};
use pg_values::NoMemory;
use std::alloc::Global;

/// What is counted of a run.
#[derive(Clone, Copy, Debug, PartialEq, Eq)]
pub struct Counts {
    /// Launches of steps.
    pub steps: u64,
    /// Those of them that were reported as waiting.
    pub waits: u64,
    /// Error lines of steps and of sessions' teardowns.
    pub errors: u64,
}

/// A run that was counted: how it ended, its counts, and its last database.
#[derive(Drop)]
pub struct Counted<D: Database> {
    pub end: RunEnd,
    pub counts: Counts,
    pub db: D,
}

fn is_step_next(tasks: &[Task<'_>]) -> bool
    ensures { result ≡ is_step_next tasks.now }
{
    match tasks.first() {
        Some(Task::Launch { block }) => matches!(block.kind(), BlockKind::Step),
        _ => false,
    }
}

fn is_launch(tasks: &[Task<'_>], event: Event) -> bool
    ensures { result ≡ is_launch tasks.now event }
{
    match event {
        Event::Launches => is_step_next(tasks),
        _ => false,
    }
}

fn is_wait(report: Report) -> bool
    ensures { result ≡ is_wait report }
{
    matches!(report, Report::Waiting { .. })
}

// With one more, where that is so. A count stays at the greatest where it would pass it.
fn plus_if(count: u64, more: bool) -> u64
    ensures { result ≡ plus_if count more }
{
    if more { count.saturating_add(1) } else { count }
}

impl<'e, 's, D: Database> Engine<'e, 's, D> {
    fn is_error(&self, report: Report) -> bool
        requires { IsOf self.now.sessions report }
        ensures { (w : World D.State) → Stands D.Database self.now w → result ≡ is_error D.rules w.db report }
    {
        match report {
            Report::Ending { session } | Report::TornDown { session } => {
                self.db.fault(session).is_some()
            }
            _ => false,
        }
    }

    // Makes what happens happen, and counts it.
    fn count_event(
        &mut self,
        alloc: Global,
        event: Event,
        counts: Counts,
    ) -> Result<Counts, NoMemory>
        requires { MayCome D.Database self.old event }
        ensures leaves { OnOk result (Leaves D.Database (λ w. effect D.rules w event) self.old self.new) }
        ensures counts { IfOk result (λ n. (w : World D.State) → Stands D.Database self.old w → n ≡ with_event D.rules w counts event) }
        ensures falls { OnOk result (Falls D.Database self.old self.new) }
    {
        let steps = plus_if(counts.steps, is_launch(self.tasks, event));
        let report = self.apply(alloc, event)?;
        let waits = plus_if(counts.waits, is_wait(report));
        let errors = plus_if(counts.errors, self.is_error(report));
        Ok(Counts {
            steps,
            waits,
            errors,
        })
    }

    // Makes all happen that is left.
    fn count_to_end(&mut self, alloc: Global, counts: Counts) -> Result<Counts, NoMemory>
        ensures counted { IfOk result (λ n. (w : World D.State) → Stands D.Database self.old w → AreCounted D.Database w self.new counts n) }
        ensures ends { OnOk result ((w : World D.State) → Stands D.Database self.new w → next D.rules w ≡ None) }
    {
        let mut counts = counts;
        while let Some(event) = self.next() {
            counts = self.count_event(alloc, event, counts)?;
        }
        Ok(counts)
    }

    fn into_counted(self, counts: Counts) -> Counted<D>
        ensures end { result.end ≡ self.entry.end }
        ensures counts { result.counts ≡ counts }
        ensures db { result.db ≡ self.entry.db }
    {
        let Engine { db, end, .. } = self;
        Counted { end, counts, db }
    }
}

/// Runs the permutations over fresh databases like this one, counts, and prints nothing.
pub fn count<D: Database>(
    alloc: Global,
    db: D,
    permutations: &[Permutation<'_>],
) -> Result<Counted<D>, NoMemory>
    requires known { All (AreKnown (D.count db)) permutations.now }
    ensures { IfOk result (λ x. (v : D.State) → D.stands db v → (last : World D.State) × IsCounted D.rules D.good (start D.rules v (D.count db) permutations.now) x.end x.counts last × D.stands x.db last.db) }
{
    let none = Counts {
        steps: 0,
        waits: 0,
        errors: 0,
    };
    let mut engine = Engine::new(alloc, db, permutations)?;
    let counts = engine.count_to_end(alloc, none)?;
    Ok(engine.into_counted(counts))
}
