//! The beginnings and ends of transactions, and settings, in the turn of a session.

ghost use Rattle.std.specs.Prelude.{◌≡◌, ◌<◌, ◌≤◌, ◌+◌, true, false, Ok, OnOk, OnErr, IfOk, length, slice_index_or, slice_set, unwrap_or};
ghost use Rattle.schedule.specs.Rules.{Carries};
ghost use Rattle.schedule.specs.declared.database.Progress.TheVariants as progress;
ghost use Rattle.sessions.specs.Commits.{AreAsBefore};
ghost use Rattle.sessions.specs.Makes.{Makes};
ghost use Rattle.sessions.specs.Seen.{seen};
ghost use Rattle.sessions.specs.Sessions as spec;
ghost use Rattle.sessions.specs.Sessions.{has_open};
ghost use Rattle.sessions.specs.declared.phase.Phase.TheVariants as phases;
ghost use Rattle.sessions.specs.Weight.{most_points};

use crate::session::Session;
use crate::{Executor, Phase};
use pg_values::{Fault, Isolation, NoMemory, Refusal};
use schedule::Progress;
use std::alloc::Global;

// What the session has open is aborted.
fn abort_open<E: Executor>(executor: &mut E, session: usize, x: &Session<E::Statement>)
    requires known { session < length (E.in_transaction executor.old) }
    requires transaction { slice_index_or (E.in_transaction executor.old) session false ≡ has_open x.now.phase }
    requires slack { E.slack executor.old ≤ E.most }
    ensures stands { Carries E.stands (λ v. spec.aborted_if E.course session (has_open x.now.phase) v) executor.old executor.new }
    ensures transactions { E.in_transaction executor.new ≡ slice_set (E.in_transaction executor.old) session false }
    ensures committed { AreAsBefore (E.has_committed executor.old) (E.has_committed executor.new) }
    ensures slack { E.slack executor.new ≤ E.most }
    ensures free { E.waiting executor.old session ≡ false → E.waiting executor.new session ≡ false }
{
    if x.has_open() {
        executor.abort(session);
    }
}

// A statement fails.
pub(crate) fn fail<E: Executor>(
    executor: &mut E,
    session: usize,
    x: &mut Session<E::Statement>,
    fault: Fault,
) -> Progress
    requires known { session < length (E.in_transaction executor.old) }
    requires transaction { slice_index_or (E.in_transaction executor.old) session false ≡ has_open x.old.phase }
    requires slack { E.slack executor.old ≤ E.most }
    ensures makes { Makes E.stands (λ v. spec.fails E.course session v (seen E.tree x.old) fault) executor.old executor.new (seen E.tree x.new) result }
    ensures ended { result ≡ progress.Ended }
    ensures transactions { E.in_transaction executor.new ≡ slice_set (E.in_transaction executor.old) session (has_open x.new.phase) }
    ensures committed { AreAsBefore (E.has_committed executor.old) (E.has_committed executor.new) }
    ensures slack { E.slack executor.new ≤ E.most }
    ensures points { most_points x.new ≡ 0 }
{
    abort_open(executor, session, x);
    x.fail(fault);
    Progress::Ended
}

// A transaction begins.
pub(crate) fn begin_transaction<E: Executor>(
    executor: &mut E,
    session: usize,
    x: &mut Session<E::Statement>,
    phase: Phase,
    level: Isolation,
) -> Result<(), NoMemory>
    requires opens { has_open phase ≡ true }
    requires closed { has_open x.old.phase ≡ false }
    requires known { session < length (E.in_transaction executor.old) }
    requires transaction { slice_index_or (E.in_transaction executor.old) session false ≡ has_open x.old.phase }
    requires free { E.waiting executor.old session ≡ false }
    requires slack { E.slack executor.old ≤ E.most }
    ensures stands { OnOk result (Carries E.stands (λ v. E.course.began v session) executor.old executor.new) }
    ensures becomes { OnOk result (seen E.tree x.new ≡ spec.opened (seen E.tree x.old) phase level) }
    ensures begins { OnOk result (x.new ≡ spec.opened x.old phase level) }
    ensures err { OnErr result (x.new ≡ x.old) }
    ensures transactions { E.in_transaction executor.new ≡ slice_set (E.in_transaction executor.old) session (has_open x.new.phase) }
    ensures committed { AreAsBefore (E.has_committed executor.old) (E.has_committed executor.new) }
    ensures slack { E.slack executor.new ≤ E.most }
    ensures free { E.waiting executor.new session ≡ false }
{
    executor.begin(session)?;
    x.begin(phase, level);
    Ok(())
}

// BEGIN.
pub(crate) fn begin<E: Executor>(
    executor: &mut E,
    session: usize,
    x: &mut Session<E::Statement>,
    level: Option<Isolation>,
) -> Result<Progress, NoMemory>
    requires known { session < length (E.in_transaction executor.old) }
    requires transaction { slice_index_or (E.in_transaction executor.old) session false ≡ has_open x.old.phase }
    requires free { E.waiting executor.old session ≡ false }
    requires slack { E.slack executor.old ≤ E.most }
    ensures makes { IfOk result (λ p. Makes E.stands (λ v. spec.begins E.course session v (seen E.tree x.old) level x.old.phase) executor.old executor.new (seen E.tree x.new) p) }
    ensures transactions { E.in_transaction executor.new ≡ slice_set (E.in_transaction executor.old) session (has_open x.new.phase) }
    ensures committed { AreAsBefore (E.has_committed executor.old) (E.has_committed executor.new) }
    ensures slack { E.slack executor.new ≤ E.most }
    ensures goes { IfOk result (λ p. p ≡ progress.Goes) }
    ensures free { E.waiting executor.new session ≡ false }
    ensures points { OnOk result (most_points x.new ≤ most_points x.old + 1) }
{
    match x.phase {
        Phase::Idle => {
            let level = level.unwrap_or(Isolation::ReadCommitted);
            begin_transaction(executor, session, x, Phase::Explicit, level)?;
        }
        Phase::Implicit => {
            x.phase = Phase::Explicit;
            x.level = level.unwrap_or(x.level);
        }
        Phase::Explicit => x.level = level.unwrap_or(x.level),
        Phase::Failed => {}
    }
    Ok(Progress::Goes)
}

// COMMIT.
pub(crate) fn commit<E: Executor>(
    executor: &mut E,
    session: usize,
    x: &mut Session<E::Statement>,
) -> Progress
    requires known { session < length (E.in_transaction executor.old) }
    requires transaction { slice_index_or (E.in_transaction executor.old) session false ≡ has_open x.old.phase }
    requires free { E.waiting executor.old session ≡ false }
    requires slack { E.slack executor.old ≤ E.most }
    ensures makes { Makes E.stands (λ v. spec.commits E.course session v (seen E.tree x.old) x.old.phase) executor.old executor.new (seen E.tree x.new) result }
    ensures transactions { E.in_transaction executor.new ≡ slice_set (E.in_transaction executor.old) session (has_open x.new.phase) }
    ensures committed { AreAsBefore (E.has_committed executor.old) (E.has_committed executor.new) }
    ensures slack { E.slack executor.new ≤ E.most }
    ensures goes { result ≡ progress.Goes }
    ensures free { E.waiting executor.new session ≡ false }
    ensures points { most_points x.new ≤ most_points x.old + 1 }
    ensures becomes { x.new ≡ record x.old { phase = phases.Idle } }
{
    if x.has_open() {
        executor.commit(session);
    }
    x.phase = Phase::Idle;
    Progress::Goes
}

// ROLLBACK, or the end of the steps.
pub(crate) fn roll_back<E: Executor>(
    executor: &mut E,
    session: usize,
    x: &mut Session<E::Statement>,
) -> Progress
    requires known { session < length (E.in_transaction executor.old) }
    requires transaction { slice_index_or (E.in_transaction executor.old) session false ≡ has_open x.old.phase }
    requires slack { E.slack executor.old ≤ E.most }
    ensures makes { Makes E.stands (λ v. spec.rolls_back E.course session v (seen E.tree x.old)) executor.old executor.new (seen E.tree x.new) result }
    ensures transactions { E.in_transaction executor.new ≡ slice_set (E.in_transaction executor.old) session (has_open x.new.phase) }
    ensures committed { AreAsBefore (E.has_committed executor.old) (E.has_committed executor.new) }
    ensures slack { E.slack executor.new ≤ E.most }
    ensures goes { result ≡ progress.Goes }
    ensures free { E.waiting executor.old session ≡ false → E.waiting executor.new session ≡ false }
    ensures points { most_points x.new ≤ most_points x.old + 1 }
{
    abort_open(executor, session, x);
    x.roll_back();
    Progress::Goes
}

// SET or RESET.
pub(crate) fn set<E: Executor>(
    alloc: Global,
    executor: &mut E,
    session: usize,
    x: &mut Session<E::Statement>,
    statement: &E::Statement,
) -> Result<Progress, NoMemory>
    requires known { session < length (E.in_transaction executor.old) }
    requires transaction { slice_index_or (E.in_transaction executor.old) session false ≡ has_open x.old.phase }
    requires free { E.waiting executor.old session ≡ false }
    requires slack { E.slack executor.old ≤ E.most }
    ensures makes { IfOk result (λ p. Makes E.stands (λ v. spec.sets E.course session v (seen E.tree x.old) (E.course.set x.old.settings (E.tree statement.now))) executor.old executor.new (seen E.tree x.new) p) }
    ensures transactions { E.in_transaction executor.new ≡ slice_set (E.in_transaction executor.old) session (has_open x.new.phase) }
    ensures committed { AreAsBefore (E.has_committed executor.old) (E.has_committed executor.new) }
    ensures slack { E.slack executor.new ≤ E.most }
    ensures free { OnOk result (result ≡ Ok progress.Goes → E.waiting executor.new session ≡ false) }
    ensures strides { IfOk result (λ p. p ≡ progress.Waits → ⊥) }
    ensures points { OnOk result (most_points x.new ≤ most_points x.old + 1) }
{
    match E::set(alloc, x.settings, statement) {
        Ok(settings) => {
            x.settings = settings;
            Ok(Progress::Goes)
        }
        Err(Refusal::Sql(fault)) => Ok(fail(executor, session, x, fault)),
        Err(Refusal::NoMemory) => Err(NoMemory),
    }
}
