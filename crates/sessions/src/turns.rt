ghost use Rattle.std.specs.Prelude.{◌≡◌, ◌<◌, ◌≤◌, ℕ, Bool, true, false, Ok, OnOk, IfOk, IfSome, MatchOption, Some, None, length, slice_index_or, slice_set};
ghost use Rattle.schedule.specs.declared.database.Progress.TheVariants as progress;
ghost use Rattle.sessions.specs.Commits.{AreAsBefore, OthersAreAsBefore};
ghost use Rattle.sessions.specs.Makes.{Makes};
ghost use Rattle.sessions.specs.Seen.{seen};
ghost use Rattle.sessions.specs.Sessions as spec;
ghost use Rattle.sessions.specs.Sessions.{has_open};
ghost use Rattle.sessions.specs.declared.phase.Phase.TheVariants as phases;
ghost use Rattle.sessions.specs.Weight.{most_points, points_in, points_with, weight_of};

use crate::levels::is_level;
use crate::session::Session;
use crate::transactions::{begin, begin_transaction, commit, fail, roll_back, set};
use crate::{Executor, Outcome, Phase, Role};
use pg_values::{Fault, Isolation, NoMemory};
use refusals::{isolation_level_after_a_snapshot, the_transaction_has_failed};
use schedule::Progress;
use std::alloc::Global;

// What the statement did so far is committed, and it goes on in another transaction.
#[tactic(auto, using(crate::proofs::Again::set_again))]
fn go_on_again<E: Executor>(
    executor: &mut E,
    session: usize,
    x: &mut Session<E::Statement>,
    statement: E::Statement,
) -> Result<Progress, NoMemory>
    requires opened { has_open x.old.phase ≡ true }
    requires busy { x.old.in_block ≡ true }
    requires known { session < length (E.in_transaction executor.old) }
    requires transaction { slice_index_or (E.in_transaction executor.old) session false ≡ has_open x.old.phase }
    requires free { E.waiting executor.old session ≡ false }
    requires slack { E.slack executor.old ≤ E.most }
    ensures makes { IfOk result (λ p. Makes E.stands (λ v. spec.goes_on_again E.course session v (seen E.tree x.old) (E.tree statement)) executor.old executor.new (seen E.tree x.new) p) }
    ensures transactions { E.in_transaction executor.new ≡ slice_set (E.in_transaction executor.old) session (has_open x.new.phase) }
    ensures committed { AreAsBefore (E.has_committed executor.old) (E.has_committed executor.new) }
    ensures slack { E.slack executor.new ≤ E.most }
    ensures goes { IfOk result (λ p. p ≡ progress.Goes) }
    ensures free { E.waiting executor.new session ≡ false }
    ensures points { OnOk result (points_in (E.has_committed executor.new) E.tree session x.new ≤ points_with (E.has_committed executor.old session (E.tree statement)) x.old) }
{
    commit(executor, session, x);
    begin_transaction(
        executor,
        session,
        x,
        Phase::Implicit,
        Isolation::ReadCommitted,
    )?;
    x.keep(statement)?;
    Ok(Progress::Goes)
}

// The statement goes on by one small event.
#[tactic(auto, using(crate::proofs::Weights::lower, crate::proofs::Weights::not_higher))]
fn run<E: Executor>(
    alloc: Global,
    executor: &mut E,
    session: usize,
    x: &mut Session<E::Statement>,
    statement: E::Statement,
) -> Result<Progress, NoMemory>
    requires opened { has_open x.old.phase ≡ true }
    requires busy { x.old.in_block ≡ true }
    requires known { session < length (E.in_transaction executor.old) }
    requires transaction { slice_index_or (E.in_transaction executor.old) session false ≡ has_open x.old.phase }
    requires free { E.waiting executor.old session ≡ false }
    requires slack { E.slack executor.old ≤ E.most }
    ensures makes { IfOk result (λ p. Makes E.stands (λ v. spec.runs E.course session v (seen E.tree x.old) (E.tree statement)) executor.old executor.new (seen E.tree x.new) p) }
    ensures transactions { E.in_transaction executor.new ≡ slice_set (E.in_transaction executor.old) session (has_open x.new.phase) }
    ensures others { OnOk result (OthersAreAsBefore session (E.has_committed executor.old) (E.has_committed executor.new)) }
    ensures slack { E.slack executor.new ≤ E.most }
    ensures free { result ≡ Ok progress.Goes → E.waiting executor.new session ≡ false }
    ensures waits { result ≡ Ok progress.Waits → E.waiting executor.new session ≡ true }
    ensures weight { OnOk result (weight_of E.most (E.slack executor.new) (points_in (E.has_committed executor.new) E.tree session x.new) ≤ weight_of E.most (E.slack executor.old) (points_with (E.has_committed executor.old session (E.tree statement)) x.old)) }
    ensures lighter { result ≡ Ok progress.Goes → weight_of E.most (E.slack executor.new) (points_in (E.has_committed executor.new) E.tree session x.new) < weight_of E.most (E.slack executor.old) (points_with (E.has_committed executor.old session (E.tree statement)) x.old) }
{
    let asker = x.asker(session);
    match executor.run(alloc, asker, x.settings, &statement, &mut x.told)? {
        Outcome::Goes => {
            x.keep(statement)?;
            Ok(Progress::Goes)
        }
        Outcome::Waits => {
            x.keep(statement)?;
            Ok(Progress::Waits)
        }
        Outcome::Commits => go_on_again(executor, session, x, statement),
        Outcome::Done => {
            x.done(E::looks(&statement));
            Ok(Progress::Goes)
        }
        Outcome::Refused(fault) => Ok(fail(executor, session, x, fault)),
    }
}

// Outside of a transaction a statement makes its block one.
#[tactic(auto, using(crate::proofs::Weights::lower, crate::proofs::Weights::not_higher))]
fn open_block<E: Executor>(
    executor: &mut E,
    session: usize,
    x: &mut Session<E::Statement>,
    statement: E::Statement,
) -> Result<Progress, NoMemory>
    requires closed { x.old.phase ≡ phases.Idle }
    requires busy { x.old.in_block ≡ true }
    requires known { session < length (E.in_transaction executor.old) }
    requires transaction { slice_index_or (E.in_transaction executor.old) session false ≡ has_open x.old.phase }
    requires free { E.waiting executor.old session ≡ false }
    requires slack { E.slack executor.old ≤ E.most }
    ensures makes { IfOk result (λ p. Makes E.stands (λ v. spec.opens E.course session v (seen E.tree x.old) (E.tree statement)) executor.old executor.new (seen E.tree x.new) p) }
    ensures transactions { E.in_transaction executor.new ≡ slice_set (E.in_transaction executor.old) session (has_open x.new.phase) }
    ensures committed { AreAsBefore (E.has_committed executor.old) (E.has_committed executor.new) }
    ensures slack { E.slack executor.new ≤ E.most }
    ensures free { result ≡ Ok progress.Goes → E.waiting executor.new session ≡ false }
    ensures waits { result ≡ Ok progress.Waits → E.waiting executor.new session ≡ true }
    ensures weight { OnOk result (weight_of E.most (E.slack executor.new) (points_in (E.has_committed executor.new) E.tree session x.new) ≤ weight_of E.most (E.slack executor.old) (points_with (E.has_committed executor.old session (E.tree statement)) x.old)) }
    ensures lighter { result ≡ Ok progress.Goes → weight_of E.most (E.slack executor.new) (points_in (E.has_committed executor.new) E.tree session x.new) < weight_of E.most (E.slack executor.old) (points_with (E.has_committed executor.old session (E.tree statement)) x.old) }
{
    begin_transaction(
        executor,
        session,
        x,
        Phase::Implicit,
        Isolation::ReadCommitted,
    )?;
    x.keep(statement)?;
    Ok(Progress::Goes)
}

// A statement that was taken from the front of the block.
#[tactic(auto, using(crate::proofs::Weights::lower, crate::proofs::Weights::not_higher))]
fn perform<E: Executor>(
    alloc: Global,
    executor: &mut E,
    session: usize,
    x: &mut Session<E::Statement>,
    statement: E::Statement,
) -> Result<Progress, NoMemory>
    requires busy { x.old.in_block ≡ true }
    requires known { session < length (E.in_transaction executor.old) }
    requires transaction { slice_index_or (E.in_transaction executor.old) session false ≡ has_open x.old.phase }
    requires free { E.waiting executor.old session ≡ false }
    requires slack { E.slack executor.old ≤ E.most }
    ensures makes { IfOk result (λ p. Makes E.stands (λ v. spec.by_role E.course session v (seen E.tree x.old) (E.tree statement) (E.course.role (E.tree statement))) executor.old executor.new (seen E.tree x.new) p) }
    ensures transactions { E.in_transaction executor.new ≡ slice_set (E.in_transaction executor.old) session (has_open x.new.phase) }
    ensures others { OnOk result (OthersAreAsBefore session (E.has_committed executor.old) (E.has_committed executor.new)) }
    ensures slack { E.slack executor.new ≤ E.most }
    ensures free { result ≡ Ok progress.Goes → E.waiting executor.new session ≡ false }
    ensures waits { result ≡ Ok progress.Waits → E.waiting executor.new session ≡ true }
    ensures weight { OnOk result (weight_of E.most (E.slack executor.new) (points_in (E.has_committed executor.new) E.tree session x.new) ≤ weight_of E.most (E.slack executor.old) (points_with (E.has_committed executor.old session (E.tree statement)) x.old)) }
    ensures lighter { result ≡ Ok progress.Goes → weight_of E.most (E.slack executor.new) (points_in (E.has_committed executor.new) E.tree session x.new) < weight_of E.most (E.slack executor.old) (points_with (E.has_committed executor.old session (E.tree statement)) x.old) }
{
    match E::role(&statement) {
        Role::Begin(level) => begin(executor, session, x, level),
        Role::Commit => Ok(commit(executor, session, x)),
        Role::Rollback => Ok(roll_back(executor, session, x)),
        Role::Set => match x.phase {
            Phase::Idle => open_block(executor, session, x, statement),
            Phase::Implicit | Phase::Explicit => set(alloc, executor, session, x, &statement),
            Phase::Failed => Ok(Progress::Goes),
        },
        Role::Query => match x.phase {
            Phase::Idle => open_block(executor, session, x, statement),
            Phase::Implicit | Phase::Explicit => run(alloc, executor, session, x, statement),
            Phase::Failed => Ok(Progress::Goes),
        },
    }
}

fn level_fault<T: Drop>(
    alloc: Global,
    x: &Session<T>,
    level: Option<Isolation>,
) -> Result<Option<Fault>, NoMemory>
    ensures { IfOk result (λ f. f ≡ spec.level_fault x.now level) }
{
    match level {
        None => Ok(None),
        Some(level) => {
            if x.has_open() && x.looked && !is_level(level, x.level) {
                Ok(Some(isolation_level_after_a_snapshot(alloc)?))
            } else {
                Ok(None)
            }
        }
    }
}

// Why the statement may not come in the session's state.
fn state_fault<E: Executor>(
    alloc: Global,
    x: &Session<E::Statement>,
    statement: &E::Statement,
) -> Result<Option<Fault>, NoMemory>
    ensures { IfOk result (λ f. f ≡ spec.state_fault E.course (seen E.tree x.now) (E.tree statement.now)) }
{
    let role = E::role(statement);
    if x.phase == Phase::Failed {
        return Ok(match role {
            Role::Commit | Role::Rollback => None,
            Role::Begin(_) | Role::Set | Role::Query => Some(the_transaction_has_failed(alloc)),
        });
    }
    match role {
        Role::Begin(level) => level_fault(alloc, x, level),
        Role::Query => E::misplaced(alloc, x.place(), statement),
        Role::Commit | Role::Rollback | Role::Set => Ok(None),
    }
}

// The end of a block.
#[tactic(auto, using(crate::proofs::Weights::lower, crate::proofs::Weights::not_higher))]
fn close<E: Executor>(executor: &mut E, session: usize, x: &mut Session<E::Statement>) -> Progress
    requires busy { x.old.in_block ≡ true }
    requires known { session < length (E.in_transaction executor.old) }
    requires transaction { slice_index_or (E.in_transaction executor.old) session false ≡ has_open x.old.phase }
    requires free { E.waiting executor.old session ≡ false }
    requires slack { E.slack executor.old ≤ E.most }
    ensures makes { Makes E.stands (λ v. spec.closes E.course session v (seen E.tree x.old) x.old.phase) executor.old executor.new (seen E.tree x.new) result }
    ensures ended { result ≡ progress.Ended }
    ensures transactions { E.in_transaction executor.new ≡ slice_set (E.in_transaction executor.old) session (has_open x.new.phase) }
    ensures committed { AreAsBefore (E.has_committed executor.old) (E.has_committed executor.new) }
    ensures slack { E.slack executor.new ≤ E.most }
    ensures points { most_points x.new ≡ 0 }
{
    if x.phase == Phase::Implicit {
        executor.commit(session);
        x.phase = Phase::Idle;
    }
    x.in_block = false;
    Progress::Ended
}

// The next statement of the block, taken from its front.
#[tactic(auto, using(crate::proofs::Fronts::head_map, crate::proofs::Fronts::tail_map))]
fn take_next<E: Executor>(x: &mut Session<E::Statement>) -> Option<E::Statement>
    ensures next { MatchOption result (spec.head_of (seen E.tree x.old).rest ≡ None) (λ t. spec.head_of (seen E.tree x.old).rest ≡ Some (E.tree t)) }
    ensures rest { seen E.tree x.new ≡ record (seen E.tree x.old) { rest = spec.tail (seen E.tree x.old).rest } }
    ensures points { x.old.in_block ≡ true → IfSome result (λ t. (committed : ℕ → E.Tree → Bool) (s : ℕ) → points_in committed E.tree s x.old ≡ points_with (committed s (E.tree t)) x.new) }
    ensures others { (x.new.phase ≡ x.old.phase) × (x.new.in_block ≡ x.old.in_block) }
{
    x.take_next()
}

// A statement that was taken from the front of the block, unless the session's state refuses it.
#[tactic(auto, using(crate::proofs::Weights::lower, crate::proofs::Weights::not_higher))]
fn meet<E: Executor>(
    alloc: Global,
    executor: &mut E,
    session: usize,
    x: &mut Session<E::Statement>,
    statement: E::Statement,
) -> Result<Progress, NoMemory>
    requires busy { x.old.in_block ≡ true }
    requires known { session < length (E.in_transaction executor.old) }
    requires transaction { slice_index_or (E.in_transaction executor.old) session false ≡ has_open x.old.phase }
    requires free { E.waiting executor.old session ≡ false }
    requires slack { E.slack executor.old ≤ E.most }
    ensures makes { IfOk result (λ p. Makes E.stands (λ v. spec.meets E.course session v (seen E.tree x.old) (E.tree statement)) executor.old executor.new (seen E.tree x.new) p) }
    ensures transactions { E.in_transaction executor.new ≡ slice_set (E.in_transaction executor.old) session (has_open x.new.phase) }
    ensures others { OnOk result (OthersAreAsBefore session (E.has_committed executor.old) (E.has_committed executor.new)) }
    ensures slack { E.slack executor.new ≤ E.most }
    ensures free { result ≡ Ok progress.Goes → E.waiting executor.new session ≡ false }
    ensures waits { result ≡ Ok progress.Waits → E.waiting executor.new session ≡ true }
    ensures weight { OnOk result (weight_of E.most (E.slack executor.new) (points_in (E.has_committed executor.new) E.tree session x.new) ≤ weight_of E.most (E.slack executor.old) (points_with (E.has_committed executor.old session (E.tree statement)) x.old)) }
    ensures lighter { result ≡ Ok progress.Goes → weight_of E.most (E.slack executor.new) (points_in (E.has_committed executor.new) E.tree session x.new) < weight_of E.most (E.slack executor.old) (points_with (E.has_committed executor.old session (E.tree statement)) x.old) }
{
    match state_fault::<E>(alloc, x, &statement)? {
        Some(fault) => Ok(fail(executor, session, x, fault)),
        None => perform(alloc, executor, session, x, statement),
    }
}

// The next statement of the block, or its end.
#[tactic(auto, using(crate::proofs::Weights::lower, crate::proofs::Weights::not_higher))]
fn next<E: Executor>(
    alloc: Global,
    executor: &mut E,
    session: usize,
    x: &mut Session<E::Statement>,
) -> Result<Progress, NoMemory>
    requires busy { x.old.in_block ≡ true }
    requires known { session < length (E.in_transaction executor.old) }
    requires transaction { slice_index_or (E.in_transaction executor.old) session false ≡ has_open x.old.phase }
    requires free { E.waiting executor.old session ≡ false }
    requires slack { E.slack executor.old ≤ E.most }
    ensures makes { IfOk result (λ p. Makes E.stands (λ v. spec.by_next E.course session v (seen E.tree x.old) (spec.head_of (seen E.tree x.old).rest)) executor.old executor.new (seen E.tree x.new) p) }
    ensures transactions { E.in_transaction executor.new ≡ slice_set (E.in_transaction executor.old) session (has_open x.new.phase) }
    ensures others { OnOk result (OthersAreAsBefore session (E.has_committed executor.old) (E.has_committed executor.new)) }
    ensures slack { E.slack executor.new ≤ E.most }
    ensures free { result ≡ Ok progress.Goes → E.waiting executor.new session ≡ false }
    ensures waits { result ≡ Ok progress.Waits → E.waiting executor.new session ≡ true }
    ensures weight { OnOk result (weight_of E.most (E.slack executor.new) (points_in (E.has_committed executor.new) E.tree session x.new) ≤ weight_of E.most (E.slack executor.old) (points_in (E.has_committed executor.old) E.tree session x.old)) }
    ensures lighter { result ≡ Ok progress.Goes → weight_of E.most (E.slack executor.new) (points_in (E.has_committed executor.new) E.tree session x.new) < weight_of E.most (E.slack executor.old) (points_in (E.has_committed executor.old) E.tree session x.old) }
{
    match take_next::<E>(x) {
        Some(statement) => meet(alloc, executor, session, x, statement),
        None => Ok(close(executor, session, x)),
    }
}

/// The session goes on by one small event.
#[tactic(auto, using(crate::proofs::Weights::lower, crate::proofs::Weights::not_higher))]
pub(crate) fn turn<E: Executor>(
    alloc: Global,
    executor: &mut E,
    session: usize,
    x: &mut Session<E::Statement>,
) -> Result<Progress, NoMemory>
    requires known { session < length (E.in_transaction executor.old) }
    requires transaction { slice_index_or (E.in_transaction executor.old) session false ≡ has_open x.old.phase }
    requires free { E.waiting executor.old session ≡ false }
    requires slack { E.slack executor.old ≤ E.most }
    ensures makes { IfOk result (λ p. Makes E.stands (λ v. spec.turns E.course session v (seen E.tree x.old)) executor.old executor.new (seen E.tree x.new) p) }
    ensures transactions { E.in_transaction executor.new ≡ slice_set (E.in_transaction executor.old) session (has_open x.new.phase) }
    ensures others { OnOk result (OthersAreAsBefore session (E.has_committed executor.old) (E.has_committed executor.new)) }
    ensures slack { E.slack executor.new ≤ E.most }
    ensures free { result ≡ Ok progress.Goes → E.waiting executor.new session ≡ false }
    ensures waits { result ≡ Ok progress.Waits → E.waiting executor.new session ≡ true }
    ensures weight { OnOk result (weight_of E.most (E.slack executor.new) (points_in (E.has_committed executor.new) E.tree session x.new) ≤ weight_of E.most (E.slack executor.old) (points_in (E.has_committed executor.old) E.tree session x.old)) }
    ensures lighter { result ≡ Ok progress.Goes → weight_of E.most (E.slack executor.new) (points_in (E.has_committed executor.new) E.tree session x.new) < weight_of E.most (E.slack executor.old) (points_in (E.has_committed executor.old) E.tree session x.old) }
{
    if !x.in_block {
        return Ok(Progress::Ended);
    }
    match x.why_broken() {
        Some(fault) => Ok(fail(executor, session, x, fault)),
        None => next(alloc, executor, session, x),
    }
}
