ghost use Rattle.std.specs.Prelude.{◌≡◌};

use crate::{Asker, Outcome, Place, Role, Settings};
use pg_values::{Fault, NoMemory, Refusal};
use schedule::Tally;
use std::alloc::Global;

/// Who runs the statements of sessions. Session 0 is the control session.
pub trait Executor: Sized + Drop {
    ghost use Rattle.std.specs.Prelude.{◌≡◌, ◌<◌, ◌≤◌, ◌++◌, ℕ, Bool, true, false, List, Ok, IfOk, OnOk, OnErr, IfSome, length, map, replicate, slice_index_or, slice_set};
    ghost use Rattle.schedule.specs.Rules.{Carries};
    ghost use Rattle.sessions.specs.Answers.{IsAnswerBy};
    ghost use Rattle.sessions.specs.Commits.{CommitsOnce, AreAsBefore, OthersAreAsBefore};
    ghost use Rattle.sessions.specs.Course.{Course};
    ghost use Rattle.sessions.specs.declared.outcome.Outcome.TheVariants.{Goes, Waits as IsWaiting};

    type Statement: Drop;

    /// What contracts see of a statement.
    ghost Tree: { Type 0 };

    ghost tree: { Self.Statement → Tree };

    /// What an executor stands for.
    ghost State: { Type 0 };

    /// What each call makes of it.
    ghost course: { Course State Tree };

    ghost stands: { Self → State → Type 0 };

    /// What holds of each state that an executor stands for.
    ghost good: { State → Type 0 };

    /// Whether the session has a transaction open, by session.
    ghost in_transaction: { Self → List Bool };

    /// Whether the session waits.
    ghost waiting: { Self → ℕ → Bool };

    /// Whether the session's wait is over.
    ghost due: { Self → ℕ → Bool };

    /// Whether the session's statement has committed what it did first, and goes on from there.
    ghost has_committed: { Self → ℕ → Tree → Bool };

    /// What can still happen before a statement is done or refused, as a number, and the most that it
    /// can be.
    ghost slack: { Self → ℕ };

    ghost most: { ℕ };

    /// The most statements of a block.
    ghost most_statements: { ℕ };

    /// How many sessions there are.
    fn sessions(&self) -> usize
        ensures { result ≡ length (in_transaction self.now) };

    /// One with the same options, in which nothing has happened.
    fn fresh(&self, alloc: Global) -> Result<Self, NoMemory>
        ensures stands { IfOk result (λ d. (v : State) → stands self.now v → stands d (course.fresh v)) }
        ensures transactions { IfOk result (λ d. in_transaction d ≡ replicate (length (in_transaction self.now)) false) }
        ensures slack { IfOk result (λ d. slack d ≤ most) };

    /// The statements of a block.
    fn parse(alloc: Global, text: &[u8]) -> Result<Vec<Self::Statement>, Refusal>
        ensures is { IsAnswerBy (λ ts. map tree ts.items) result (course.parsed text.now) }
        ensures few { IfOk result (λ ts. length ts.items ≤ most_statements) };

    fn role(statement: &Self::Statement) -> Role
        ensures { result ≡ course.role (tree statement.now) };

    /// Whether the statement takes a snapshot.
    fn looks(statement: &Self::Statement) -> bool
        ensures { result ≡ course.looks (tree statement.now) };

    /// Why the statement may not stand there.
    fn misplaced(
        alloc: Global,
        place: Place,
        statement: &Self::Statement,
    ) -> Result<Option<Fault>, NoMemory>
        ensures { IfOk result (λ f. f ≡ course.misplaced place (tree statement.now)) };

    /// The settings after a SET or a RESET.
    fn set(
        alloc: Global,
        settings: Settings,
        statement: &Self::Statement,
    ) -> Result<Settings, Refusal>
        ensures { IsAnswerBy (λ g. g) result (course.set settings (tree statement.now)) };

    /// The session's transaction begins.
    fn begin(&mut self, session: usize) -> Result<(), NoMemory>
        requires known { session < length (in_transaction self.old) }
        requires closed { slice_index_or (in_transaction self.old) session true ≡ false }
        requires free { waiting self.old session ≡ false }
        ensures stands { OnOk result (Carries stands (λ v. course.began v session) self.old self.new) }
        ensures transactions { OnOk result (in_transaction self.new ≡ slice_set (in_transaction self.old) session true) }
        ensures err { OnErr result (self.new ≡ self.old) }
        ensures committed { AreAsBefore (has_committed self.old) (has_committed self.new) }
        ensures free { waiting self.new session ≡ false }
        ensures slack { slack self.old ≤ most → slack self.new ≤ most };

    /// It is committed.
    fn commit(&mut self, session: usize)
        requires known { session < length (in_transaction self.old) }
        requires transaction { slice_index_or (in_transaction self.old) session false ≡ true }
        requires free { waiting self.old session ≡ false }
        ensures stands { Carries stands (λ v. course.committed v session) self.old self.new }
        ensures transactions { in_transaction self.new ≡ slice_set (in_transaction self.old) session false }
        ensures committed { AreAsBefore (has_committed self.old) (has_committed self.new) }
        ensures free { waiting self.new session ≡ false }
        ensures slack { slack self.old ≤ most → slack self.new ≤ most };

    /// It is aborted.
    fn abort(&mut self, session: usize)
        requires known { session < length (in_transaction self.old) }
        requires transaction { slice_index_or (in_transaction self.old) session false ≡ true }
        ensures stands { Carries stands (λ v. course.aborted v session) self.old self.new }
        ensures transactions { in_transaction self.new ≡ slice_set (in_transaction self.old) session false }
        ensures committed { AreAsBefore (has_committed self.old) (has_committed self.new) }
        ensures free { waiting self.new session ≡ false }
        ensures slack { slack self.old ≤ most → slack self.new ≤ most };

    /// A statement goes on by one small event, and appends what that prints.
    fn run(
        &mut self,
        alloc: Global,
        asker: Asker,
        settings: Settings,
        statement: &Self::Statement,
        out: &mut Vec<u8>,
    ) -> Result<Outcome, NoMemory>
        requires known { asker.session < length (in_transaction self.old) }
        requires transaction { slice_index_or (in_transaction self.old) asker.session false ≡ true }
        requires free { waiting self.old asker.session ≡ false }
        ensures stands { OnOk result (Carries stands (λ v. course.ran v asker settings (tree statement.now)) self.old self.new) }
        ensures outcome { IfOk result (λ o. (v : State) → stands self.old v → o ≡ course.outcome v asker settings (tree statement.now)) }
        ensures text { OnOk result ((v : State) → stands self.old v → out.new.items ≡ out.old.items ++ course.text v asker settings (tree statement.now)) }
        ensures transactions { in_transaction self.new ≡ in_transaction self.old }
        ensures once { IfOk result (λ o. CommitsOnce (has_committed self.old asker.session (tree statement.now)) (has_committed self.new asker.session (tree statement.now)) o) }
        ensures others { OnOk result (OthersAreAsBefore asker.session (has_committed self.old) (has_committed self.new)) }
        ensures free { IfOk result (λ o. (o ≡ IsWaiting → ⊥) → waiting self.new asker.session ≡ false) }
        ensures waits { result ≡ Ok IsWaiting → waiting self.new asker.session ≡ true }
        ensures slack { slack self.old ≤ most → slack self.new ≤ most }
        ensures lower { result ≡ Ok IsWaiting → slack self.new ≤ slack self.old }
        ensures lowers { result ≡ Ok Goes → slack self.new < slack self.old };

    /// The first session whose wait was cancelled by a statement of another one, and which has not
    /// gone on since.
    fn interrupted(&self) -> Option<usize>
        ensures is { (v : State) → stands self.now v → result ≡ course.interrupted v }
        ensures known { IfSome result (λ s. s < length (in_transaction self.now)) }
        ensures due { IfSome result (λ s. due self.now s ≡ true) };

    /// The oldest wait whose causes have gone.
    fn ready(&self) -> Option<usize>
        ensures is { (v : State) → stands self.now v → result ≡ course.ready v }
        ensures known { IfSome result (λ s. s < length (in_transaction self.now)) }
        ensures due { IfSome result (λ s. due self.now s ≡ true) };

    /// A session goes on whose wait is over.
    fn resume(&mut self, session: usize)
        requires known { session < length (in_transaction self.old) }
        requires due { due self.old session ≡ true }
        ensures stands { Carries stands (λ v. course.resumed v session) self.old self.new }
        ensures transactions { in_transaction self.new ≡ in_transaction self.old }
        ensures committed { AreAsBefore (has_committed self.old) (has_committed self.new) }
        ensures free { waiting self.new session ≡ false }
        ensures lowers { slack self.new < slack self.old };

    /// Whether the session waits.
    fn waits(&self, session: usize) -> bool
        requires known { session < length (in_transaction self.now) }
        ensures is { (v : State) → stands self.now v → result ≡ course.waits v session }
        ensures waiting { result ≡ waiting self.now session };

    /// The oldest wait.
    fn oldest(&self) -> Option<usize>
        ensures is { (v : State) → stands self.now v → result ≡ course.oldest v }
        ensures known { IfSome result (λ s. s < length (in_transaction self.now)) }
        ensures waiting { IfSome result (λ s. waiting self.now s ≡ true) };

    /// What statements have given and read up to now.
    fn tally(&self) -> Tally
        ensures { (v : State) → stands self.now v → result ≡ course.tally v };

    /// The session's wait is cancelled: its statement is refused as it goes on. The allocator is for the
    /// fault; no memory is taken.
    fn cancel(&mut self, alloc: Global, session: usize)
        requires known { session < length (in_transaction self.old) }
        requires waiting { waiting self.old session ≡ true }
        ensures stands { Carries stands (λ v. course.cancelled v session) self.old self.new }
        ensures transactions { in_transaction self.new ≡ in_transaction self.old }
        ensures committed { AreAsBefore (has_committed self.old) (has_committed self.new) }
        ensures free { waiting self.new session ≡ false }
        ensures lowers { slack self.new < slack self.old };

    /// Appends the code and the text of a fault.
    fn write_fault(alloc: Global, fault: &Fault, out: &mut Vec<u8>) -> Result<(), NoMemory>
        ensures ok { OnOk result (out.new.items ≡ out.old.items ++ course.fault_text fault.now) }
        ensures err { OnErr result (out.new.items ≡ out.old.items) };

    /// What each executor stands for is good.
    ghost stands_are_good: { (e : Self) (v : State) → stands e v → good v };
}
