ghost use Rattle.std.specs.Prelude.{◌≡◌, ◌<◌, ◌≤◌, ◌+◌, ◌++◌, ℕ, Bool, true, false, Ok, IfOk, OnOk, OnErr, IfSome, option_copied};
ghost use Rattle.schedule.specs.Rules.{Rules, Carries};

use crate::block::BlockKind;
use crate::tally::Tally;
use pg_values::{Fault, NoMemory};
use std::alloc::Global;

/// What one small event of a session comes to.
#[derive(Clone, Copy, Debug, PartialEq, Eq)]
pub enum Progress {
    /// The session goes on.
    Goes,
    /// Its statement waits.
    Waits,
    /// Its block has ended, well or with a failure.
    Ended,
}

/// A database with sessions, each of which runs a block by small events. Session 0 is the control
/// session.
pub trait Database: Sized + Drop {
    ghost use Rattle.std.specs.Prelude.{◌≡◌, ◌<◌, ◌≤◌, ◌+◌, ◌++◌, ℕ, Bool, true, false, Ok, IfOk, OnOk, OnErr, IfSome, option_copied};
    ghost use Rattle.schedule.specs.Rules.{Rules, Carries};
    ghost use Rattle.schedule.specs.declared.database.Progress.TheVariants.{Goes, Waits as IsWaiting};

    /// What a database stands for.
    ghost State: { Type 0 };

    /// What each call makes of it.
    ghost rules: { Rules State };

    ghost stands: { Self → State → Type 0 };

    /// What holds of each state that a database stands for.
    ghost good: { State → Type 0 };

    /// How many sessions there are.
    ghost count: { Self → ℕ };

    /// Whether the session waits.
    ghost waiting: { Self → ℕ → Bool };

    /// Whether the session's wait is over.
    ghost due: { Self → ℕ → Bool };

    /// What can still happen before the next block, as a number.
    ghost weight: { Self → ℕ };

    /// The most that a block, a rollback or a fresh database adds to it.
    ghost cost: { ℕ };

    /// How many sessions there are, the control session among them.
    fn sessions(&self) -> usize
        ensures { result ≡ count self.now };

    /// One with the same sessions, options and tally, in which nothing has happened yet.
    fn fresh(&self, alloc: Global) -> Result<Self, NoMemory>
        ensures stands { IfOk result (λ d. (v : State) → stands self.now v → stands d (rules.fresh v)) }
        ensures count { IfOk result (λ d. count d ≡ count self.now) }
        ensures weight { IfOk result (λ d. weight d ≤ cost) };

    /// The session begins a block.
    fn begin(
        &mut self,
        alloc: Global,
        session: usize,
        kind: BlockKind,
        text: &[u8],
    ) -> Result<(), NoMemory>
        requires known { session < count self.old }
        requires free { waiting self.old session ≡ false }
        ensures stands { OnOk result (Carries stands (λ v. rules.begun v session kind text.now) self.old self.new) }
        ensures free { OnOk result (waiting self.new session ≡ false) }
        ensures count { count self.new ≡ count self.old }
        ensures weight { OnOk result (weight self.new ≤ weight self.old + cost) }
        ensures err { OnErr result (self.new ≡ self.old) };

    /// It goes on by one small event.
    fn step(&mut self, alloc: Global, session: usize) -> Result<Progress, NoMemory>
        requires known { session < count self.old }
        requires free { waiting self.old session ≡ false }
        ensures stands { OnOk result (Carries stands (λ v. rules.stepped v session) self.old self.new) }
        ensures progress { IfOk result (λ p. (v : State) → stands self.old v → p ≡ rules.progress v session) }
        ensures free { result ≡ Ok Goes → waiting self.new session ≡ false }
        ensures waits { result ≡ Ok IsWaiting → waiting self.new session ≡ true }
        ensures count { count self.new ≡ count self.old }
        ensures weight { OnOk result (weight self.new ≤ weight self.old) }
        ensures lighter { result ≡ Ok Goes → weight self.new < weight self.old };

    /// The first session whose wait was cancelled by a statement of another one, and which has not
    /// gone on since.
    fn interrupted(&self) -> Option<usize>
        ensures is { (v : State) → stands self.now v → result ≡ rules.interrupted v }
        ensures known { IfSome result (λ s. s < count self.now) }
        ensures due { IfSome result (λ s. due self.now s ≡ true) };

    /// The oldest wait whose causes have gone.
    fn ready(&self) -> Option<usize>
        ensures is { (v : State) → stands self.now v → result ≡ rules.ready v }
        ensures known { IfSome result (λ s. s < count self.now) }
        ensures due { IfSome result (λ s. due self.now s ≡ true) };

    /// A session goes on whose wait is over.
    fn resume(&mut self, session: usize)
        requires known { session < count self.old }
        requires due { due self.old session ≡ true }
        ensures stands { Carries stands (λ v. rules.resumed v session) self.old self.new }
        ensures free { waiting self.new session ≡ false }
        ensures count { count self.new ≡ count self.old }
        ensures lighter { weight self.new < weight self.old };

    /// Whether the session waits.
    fn waits(&self, session: usize) -> bool
        requires known { session < count self.now }
        ensures is { (v : State) → stands self.now v → result ≡ rules.waits v session }
        ensures waiting { result ≡ waiting self.now session };

    /// The oldest wait.
    fn oldest(&self) -> Option<usize>
        ensures is { (v : State) → stands self.now v → result ≡ rules.oldest v }
        ensures known { IfSome result (λ s. s < count self.now) }
        ensures waiting { IfSome result (λ s. waiting self.now s ≡ true) };

    /// The session's wait is cancelled: its block ends with a failure as it goes on.
    /// The allocator is for the failure; no memory is taken.
    fn cancel(&mut self, alloc: Global, session: usize)
        requires known { session < count self.old }
        requires waiting { waiting self.old session ≡ true }
        ensures stands { Carries stands (λ v. rules.cancelled v session) self.old self.new }
        ensures free { waiting self.new session ≡ false }
        ensures count { count self.new ≡ count self.old }
        ensures lighter { weight self.new < weight self.old };

    /// What the session has open is rolled back.
    fn roll_back(&mut self, session: usize)
        requires known { session < count self.old }
        ensures stands { Carries stands (λ v. rules.rolled_back v session) self.old self.new }
        ensures count { count self.new ≡ count self.old }
        ensures weight { weight self.new ≤ weight self.old + cost };

    /// What the session's block has printed.
    fn report(&self, session: usize) -> &[u8]
        requires known { session < count self.now }
        ensures is { (v : State) → stands self.now v → result.now ≡ rules.report v session };

    /// Why the session's block has failed, if it has.
    fn fault(&self, session: usize) -> Option<&Fault>
        requires known { session < count self.now }
        ensures is { (v : State) → stands self.now v → option_copied result ≡ rules.fault v session };

    /// What its statements have given and read up to now.
    fn tally(&self) -> Tally
        ensures { (v : State) → stands self.now v → result ≡ rules.tally v };

    /// Appends the code and the text of a fault.
    fn write_fault(alloc: Global, fault: &Fault, out: &mut Vec<u8>) -> Result<(), NoMemory>
        ensures ok { OnOk result (out.new.items ≡ out.old.items ++ rules.fault_text fault.now) }
        ensures err { OnErr result (out.new.items ≡ out.old.items) };

    /// What each database stands for is good.
    ghost stands_are_good: { (d : Self) (v : State) → stands d v → good v };
}
