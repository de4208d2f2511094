ghost use Rattle.std.specs.Prelude.{◌≡◌, ◌<◌, true, false, Some, None, length, slice_index_or};
ghost use Rattle.history.specs.declared.wait.Wanted.TheVariants.{Lock, Others};
ghost use Rattle.history.specs.Waits.{ready};
ghost use Rattle.history.specs.History.{History, tx_events, catalogue_events, lock_events};
ghost use Rattle.lock_table.specs.Answers.{IsAnswer, after, left_waiting, unopposed};
ghost use Rattle.lock_table.specs.Stands.{TableStands, IsIdle, OthersWait, names};
ghost use Rattle.soundness.specs.Parts.{IsKnown};
ghost use Rattle.stores.specs.Events.{withdrawn, resumed};
ghost use Rattle.stores.specs.Stand.{AllStand, Stands, Adds, AddsGood, IsSameSize};

use crate::Stores;
use history::WaitOn;
use lock_table::Asked;
use pg_values::{LockMode, SessionList, TableNo};

impl Stores {
    /// A session that does not wait asks for a lock on a table.
    pub fn request(&mut self, session: u32, table: TableNo, mode: LockMode) -> Asked
        requires session { session < length self.old.locks.wants }
        requires table { table.number < self.old.locks.tables }
        requires idle { IsIdle self.old.locks session }
        ensures answer { (h : History) → AllStand self.old h → IsAnswer (lock_events h) session (Lock table mode) result }
        ensures added { (h : History) → AllStand self.old h → AllStand self.new (after session (Lock table mode) result h) }
        ensures good { (h : History) → Stands self.old h → IsKnown (tx_events h) (catalogue_events h) session table.number →
            Stands self.new (after session (Lock table mode) result h) }
        ensures refused { (cycle : SessionList) → result ≡ Asked.Deadlock cycle → self.new ≡ self.old }
        ensures waits { slice_index_or self.new.locks.wants session None ≡ left_waiting (Lock table mode) result }
        ensures others { OthersWait session self.old.locks self.new.locks }
        ensures rest { self.new ≡ record self.old { locks = self.new.locks } }
        ensures size { IsSameSize self.old self.new }
    {
        self.locks.request(session, table, mode)
    }

    /// A session that does not wait gets a lock at once, where nobody waits and nobody holds a mode on the
    /// table that conflicts. It says whether it was so; else nothing has changed, and the session may ask.
    #[inline(always)]
    pub fn take_unopposed(&mut self, session: u32, table: TableNo, mode: LockMode) -> bool
        requires session { session < length self.old.locks.wants }
        requires table { table.number < self.old.locks.tables }
        requires idle { IsIdle self.old.locks session }
        ensures is { (h : History) → AllStand self.old h → result ≡ unopposed (lock_events h) table.number mode }
        ensures answer { result ≡ true → (h : History) → AllStand self.old h → IsAnswer (lock_events h) session (Lock table mode) Asked.Granted }
        ensures good { result ≡ true → (h : History) → Stands self.old h → IsKnown (tx_events h) (catalogue_events h) session table.number →
            Stands self.new (after session (Lock table mode) Asked.Granted h) }
        ensures same { result ≡ false → self.new ≡ self.old }
        ensures waits { self.new.locks.wants ≡ self.old.locks.wants }
        ensures rest { self.new ≡ record self.old { locks = self.new.locks } }
        ensures size { IsSameSize self.old self.new }
    {
        self.locks.take_unopposed(session, table, mode)
    }

    /// A session that does not wait asks to go on when other sessions have given something up.
    pub fn wait_on(&mut self, session: u32, what: WaitOn) -> Asked
        requires session { session < length self.old.locks.wants }
        requires idle { IsIdle self.old.locks session }
        requires others { names what session ≡ false }
        ensures answer { (h : History) → AllStand self.old h → IsAnswer (lock_events h) session (Others what) result }
        ensures added { (h : History) → AllStand self.old h → AllStand self.new (after session (Others what) result h) }
        ensures good { (h : History) → Stands self.old h → Stands self.new (after session (Others what) result h) }
        ensures refused { (cycle : SessionList) → result ≡ Asked.Deadlock cycle → self.new ≡ self.old }
        ensures waits { slice_index_or self.new.locks.wants session None ≡ left_waiting (Others what) result }
        ensures others { OthersWait session self.old.locks self.new.locks }
        ensures rest { self.new ≡ record self.old { locks = self.new.locks } }
        ensures size { IsSameSize self.old self.new }
    {
        self.locks.wait_on(session, what)
    }

    /// The session's wait is withdrawn.
    pub fn withdraw(&mut self, session: u32)
        requires { session < length self.old.locks.wants }
        ensures added { Adds self.old self.new (λ h. withdrawn session) }
        ensures good { AddsGood self.old self.new (λ h. withdrawn session) }
        ensures idle { IsIdle self.new.locks session }
        ensures others { OthersWait session self.old.locks self.new.locks }
        ensures rest { self.new ≡ record self.old { locks = self.new.locks } }
        ensures size { IsSameSize self.old self.new }
    {
        self.locks.withdraw(session);
    }

    /// The wait of the session that is ready is over, and it holds the lock that it waited for.
    pub fn resume(&mut self, session: u32)
        requires session { session < length self.old.locks.wants }
        requires ready { (h : History) → TableStands self.old.locks h → ready (lock_events h) ≡ Some session }
        ensures added { Adds self.old self.new (λ h. resumed session) }
        ensures good { AddsGood self.old self.new (λ h. resumed session) }
        ensures idle { IsIdle self.new.locks session }
        ensures others { OthersWait session self.old.locks self.new.locks }
        ensures rest { self.new ≡ record self.old { locks = self.new.locks } }
        ensures size { IsSameSize self.old self.new }
    {
        self.locks.resume(session);
    }
}
