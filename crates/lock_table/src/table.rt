ghost use Rattle.std.specs.Prelude.{◌≡◌, ◌≢◌, ℕ, ◌≤◌, ◌<◌, ◌==◌, ◌&&◌, ◌||◌, true, false, List, [], ◌∷◌, Some, None, IfOk, IfSome, length, slice_index_or, nat_eq};
ghost use Rattle.std.specs.List.{list_any};
ghost use Rattle.pg_values.specs.Lists.{listed};
ghost use Rattle.pg_values.specs.Sets.{has};
ghost use Rattle.history.specs.declared.wait.Wanted.TheVariants.{Lock, Others};
ghost use Rattle.pg_values.specs.declared.lock_mode.LockMode.{LockMode as Mode};
ghost use Rattle.history.specs.Locks.{LockEvents, LocksGivenUp, SnapshotGone, WaitResumed, WaitWithdrawn, wanted, is_lock, holds, holds_any, after_end, after_snapshot};
ghost use Rattle.history.specs.Waits.{stands_against, is_cause, waits_for, ready, IsCycle, IsLeastCycle};
ghost use Rattle.history.specs.History.{History, LockChange, lock_events};
ghost use Rattle.lock_table.specs.Kept.{held_at};
ghost use Rattle.lock_table.specs.Answers.{IsAnswer, after, left_waiting, unopposed};
ghost use Rattle.lock_table.specs.Stands.{TableStands, Tells, SameSize, IsIdle, OthersWait, IsKnown, names, kept_of, waiting, over};

use crate::Asked;
use crate::causes::{causes, first_ready, holding, is_unopposed, set_at, want_of};
use crate::changes::{clear_ends, clear_held, clear_snapshots, grant};
use crate::cycle::{least_cycle, rows_of};
use history::{WaitOn, Wanted};
use pg_values::{LockMode, NoMemory, SessionList, SessionSet, TableNo};
use std::alloc::Global;
use std::marker::Model;

/// Who holds which locks, and who waits for what.
#[derive(Drop)]
pub struct LockTable {
    tables: u32,
    held: Vec<SessionSet>,
    taken: Vec<usize>,
    wants: Vec<Option<Wanted>>,
    queue: Vec<u32>,
}

impl Model for LockTable {
    ghost use Rattle.std.specs.Prelude.{length, ◌*◌, ◌≤◌, vec_capacity};
    ghost use Rattle.lock_table.specs.Kept.{KeptLocks, AreTaken};
    ghost use Rattle.lock_table.specs.Stands.{IsKept, kept_of};

    ghost Value = { KeptLocks };

    ghost view = { λ t. kept_of t.tables t.held.items t.wants.items t.queue.items };

    ghost invariant = { λ t. (IsKept (kept_of t.tables t.held.items t.wants.items t.queue.items)) × ((length t.wants.items ≤ vec_capacity t.queue) × (8 * t.tables ≤ vec_capacity t.held) × (8 * t.tables ≤ vec_capacity t.taken) × AreTaken t.held.items t.taken.items (vec_capacity t.taken)) };
}

impl LockTable {
    /// A table for so many sessions and tables, with no lock and no wait.
    pub fn new(alloc: Global, sessions: u32, tables: u32) -> Result<Self, NoMemory>
        requires { sessions ≤ 65 }
        ensures stands { IfOk result (λ t. TableStands t []) }
        ensures sessions { IfOk result (λ t. length t.wants ≡ sessions) }
        ensures tables { IfOk result (λ t. t.tables ≡ tables) }
    {
        Ok(LockTable {
            tables,
            held: Vec::with_capacity(alloc, 8 * tables as usize)?,
            taken: Vec::with_capacity(alloc, 8 * tables as usize)?,
            wants: vec![in alloc; None; sessions as usize]?,
            queue: Vec::with_capacity(alloc, sessions as usize)?,
        })
    }

    /// How many sessions there are.
    pub fn sessions(&self) -> u32
        ensures { result ≡ length self.now.wants }
    {
        self.wants.len() as u32
    }

    /// How many tables there are.
    pub fn tables(&self) -> u32
        ensures { result ≡ self.now.tables }
    {
        self.tables
    }

    /// What the session waits for.
    pub fn wanted(&self, session: u32) -> Option<Wanted>
        ensures is { (h : History) → TableStands self.now h → result ≡ wanted (lock_events h) session }
        ensures kept { result ≡ slice_index_or self.now.wants session None }
        ensures known { IsKnown self.now.tables result }
    {
        want_of(&self.wants, session)
    }

    /// Who holds any lock on the table.
    pub fn holders(&self, table: TableNo) -> SessionSet
        ensures { (h : History) → TableStands self.now h → (y : ℕ) → has result y ≡ holds_any (lock_events h) y table.number }
    {
        holding(&self.held, table.number, LockMode::every())
    }

    /// Whether the session holds the mode on the table.
    pub fn holds(&self, session: u32, table: TableNo, mode: LockMode) -> bool
        ensures is { (h : History) → TableStands self.now h → result ≡ holds (lock_events h) session table.number mode }
        ensures kept { result ≡ has (held_at self.now.held table.number mode) session }
    {
        set_at(&self.held, table.number, mode).has(session)
    }

    /// The oldest wait whose causes have gone.
    pub fn ready(&self) -> Option<u32>
        ensures is { (h : History) → TableStands self.now h → result ≡ ready (lock_events h) }
        ensures known { IfSome result (λ s. s < length self.now.wants) }
        ensures waits { IfSome result (λ s. slice_index_or self.now.wants s None ≢ None) }
    {
        first_ready(&self.held, &self.wants, &self.queue)
    }

    /// A session that does not wait asks for a lock. It looks at the sets of that table and once at the
    /// queue; only where it has to wait, a cycle is looked for, in some steps for each two sessions.
    pub fn request(&mut self, session: u32, table: TableNo, mode: LockMode) -> Asked
        requires session { session < length self.old.wants }
        requires table { table.number < self.old.tables }
        requires idle { IsIdle self.old session }
        ensures answer { (h : History) → TableStands self.old h → IsAnswer (lock_events h) session (Lock table mode) result }
        ensures added { (h : History) → TableStands self.old h → TableStands self.new (after session (Lock table mode) result h) }
        ensures refused { (cycle : SessionList) → result ≡ Asked.Deadlock cycle → self.new ≡ self.old }
        ensures waits { slice_index_or self.new.wants session None ≡ left_waiting (Lock table mode) result }
        ensures others { OthersWait session self.old self.new }
        ensures size { SameSize self.old self.new }
    {
        if self.take_unopposed(session, table, mode) {
            return Asked::Granted;
        }
        self.ask(session, Wanted::Lock { table, mode })
    }

    /// A session that does not wait gets a lock at once, where nobody waits and nobody holds a mode on the
    /// table that conflicts. It says whether it was so; else nothing has changed, and the session may ask.
    #[inline(always)]
    pub fn take_unopposed(&mut self, session: u32, table: TableNo, mode: LockMode) -> bool
        requires session { session < length self.old.wants }
        requires table { table.number < self.old.tables }
        requires idle { IsIdle self.old session }
        ensures is { (h : History) → TableStands self.old h → result ≡ unopposed (lock_events h) table.number mode }
        ensures answer { result ≡ true → (h : History) → TableStands self.old h → IsAnswer (lock_events h) session (Lock table mode) Asked.Granted }
        ensures added { result ≡ true → (h : History) → TableStands self.old h → TableStands self.new (after session (Lock table mode) Asked.Granted h) }
        ensures same { result ≡ false → self.new ≡ self.old }
        ensures waits { self.new.wants ≡ self.old.wants }
        ensures tables { self.new.tables ≡ self.old.tables }
    {
        if self.is_unopposed(table, mode) {
            self.give(session, Some(Wanted::Lock { table, mode }));
            return true;
        }
        false
    }

    /// A session that does not wait asks to go on when other sessions have given something up.
    pub fn wait_on(&mut self, session: u32, what: WaitOn) -> Asked
        requires session { session < length self.old.wants }
        requires idle { IsIdle self.old session }
        requires others { names what session ≡ false }
        ensures answer { (h : History) → TableStands self.old h → IsAnswer (lock_events h) session (Others what) result }
        ensures added { (h : History) → TableStands self.old h → TableStands self.new (after session (Others what) result h) }
        ensures refused { (cycle : SessionList) → result ≡ Asked.Deadlock cycle → self.new ≡ self.old }
        ensures waits { slice_index_or self.new.wants session None ≡ left_waiting (Others what) result }
        ensures others { OthersWait session self.old self.new }
        ensures size { SameSize self.old self.new }
    {
        self.ask(session, Wanted::Others(what))
    }

    // Whether nobody waits, and nobody holds a mode on the table that conflicts with this one.
    #[inline(always)]
    fn is_unopposed(&self, table: TableNo, mode: LockMode) -> bool
        ensures is { (h : LockEvents) → Tells self.now.held self.now.wants self.now.queue h → result ≡ unopposed h table.number mode }
        ensures none { result ≡ true → (h : LockEvents) → Tells self.now.held self.now.wants self.now.queue h →
            (x y : ℕ) → stands_against h x table.number mode y ≡ false }
    {
        is_unopposed(&self.held, &self.queue, table.number, mode)
    }

    #[inline(never)]
    fn ask(&mut self, session: u32, want: Wanted) -> Asked
        requires session { session < length self.old.wants }
        requires idle { IsIdle self.old session }
        requires known { IsKnown self.old.tables (Some want) }
        ensures answer { (h : History) → TableStands self.old h → IsAnswer (lock_events h) session want result }
        ensures added { (h : History) → TableStands self.old h → TableStands self.new (after session want result h) }
        ensures refused { (cycle : SessionList) → result ≡ Asked.Deadlock cycle → self.new ≡ self.old }
        ensures waits { slice_index_or self.new.wants session None ≡ left_waiting want result }
        ensures others { OthersWait session self.old self.new }
        ensures size { SameSize self.old self.new }
    {
        let behind = self.causes_of(session, want);
        if behind.is_empty() {
            self.give(session, Some(want));
            return Asked::Granted;
        }
        self.begin_wait(session, want);
        match self.cycle_through(session) {
            Some(cycle) => {
                self.end_wait(session);
                Asked::Deadlock { cycle }
            }
            None => Asked::Waits { behind },
        }
    }

    fn causes_of(&self, session: u32, want: Wanted) -> SessionSet
        requires { session < length self.now.wants }
        ensures { (h : LockEvents) → Tells self.now.held self.now.wants self.now.queue h → (y : ℕ) → has result y ≡ is_cause h session want y }
    {
        causes(&self.held, &self.wants, &self.queue, session, want)
    }

    // The least cycle through the session, which waits.
    fn cycle_through(&self, session: u32) -> Option<SessionList>
        requires { session < length self.now.wants }
        ensures found { IfSome result (λ cycle. (h : LockEvents) → Tells self.now.held self.now.wants self.now.queue h → IsLeastCycle (waits_for h) session (listed cycle)) }
        ensures none { result ≡ None → (h : LockEvents) → Tells self.now.held self.now.wants self.now.queue h → (cycle : List ℕ) → IsCycle (waits_for h) session cycle → ⊥ }
    {
        let rows = rows_of(&self.held, &self.wants, &self.queue);
        least_cycle(&rows, session)
    }

    // The session gets the lock that it wants, if it wants one.
    #[inline(always)]
    fn give(&mut self, session: u32, want: Option<Wanted>)
        requires session { session < length self.old.wants }
        requires known { IsKnown self.old.tables want }
        ensures holds { (s t : ℕ) (m : Mode) → has (held_at self.new.held t m) s
            ≡ (((session == s) && is_lock t m want) || has (held_at self.old.held t m) s) }
        ensures same { self.new ≡ kept_of self.old.tables self.new.held self.old.wants self.old.queue }
        ensures low { session < 65 }
    {
        grant(&mut self.held, &mut self.taken, session, want);
    }

    fn begin_wait(&mut self, session: u32, want: Wanted)
        requires session { session < length self.old.wants }
        requires idle { IsIdle self.old session }
        requires known { IsKnown self.old.tables (Some want) }
        ensures kept { self.new ≡ waiting self.old session want }
        ensures new { list_any (nat_eq session) self.old.queue ≡ false }
        ensures low { session < 65 }
    {
        self.wants[session as usize] = Some(want);
        self.queue.push(session).unwrap();
    }

    fn end_wait(&mut self, session: u32)
        requires { session < length self.old.wants }
        ensures { self.new ≡ over self.old session }
    {
        self.wants[session as usize] = None;
        self.queue.retain(|y| *y != session);
    }

    /// The session's wait is withdrawn.
    pub fn withdraw(&mut self, session: u32)
        requires { session < length self.old.wants }
        ensures added { (h : History) → TableStands self.old h → TableStands self.new (LockChange (WaitWithdrawn session) ∷ h) }
        ensures waits { IsIdle self.new session }
        ensures others { OthersWait session self.old self.new }
        ensures size { SameSize self.old self.new }
    {
        self.end_wait(session);
    }

    /// The wait of the session that is ready is over, and it holds the lock that it waited for.
    pub fn resume(&mut self, session: u32)
        requires session { session < length self.old.wants }
        requires ready { (h : History) → TableStands self.old h → ready (lock_events h) ≡ Some session }
        ensures added { (h : History) → TableStands self.old h → TableStands self.new (LockChange (WaitResumed session) ∷ h) }
        ensures waits { IsIdle self.new session }
        ensures others { OthersWait session self.old self.new }
        ensures size { SameSize self.old self.new }
    {
        let want = self.wanted(session);
        self.give(session, want);
        self.end_wait(session);
    }

    /// The session's transaction has ended: it gives up its locks, and nobody waits for its end.
    pub fn release_all(&mut self, session: u32)
        requires { session < length self.old.wants }
        ensures added { (h : History) → TableStands self.old h → TableStands self.new (LockChange (LocksGivenUp session) ∷ h) }
        ensures waits { (s : ℕ) → slice_index_or self.new.wants s None ≡ after_end session (slice_index_or self.old.wants s None) }
        ensures size { SameSize self.old self.new }
    {
        clear_held(&mut self.held, &mut self.taken, session);
        clear_ends(&mut self.wants, session);
    }

    /// The session's snapshot has gone: nobody waits for it.
    pub fn snapshot_gone(&mut self, session: u32)
        requires { session < length self.old.wants }
        ensures added { (h : History) → TableStands self.old h → TableStands self.new (LockChange (SnapshotGone session) ∷ h) }
        ensures waits { (s : ℕ) → slice_index_or self.new.wants s None ≡ after_snapshot session (slice_index_or self.old.wants s None) }
        ensures size { SameSize self.old self.new }
    {
        clear_snapshots(&mut self.wants, session);
    }
}
